//! What the command writes of its input.

ghost use Rattle.std.specs.Prelude.{◌≡◌, IfOk};
ghost use Rattle.std.specs.List.{list_any};
ghost use Rattle.orders_answer.specs.Answers.{forgets};
ghost use Rattle.orders_text.specs.Texts.{IsCase};
ghost use Rattle.orders_view.specs.Outputs.{AreAllTold, AreEndsTold, IsAttemptTold, IsCaseTold};
ghost use Rattle.orders_view.specs.Outputs.{IsOneTold, IsOrderTold, IsPrintable, IsTelling};
ghost use Rattle.orders_view.specs.Outputs.{is_left, shows_forgotten, status_found};
ghost use Rattle.orders_view.specs.Texts.{fault_line};

use crate::statuses::{FAULT, NOT_ALL};
use crate::texts::{case_refused, case_stuck, fault_text, no_end, too_many_text};
use crate::words::Asked;
use linux_view::{FITS, MISFIT, NO_TRACE, TOO_LONG, USAGE};
use orders_answer::{Answerer, TimerShown, print_answer};
use orders_text::{ReadTrace, read_case};
use orders_try::{
    Attempt, Case, CaseEnds, End, EndSight, Rule, Shown, Stop, answer_of, show, try_case,
};
use std::alloc::Global;
use text_words::push_bytes;
use tm_base::NoMemory;
use trace_explain::print_trace;

/// A text, and the status where all of it is written.
#[derive(Drop)]
pub struct Output {
    pub text: Vec<u8>,
    pub status: u8,
}

/// An output of these bytes.
pub(crate) fn output_of(alloc: Global, bytes: &[u8], status: u8) -> Result<Output, NoMemory>
    ensures text { IfOk result (λ o. o.text.items ≡ bytes.now) }
    ensures status { IfOk result (λ o. o.status ≡ status) }
{
    let mut text = Vec::new(alloc);
    push_bytes(&mut text, bytes)?;
    Ok(Output { text, status })
}

/// Whether a timer is left to nobody.
fn is_left(timer: &TimerShown) -> bool
    ensures { result ≡ is_left timer.now }
{
    match timer.by {
        Answerer::Nobody => true,
        _ => false,
    }
}

/// Whether one of these timers is.
fn any_left(timers: &[TimerShown]) -> bool
    ensures { result ≡ list_any is_left timers.now }
{
    timers.iter().any(|timer| is_left(timer))
}

/// Whether a sight shows a timer that is.
fn forgets(sight: &EndSight) -> bool
    ensures { result ≡ forgets sight.now.timers }
{
    any_left(&sight.timers)
}

/// Whether an end does.
fn shows_forgotten(end: &End<EndSight>) -> bool
    ensures { result ≡ shows_forgotten end.now }
{
    forgets(&end.found.state)
}

/// Whether one of these ends does.
fn any_shows(ends: &[End<EndSight>]) -> bool
    ensures { result ≡ list_any shows_forgotten ends.now }
{
    ends.iter().any(|end| shows_forgotten(end))
}

/// The status of what was found.
fn status_found(ends: &CaseEnds) -> u8
    ensures { result ≡ status_found ends.now }
{
    if any_shows(&ends.ends) {
        return MISFIT;
    }
    if ends.is_whole { FITS } else { NOT_ALL }
}

/// What is written where the search stops without an answer.
fn tell_stop(alloc: Global, stop: Stop) -> Result<Output, NoMemory>
    ensures text { IfOk result (λ o. o.text.items ≡ fault_line) }
    ensures status { IfOk result (λ o. o.status ≡ FAULT) }
{
    match stop {
        Stop::NoMemory => Err(NoMemory),
        Stop::NoStep => output_of(alloc, fault_text(), FAULT),
    }
}

/// What is written of all ends.
fn tell_all(alloc: Global, rule: Rule, ends: CaseEnds) -> Result<Output, NoMemory>
    ensures { IfOk result (λ o. AreAllTold rule ends o.text.items o.status) }
{
    let status = status_found(&ends);
    let answer = answer_of(alloc, rule, ends)?;
    Ok(Output {
        text: print_answer(alloc, &answer)?,
        status,
    })
}

/// What is written of an order of the end of this number.
fn tell_shown(alloc: Global, ends: &CaseEnds, number: u64, shown: Shown) -> Result<Output, NoMemory>
    requires { IsPrintable shown }
    ensures { IfOk result (λ o. IsOrderTold ends.now number shown o.text.items o.status) }
{
    match shown {
        Shown::Trace(trace) => Ok(Output {
            text: print_trace(alloc, &trace)?,
            status: status_found(ends),
        }),
        Shown::NoSuchEnd => Ok(Output {
            text: no_end(alloc, number, ends.ends.len() as u64)?,
            status: USAGE,
        }),
        Shown::TooLong => output_of(alloc, too_many_text(), TOO_LONG),
    }
}

/// What is written of one end.
fn tell_one(
    alloc: Global,
    rule: Rule,
    case: &Case,
    ends: &CaseEnds,
    number: u64,
) -> Result<Output, NoMemory>
    requires { IsCase case.now }
    ensures { IfOk result (λ o. IsOneTold rule case.now ends.now number o.text.items o.status) }
{
    match show(alloc, rule, case, ends, number as usize) {
        Ok(shown) => tell_shown(alloc, ends, number, shown),
        Err(stop) => tell_stop(alloc, stop),
    }
}

/// What is written of the ends of a case.
fn tell_ends(alloc: Global, asked: Asked, case: &Case, ends: CaseEnds) -> Result<Output, NoMemory>
    requires { IsCase case.now }
    ensures { IfOk result (λ o. AreEndsTold asked case.now ends o.text.items o.status) }
{
    match asked.show {
        None => tell_all(alloc, asked.rule, ends),
        Some(number) => tell_one(alloc, asked.rule, case, &ends, number),
    }
}

/// What is written of what trying a case gave.
fn tell_attempt(
    alloc: Global,
    asked: Asked,
    case: &Case,
    attempt: Attempt,
) -> Result<Output, NoMemory>
    requires { IsCase case.now }
    ensures { IfOk result (λ o. IsAttemptTold asked case.now attempt o.text.items o.status) }
{
    match attempt {
        Attempt::Ends(ends) => tell_ends(alloc, asked, case, ends),
        Attempt::Stuck { line, cause } => Ok(Output {
            text: case_stuck(alloc, line, &cause)?,
            status: NO_TRACE,
        }),
        Attempt::TooLong => output_of(alloc, too_many_text(), TOO_LONG),
    }
}

/// What is written of a case.
fn tell_case(alloc: Global, asked: Asked, case: &Case) -> Result<Output, NoMemory>
    requires { IsCase case.now }
    ensures { IfOk result (λ o. IsCaseTold asked case.now o.text.items o.status) }
{
    match try_case(alloc, asked.rule, case, asked.states as usize) {
        Ok(attempt) => tell_attempt(alloc, asked, case, attempt),
        Err(stop) => tell_stop(alloc, stop),
    }
}

/// What is written of these bytes.
pub(crate) fn tell(alloc: Global, asked: Asked, bytes: &[u8]) -> Result<Output, NoMemory>
    ensures { IfOk result (λ o. IsTelling asked bytes.now o.text.items o.status) }
{
    match read_case(alloc, bytes) {
        Ok(case) => tell_case(alloc, asked, &case),
        Err(ReadTrace::Refused(fault)) => Ok(Output {
            text: case_refused(alloc, fault)?,
            status: NO_TRACE,
        }),
        Err(ReadTrace::NoMemory) => Err(NoMemory),
    }
}
