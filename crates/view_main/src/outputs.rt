//! What a command writes of its input.

ghost use Rattle.std.specs.Prelude.{◌≡◌, IfErr, IfOk, None};
ghost use Rattle.view_chart.specs.Charts.{IsRefusal, back_from};
ghost use Rattle.trace_text.specs.Texts.{IsTrace};
ghost use Rattle.tm_script.specs.Grammar.{IsScript};
ghost use Rattle.view_stat.specs.Telling.{IsTold as IsStatTold};
ghost use Rattle.view_stat.specs.Comparing.{IsAloneTold};
ghost use Rattle.view_main.specs.Outputs.{IsAllTold, IsAloneCounting, IsCounting, IsDrawing};
ghost use Rattle.view_main.specs.Outputs.{IsDrawn, IsDrawnIn, IsTelling, IsTold};
ghost use Rattle.view_main.specs.Outputs.{drawing_of, status_told};
ghost use Rattle.view_windows.specs.Windows.{window_fault};

use crate::refusals::{back_refused, report_refused, script_refused, steps_refused};
use crate::words::Look;
use linux_view::{FITS, MISFIT, NO_TRACE, all_status, check_all, print_all};
use report_reader::{ReadReport, read_report};
use std::alloc::Global;
use tm_base::NoMemory;
use tm_report::Line;
use tm_script::{ReadScript, Script, read_script};
use trace_explain::{ReadTrace, Trace, Verdict, explain, read_trace};
use view_chart::{NoChart, chart};
use view_stat::{Form, tell_alone, tell_stat};
use view_text::text_chart;
use view_windows::{window_fault, window_refused};

/// A text, and the status where all of it is written.
#[derive(Drop)]
pub struct Output {
    pub text: Vec<u8>,
    pub status: u8,
}

/// The lines of a report as a picture, or as text.
fn drawing_of(alloc: Global, look: Look, lines: &[Line]) -> Result<Vec<u8>, NoChart>
    ensures text { IfOk result (λ text. text.items ≡ drawing_of look lines.now) }
    ensures ascends { IfOk result (λ text. back_from 1 0 lines.now ≡ None) }
    ensures refused { IfErr result (IsRefusal lines.now) }
{
    if look.text {
        text_chart(alloc, look.choice, look.covers, lines)
    } else {
        chart(alloc, look.choice, look.covers, lines)
    }
}

/// What `chart` writes of lines of which something is chosen.
fn draw_window(alloc: Global, look: Look, lines: &[Line]) -> Result<Output, NoMemory>
    ensures { IfOk result (λ o. IsDrawnIn look lines.now o.text.items o.status) }
{
    match drawing_of(alloc, look, lines) {
        Ok(text) => Ok(Output { text, status: FITS }),
        Err(NoChart::BackInTime(number)) => Ok(Output {
            text: back_refused(alloc, number)?,
            status: NO_TRACE,
        }),
        Err(NoChart::NoMemory) => Err(NoMemory),
    }
}

/// What `chart` writes of these lines.
fn draw_lines(alloc: Global, look: Look, lines: &[Line]) -> Result<Output, NoMemory>
    ensures { IfOk result (λ o. IsDrawn look lines.now o.text.items o.status) }
{
    match window_fault(look.choice, lines) {
        Some(fault) => Ok(Output {
            text: window_refused(alloc, fault)?,
            status: NO_TRACE,
        }),
        None => draw_window(alloc, look, lines),
    }
}

/// What `chart` writes of these bytes.
pub(crate) fn draw(alloc: Global, look: Look, bytes: &[u8]) -> Result<Output, NoMemory>
    ensures { IfOk result (λ o. IsDrawing look bytes.now o.text.items o.status) }
{
    match read_report(alloc, bytes) {
        Ok(lines) => draw_lines(alloc, look, &lines),
        Err(ReadReport::Refused(fault)) => Ok(Output {
            text: report_refused(alloc, fault)?,
            status: NO_TRACE,
        }),
        Err(ReadReport::NoMemory) => Err(NoMemory),
    }
}

/// The status of a trace that was told.
fn status_told(verdict: Verdict) -> u8
    ensures { result ≡ status_told verdict }
{
    match verdict {
        Verdict::Yes { steps: _ } => FITS,
        Verdict::No { index: _ } => MISFIT,
    }
}

/// What `explain` writes of a trace.
fn tell_trace(alloc: Global, trace: &Trace) -> Result<Output, NoMemory>
    requires { IsTrace trace.now }
    ensures { IfOk result (λ o. IsTold trace.now o.text.items o.status) }
{
    let told = explain(alloc, trace)?;
    Ok(Output {
        text: told.text,
        status: status_told(told.verdict),
    })
}

/// What `explain` writes of these bytes.
pub(crate) fn tell(alloc: Global, bytes: &[u8]) -> Result<Output, NoMemory>
    ensures { IfOk result (λ o. IsTelling bytes.now o.text.items o.status) }
{
    match read_trace(alloc, bytes) {
        Ok(trace) => tell_trace(alloc, &trace),
        Err(ReadTrace::Refused(fault)) => Ok(Output {
            text: steps_refused(alloc, bytes, fault)?,
            status: NO_TRACE,
        }),
        Err(ReadTrace::NoMemory) => Err(NoMemory),
    }
}

/// What `stat` writes of a script.
fn count_script(alloc: Global, form: Form, script: &Script) -> Result<Output, NoMemory>
    requires { IsScript script.now }
    ensures { IfOk result (λ o. IsStatTold form script.now o.text.items o.status) }
{
    let told = tell_stat(alloc, form, script)?;
    Ok(Output {
        text: told.text,
        status: told.status,
    })
}

/// What `stat` writes of these bytes.
pub(crate) fn count(alloc: Global, form: Form, bytes: &[u8]) -> Result<Output, NoMemory>
    ensures { IfOk result (λ o. IsCounting form bytes.now o.text.items o.status) }
{
    match read_script(alloc, bytes) {
        Ok(script) => count_script(alloc, form, &script),
        Err(ReadScript::Refused(fault)) => Ok(Output {
            text: script_refused(alloc, bytes, fault)?,
            status: NO_TRACE,
        }),
        Err(ReadScript::NoMemory) => Err(NoMemory),
    }
}

/// What `stat --alone` writes of a script.
fn count_script_alone(alloc: Global, script: &Script) -> Result<Output, NoMemory>
    requires { IsScript script.now }
    ensures { IfOk result (λ o. IsAloneTold script.now o.text.items o.status) }
{
    let told = tell_alone(alloc, script)?;
    Ok(Output {
        text: told.text,
        status: told.status,
    })
}

/// What `stat --alone` writes of these bytes.
pub(crate) fn count_alone(alloc: Global, bytes: &[u8]) -> Result<Output, NoMemory>
    ensures { IfOk result (λ o. IsAloneCounting bytes.now o.text.items o.status) }
{
    match read_script(alloc, bytes) {
        Ok(script) => count_script_alone(alloc, &script),
        Err(ReadScript::Refused(fault)) => Ok(Output {
            text: script_refused(alloc, bytes, fault)?,
            status: NO_TRACE,
        }),
        Err(ReadScript::NoMemory) => Err(NoMemory),
    }
}

/// What `linux --all` writes of these bytes.
pub(crate) fn tell_all(alloc: Global, bytes: &[u8]) -> Result<Output, NoMemory>
    ensures { IfOk result (λ o. IsAllTold bytes.now o.text.items o.status) }
{
    let found = check_all(alloc, bytes)?;
    Ok(Output {
        text: print_all(alloc, &found)?,
        status: all_status(&found),
    })
}
