//! The text of an answer.

ghost use Rattle.std.specs.Prelude.{◌≡◌, ◌+◌, ◌^◌, ◌<◌, ◌≤◌, ◌++◌, IfOk, MatchOption, OnOk, codes};
ghost use Rattle.std.specs.Fmt.{decimal};
ghost use Rattle.orders_answer.specs.Answers.{all_orders, answer_text, count_text, ends_shown};
ghost use Rattle.orders_answer.specs.Answers.{forgets, is_nobody, last_line, lost_orders, sum_of};

use crate::lines::push_end;
use crate::pieces::{push_after, push_wide, push_words};
use crate::shown::{AnswerShown, Answerer, EndShown, TimerShown};
use std::alloc::Global;
use tm_base::NoMemory;

/// Whether nobody answers.
fn is_nobody(by: Answerer) -> bool
    ensures { result ≡ is_nobody by }
{
    match by {
        Answerer::Nobody => true,
        _ => false,
    }
}

/// Whether nobody answers for one of these timers.
fn forgets(timers: &[TimerShown]) -> bool
    ensures { result ≡ forgets timers.now }
{
    for timer in timers {
        if is_nobody(timer.by) {
            return true;
        }
    }
    false
}

/// Of an end the orders that leave a timer to nobody.
fn lost_orders(end: &EndShown) -> u128
    ensures { result ≡ lost_orders end.now }
{
    if forgets(&end.timers) { end.orders } else { 0 }
}

/// How many orders there are; None from 2^128 on.
fn all_of(ends: &[EndShown]) -> Option<u128>
    ensures { MatchOption result (2 ^ 128 ≤ sum_of all_orders ends.now)
        (λ n. (n ≡ sum_of all_orders ends.now)) }
{
    let mut count = 0;
    for end in ends {
        match end.orders.checked_add(count) {
            Some(more) => count = more,
            None => return None,
        }
    }
    Some(count)
}

/// How many orders leave a timer to nobody; None from 2^128 on.
fn lost_of(ends: &[EndShown]) -> Option<u128>
    ensures { MatchOption result (2 ^ 128 ≤ sum_of lost_orders ends.now)
        (λ n. (n ≡ sum_of lost_orders ends.now)) }
{
    let mut count = 0;
    for end in ends {
        match lost_orders(end).checked_add(count) {
            Some(more) => count = more,
            None => return None,
        }
    }
    Some(count)
}

/// How many orders there are, as a text.
fn push_all(text: &mut Vec<u8>, ends: &[EndShown]) -> Result<(), NoMemory>
    ensures { OnOk result (text.new.items
        ≡ text.old.items ++ count_text (sum_of all_orders ends.now)) }
{
    match all_of(ends) {
        Some(count) => push_wide(text, count),
        None => push_words(text, b"more"),
    }
}

/// How many orders leave a timer to nobody, as a text.
fn push_lost(text: &mut Vec<u8>, ends: &[EndShown]) -> Result<(), NoMemory>
    ensures { OnOk result (text.new.items
        ≡ text.old.items ++ count_text (sum_of lost_orders ends.now)) }
{
    match lost_of(ends) {
        Some(count) => push_wide(text, count),
        None => push_words(text, b"more"),
    }
}

/// The ends, numbered from 1.
fn push_ends(text: &mut Vec<u8>, ends: &[EndShown]) -> Result<(), NoMemory>
    ensures { OnOk result (text.new.items ≡ text.old.items ++ ends_shown 1 ends.now) }
{
    let mut number = 1;
    for end in ends {
        push_end(text, number, end)?;
        number += 1;
    }
    Ok(())
}

/// The last line.
#[tactic(auto, using(std::proofs::lemmas::List::append_assoc))]
fn push_last(text: &mut Vec<u8>, is_whole: bool, states: u64) -> Result<(), NoMemory>
    ensures { OnOk result (text.new.items ≡ text.old.items ++ last_line is_whole states) }
{
    if is_whole {
        return push_words(text, b"every order ends so\n");
    }
    push_after(text, b"not all: ", states)?;
    push_words(text, b" states\n")
}

/// The rule.
#[tactic(auto, using(std::proofs::lemmas::List::append_assoc))]
fn push_rule(text: &mut Vec<u8>, rule: &[u8]) -> Result<(), NoMemory>
    ensures { OnOk result (text.new.items
        ≡ text.old.items ++ (codes "rule " ++ (rule.now ++ codes "\norders "))) }
{
    push_words(text, b"rule ")?;
    push_words(text, rule)?;
    push_words(text, b"\norders ")?;
    Ok(())
}

/// How many orders and states there are.
#[tactic(auto, using(std::proofs::lemmas::List::append_assoc))]
fn push_counts(text: &mut Vec<u8>, ends: &[EndShown], states: u64) -> Result<(), NoMemory>
    ensures { OnOk result (text.new.items ≡ text.old.items
        ++ (count_text (sum_of all_orders ends.now) ++ (codes " states " ++ decimal states))) }
{
    push_all(text, ends)?;
    push_after(text, b" states ", states)?;
    Ok(())
}

/// How many orders leave a timer to nobody.
#[tactic(auto, using(std::proofs::lemmas::List::append_assoc))]
fn push_nobody(text: &mut Vec<u8>, ends: &[EndShown]) -> Result<(), NoMemory>
    ensures { OnOk result (text.new.items ≡ text.old.items
        ++ (codes " nobody " ++ (count_text (sum_of lost_orders ends.now) ++ codes "\n"))) }
{
    push_words(text, b" nobody ")?;
    push_lost(text, ends)?;
    push_words(text, b"\n")?;
    Ok(())
}

/// The text of an answer.
#[tactic(auto, using(std::proofs::lemmas::List::append_assoc), unfolding(crate::specs::Answers::answer_text))]
pub fn print_answer(alloc: Global, answer: &AnswerShown) -> Result<Vec<u8>, NoMemory>
    ensures { IfOk result (λ text. text.items ≡ answer_text answer.now) }
{
    let mut text = Vec::new(alloc);
    push_rule(&mut text, &answer.rule)?;
    push_counts(&mut text, &answer.ends, answer.states)?;
    push_nobody(&mut text, &answer.ends)?;
    push_ends(&mut text, &answer.ends)?;
    push_last(&mut text, answer.is_whole, answer.states)?;
    Ok(text)
}
