//! What tmigview writes.

ghost use Rattle.std.specs.Prelude.{◌≡◌, ◌<◌, ◌++◌, codes, IfOk, OnOk};
ghost use Rattle.linux_view.specs.Texts.{all_status, all_text, answers_text, broken_text};
ghost use Rattle.linux_view.specs.Notes.{count_text};
ghost use Rattle.linux_view.specs.Texts.{fits_heading, fits_status};
ghost use Rattle.linux_view.specs.Texts.{counts_text, end_text, fault_text, misfits_text};
ghost use Rattle.linux_view.specs.Texts.{no_trace_text, read_fault_line, too_long_line};
ghost use Rattle.linux_view.specs.Texts.{rule_text, tally_text, usage_line, verdict_text};
ghost use Rattle.linux_view.specs.Texts.{events_text, hex_digit, hex_digits};
ghost use Rattle.linux_view.specs.Texts.{behind_text, cpu_text, late_runs_text, open_text};
ghost use Rattle.linux_view.specs.Texts.{orders_text};
ghost use Rattle.linux_view.specs.Texts.{others_text, runs_text, tick_runs_text};
ghost use Rattle.linux_view.specs.Texts.{last_text, whom_text};

use crate::notes::{push_count, push_notes};
use crate::statuses::{FITS, MISFIT, NO_TRACE, NOTHING};
use crate::timer_texts::push_timers;
use linux_all::{Found, Misfit, Open, Tally, Verdict};
use linux_lines::LineFault;
use linux_runs::{Differences, Runs};
use linux_seen::{Rule, Whom};
use linux_told::Answers;
use std::alloc::Global;
use text_words::push_bytes;
use tm_base::{CpuId, NoMemory};

/// The digits of a pointer in hexadecimal, as the kernel writes it.
const POINTER_DIGITS: u8 = 16;

/// How the program is used.
pub fn usage_text() -> &'static [u8]
    ensures { result.now ≡ usage_line }
{
    b"usage: tmigview linux [--all] < TRACE | orders [--rule NAME] [--show N] [--states N] \
      < CASE | explain < STEPS | stat [--rows | --wakeups | --alone] < SCRIPT \
      | stat SCRIPT SCRIPT | chart [--text] [--covers] [--from J] [--to J] [--cpus A-B] < REPORT\n"
}

/// That the source failed.
pub fn read_fault_text() -> &'static [u8]
    ensures { result.now ≡ read_fault_line }
{
    b"tmigview: the input could not be read\n"
}

/// That the source has too many bytes.
pub fn too_long_text() -> &'static [u8]
    ensures { result.now ≡ too_long_line }
{
    b"tmigview: the input has more than 67108864 bytes\n"
}

/// A rule in a sentence, with the kernel's functions that keep it.
#[tactic(auto, unfolding(crate::specs::Texts::rule_text))]
fn rule_text(rule: Rule) -> &'static [u8]
    ensures { result.now ≡ rule_text rule }
{
    match rule {
        Rule::Group => b"a group's migrator is one of its active children, and none where none is \
              (tmigr_active_up, tmigr_inactive_up)",
        Rule::Tree => b"groups keep levels, parents and children's numbers (tmigr_setup_groups)",
        Rule::Node => b"a group of a node has children of that node alone (tmigr_setup_groups)",
        Rule::Walk => b"a walk goes on exactly where it has to (__walk_groups)",
        Rule::Exchange => b"an exchange follows from the state before it (tmigr_active_up, \
              tmigr_inactive_up)",
        Rule::Order => b"the search for an order gave up, as more than 40 exchanges on a group \
              are late (tmigr_active_up, tmigr_inactive_up)",
        Rule::Cpu => b"a CPU wakes where it sleeps, and only a sleeping one is run elsewhere \
              (tmigr_cpu_activate, tmigr_handle_remote_cpu)",
        Rule::First => b"a group's first event is no later than one that another child has there \
              (tmigr_next_groupevt)",
        Rule::Remote => b"a CPU's timers are run elsewhere when its event is due \
              (tmigr_handle_remote_cpu)",
        Rule::Event => b"an event is the first of a sleeping child (tmigr_update_events)",
        Rule::Wakeup => b"an idle CPU wakes for the first event of a sleeping top \
              (tmigr_next_groupevt_expires)",
        Rule::Told => b"each idle CPU's told timer is answered for (tmigr_update_events, \
              tmigr_inactive_up)",
        Rule::Timer =>
            b"an armed timer is in its bucket and runs at its wheel expiry, at home or in \
              a run for its CPU (calc_wheel_index, expire_timers)",
        Rule::Rest => b"with no walk under way a child's bit says whether it is active \
              (tmigr_active_up, tmigr_inactive_up)",
    }
}

/// A cause in words.
#[tactic(auto, unfolding(crate::specs::Texts::fault_text))]
fn fault_text(fault: LineFault) -> &'static [u8]
    ensures { result.now ≡ fault_text fault }
{
    match fault {
        LineFault::NoEvent => b"there is no [CPU] with a time behind it",
        LineFault::BadCpu => b"the CPU is past 511, the last one that is known here",
        LineFault::FieldMissing => b"a field is missing",
        LineFault::BadNumber => b"a field is no number",
        LineFault::OutOfRange => b"a field is out of range",
        LineFault::HiddenPointer => b"pointers are hidden: boot with no_hash_pointers",
    }
}

/// The counts of what was read and checked, under a heading.
#[tactic(auto, using(std::proofs::lemmas::List::append_assoc), unfolding(crate::specs::Texts::tally_text))]
fn push_tally(text: &mut Vec<u8>, heading: &[u8], tally: Tally) -> Result<(), NoMemory>
    ensures { OnOk result
        (text.new.items ≡ text.old.items ++ tally_text heading.now tally) }
{
    push_count(text, heading, tally.lines)?;
    push_count(text, b" events ", tally.events)?;
    push_count(text, b" exchanges ", tally.exchanges)?;
    push_count(text, b" rests ", tally.rests)?;
    push_count(text, b" losses ", tally.losses)?;
    Ok(())
}

/// Who answered for what was told.
#[tactic(auto, using(std::proofs::lemmas::List::append_assoc), unfolding(crate::specs::Texts::answers_text))]
fn push_answers(text: &mut Vec<u8>, answers: Answers) -> Result<(), NoMemory>
    ensures { OnOk result (text.new.items ≡ text.old.items ++ answers_text answers) }
{
    push_count(text, b"\ntold: held ", answers.held)?;
    push_count(text, b" woken ", answers.woken)?;
    push_count(text, b" itself ", answers.itself)?;
    push_count(text, b" open ", answers.unsure)?;
    push_count(text, b" due ", answers.due)?;
    Ok(())
}

/// How many runs of other CPUs' timers were late by a tick or so.
#[tactic(auto, using(std::proofs::lemmas::List::append_assoc), unfolding(crate::specs::Texts::tick_runs_text))]
fn push_tick_runs(text: &mut Vec<u8>, runs: Runs) -> Result<(), NoMemory>
    ensures { OnOk result (text.new.items ≡ text.old.items ++ tick_runs_text runs) }
{
    push_count(text, b" 4000us ", runs.in_4_ms)?;
    push_count(text, b" 10000us ", runs.in_10_ms)?;
    Ok(())
}

/// .. by more, or by an unknown time.
#[tactic(auto, using(std::proofs::lemmas::List::append_assoc), unfolding(crate::specs::Texts::late_runs_text))]
fn push_late_runs(text: &mut Vec<u8>, runs: Runs) -> Result<(), NoMemory>
    ensures { OnOk result (text.new.items ≡ text.old.items ++ late_runs_text runs) }
{
    push_count(text, b" 100000us ", runs.in_100_ms)?;
    push_count(text, b" later ", runs.later)?;
    push_count(text, b" open ", runs.unsure)?;
    Ok(())
}

/// How late other CPUs' timers were run.
#[tactic(auto, using(std::proofs::lemmas::List::append_assoc), unfolding(crate::specs::Texts::runs_text))]
fn push_runs(text: &mut Vec<u8>, runs: Runs) -> Result<(), NoMemory>
    ensures { OnOk result (text.new.items ≡ text.old.items ++ runs_text runs) }
{
    push_count(text, b"\nremote: 1000us ", runs.in_1_ms)?;
    push_tick_runs(text, runs)?;
    push_late_runs(text, runs)?;
    Ok(())
}

/// What Linux does otherwise with events and wakeups.
#[tactic(auto, using(std::proofs::lemmas::List::append_assoc), unfolding(crate::specs::Texts::events_text))]
fn push_events(text: &mut Vec<u8>, differences: Differences) -> Result<(), NoMemory>
    ensures { OnOk result (text.new.items ≡ text.old.items ++ events_text differences) }
{
    push_count(text, b"\nlinux: early ", differences.early)?;
    push_count(text, b" twice ", differences.twice)?;
    Ok(())
}

/// .. with runs of timers, of which so many were of forwarded bases.
#[tactic(auto, using(std::proofs::lemmas::List::append_assoc), unfolding(crate::specs::Texts::orders_text))]
fn push_orders(text: &mut Vec<u8>, runs: Runs, forwarded: u64) -> Result<(), NoMemory>
    ensures { OnOk result (text.new.items ≡ text.old.items ++ orders_text runs forwarded) }
{
    push_count(text, b" order ", runs.queued)?;
    push_count(text, b" own ", runs.itself)?;
    push_count(text, b" forwarded ", forwarded)?;
    Ok(())
}

/// What isn't known at the end.
#[tactic(auto, using(std::proofs::lemmas::List::append_assoc), unfolding(crate::specs::Texts::open_text))]
fn push_open(text: &mut Vec<u8>, runs: Runs, late: u64) -> Result<(), NoMemory>
    ensures { OnOk result (text.new.items ≡ text.old.items ++ open_text runs late) }
{
    push_count(text, b"\nopen: late exchanges ", late)?;
    push_count(text, b" astray ", runs.astray)?;
    Ok(())
}

/// What stands last: what isn't known, and the timers.
#[tactic(auto, using(std::proofs::lemmas::List::append_assoc), unfolding(crate::specs::Texts::last_text))]
fn push_last(text: &mut Vec<u8>, tally: Tally, ends: Open) -> Result<(), NoMemory>
    ensures { OnOk result (text.new.items ≡ text.old.items ++ last_text tally ends) }
{
    push_open(text, tally.runs, ends.late as u64)?;
    push_timers(text, tally.timers)?;
    push_notes(text, tally, ends)?;
    Ok(())
}

/// What was counted besides.
#[tactic(auto, unfolding(crate::specs::Texts::others_text))]
fn push_others(text: &mut Vec<u8>, tally: Tally) -> Result<(), NoMemory>
    ensures { OnOk result (text.new.items ≡ text.old.items ++ others_text tally) }
{
    push_runs(text, tally.runs)?;
    push_events(text, tally.differences)?;
    push_orders(text, tally.runs, tally.timers.forwarded)?;
    Ok(())
}

/// All counts, under a heading.
#[tactic(auto, unfolding(crate::specs::Texts::counts_text))]
fn push_counts(text: &mut Vec<u8>, heading: &[u8], tally: Tally, ends: Open) -> Result<(), NoMemory>
    ensures { OnOk result
        (text.new.items ≡ text.old.items ++ counts_text heading.now tally ends) }
{
    push_tally(text, heading, tally)?;
    push_answers(text, tally.answers)?;
    push_others(text, tally)?;
    push_last(text, tally, ends)?;
    Ok(())
}

/// One digit of a number in hexadecimal.
fn hex_digit(digit: u8) -> u8
    requires { digit < 16 }
    ensures { result ≡ hex_digit digit }
{
    if digit < 10 {
        b'0' + digit
    } else {
        b'a' + (digit - 10)
    }
}

/// The last so many digits of a number in hexadecimal.
#[tactic(auto, using(crate::proofs::Digits::hex_more, std::proofs::lemmas::List::append_assoc))]
fn push_hex(text: &mut Vec<u8>, count: u8, n: u64) -> Result<(), NoMemory>
    ensures { OnOk result (text.new.items ≡ text.old.items ++ hex_digits count n) }
{
    if count == 0 {
        return Ok(());
    }
    push_hex(text, count - 1, n / 16)?;
    text.push(hex_digit((n % 16) as u8))?;
    Ok(())
}

/// Of whom something is said.
#[tactic(auto, using(std::proofs::lemmas::List::append_assoc), unfolding(crate::specs::Texts::whom_text))]
fn push_whom(text: &mut Vec<u8>, whom: Whom) -> Result<(), NoMemory>
    ensures { OnOk result (text.new.items ≡ text.old.items ++ whom_text whom) }
{
    push_cpu(text, whom.cpu)?;
    push_behind(text, whom.group)?;
    Ok(())
}

/// A CPU, where there is one.
#[tactic(auto, using(std::proofs::lemmas::List::append_assoc))]
fn push_cpu(text: &mut Vec<u8>, cpu: Option<CpuId>) -> Result<(), NoMemory>
    ensures { OnOk result (text.new.items ≡ text.old.items ++ cpu_text cpu) }
{
    if let Some(known) = cpu {
        push_count(text, b", CPU ", u64::from(known.0))?;
    }
    Ok(())
}

/// A group, where there is one.
#[tactic(auto, using(std::proofs::lemmas::List::append_assoc))]
fn push_behind(text: &mut Vec<u8>, group: Option<u64>) -> Result<(), NoMemory>
    ensures { OnOk result (text.new.items ≡ text.old.items ++ behind_text group) }
{
    if let Some(pointer) = group {
        push_bytes(text, b", group ")?;
        push_hex(text, POINTER_DIGITS, pointer)?;
    }
    Ok(())
}

/// The text of a misfit.
#[tactic(auto, using(std::proofs::lemmas::List::append_assoc), unfolding(crate::specs::Texts::broken_text))]
fn push_broken(text: &mut Vec<u8>, misfit: Misfit) -> Result<(), NoMemory>
    ensures { OnOk result (text.new.items ≡ text.old.items ++ broken_text misfit) }
{
    push_count(text, b"line ", misfit.line)?;
    push_whom(text, misfit.whom)?;
    push_rule(text, misfit.rule)?;
    Ok(())
}

/// A rule behind a colon.
#[tactic(auto, using(std::proofs::lemmas::List::append_assoc))]
fn push_rule(text: &mut Vec<u8>, rule: Rule) -> Result<(), NoMemory>
    ensures { OnOk result
        (text.new.items ≡ text.old.items ++ codes ": " ++ rule_text rule ++ codes "\n") }
{
    push_bytes(text, b": ")?;
    push_bytes(text, rule_text(rule))?;
    push_bytes(text, b"\n")?;
    Ok(())
}

/// The text of a line that is none of a trace.
#[tactic(auto, using(std::proofs::lemmas::List::append_assoc), unfolding(crate::specs::Texts::no_trace_text))]
fn push_no_trace(text: &mut Vec<u8>, line: u64, fault: LineFault) -> Result<(), NoMemory>
    ensures { OnOk result (text.new.items ≡ text.old.items ++ no_trace_text line fault) }
{
    push_count(text, b"line ", line)?;
    push_bytes(text, b": no line of a trace: ")?;
    push_bytes(text, fault_text(fault))?;
    push_bytes(text, b"\n")?;
    Ok(())
}

/// The heading of a trace that fits, or has no event of timer migration.
fn fits_heading(tally: &Tally) -> &'static [u8]
    ensures { result.now ≡ fits_heading tally.now }
{
    if tally.events == 0 {
        b"nothing to judge: lines "
    } else {
        b"fits: lines "
    }
}

/// The status of a trace that fits, or has no event of timer migration.
pub fn fits_status(tally: &Tally) -> u8
    ensures { result ≡ fits_status tally.now }
{
    if tally.events == 0 { NOTHING } else { FITS }
}

/// The text of a verdict. The only error is want of memory.
#[tactic(auto, unfolding(crate::specs::Texts::verdict_text))]
pub fn print_verdict(alloc: Global, verdict: Verdict) -> Result<Vec<u8>, NoMemory>
    ensures { IfOk result (λ text. text.items ≡ verdict_text verdict) }
{
    let mut text = Vec::new(alloc);
    match verdict {
        Verdict::Fits(tally, ends) => {
            push_counts(&mut text, fits_heading(&tally), tally, ends)?
        },
        Verdict::Broken(misfit) => push_broken(&mut text, misfit)?,
        Verdict::NoTrace(line, fault) => push_no_trace(&mut text, line, fault)?,
    }
    Ok(text)
}

/// The texts of misfits.
fn push_misfits(text: &mut Vec<u8>, misfits: &[Misfit]) -> Result<(), NoMemory>
    ensures { OnOk result (text.new.items ≡ text.old.items ++ misfits_text misfits.now) }
{
    for misfit in misfits {
        push_broken(text, *misfit)?;
    }
    Ok(())
}

/// What stands behind so many misfits.
#[tactic(auto, using(std::proofs::lemmas::List::append_assoc), unfolding(crate::specs::Texts::end_text))]
fn push_end(text: &mut Vec<u8>, count: usize, end: Verdict) -> Result<(), NoMemory>
    ensures { OnOk result (text.new.items ≡ text.old.items ++ end_text count end) }
{
    match end {
        Verdict::Fits(tally, ends) => {
            push_count(text, b"misfits: ", count as u64)?;
            push_counts(text, b"\nread: lines ", tally, ends)?;
        },
        Verdict::Broken(misfit) => push_broken(text, misfit)?,
        Verdict::NoTrace(line, fault) => push_no_trace(text, line, fault)?,
    }
    Ok(())
}

/// The text of all that was found: the misfits, each on a line of its own, and behind them their
/// number and all counts. Of a trace without misfits it is that of its verdict. The only error is
/// want of memory.
#[tactic(auto, using(std::proofs::lemmas::List::append_assoc))]
pub fn print_all(alloc: Global, found: &Found) -> Result<Vec<u8>, NoMemory>
    ensures { IfOk result
        (λ text. text.items ≡ all_text found.now.misfits.items found.now.end) }
{
    if found.misfits.is_empty() {
        return print_verdict(alloc, found.end);
    }
    let mut text = Vec::new(alloc);
    push_misfits(&mut text, &found.misfits)?;
    push_end(&mut text, found.misfits.len(), found.end)?;
    Ok(text)
}

/// The status of all that was found.
pub fn all_status(found: &Found) -> u8
    ensures { result ≡ all_status found.now.misfits.items found.now.end }
{
    match found.end {
        Verdict::Fits(tally, _) => if found.misfits.is_empty() {
            fits_status(&tally)
        } else {
            MISFIT
        },
        Verdict::Broken(_) => MISFIT,
        Verdict::NoTrace(_, _) => NO_TRACE,
    }
}
