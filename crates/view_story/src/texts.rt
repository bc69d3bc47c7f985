//! What the program writes.

ghost use Rattle.std.specs.Prelude.{◌≡◌, IfOk};
ghost use Rattle.view_story.specs.Texts.{clause_text, misfit_text, story_fault_text};
ghost use Rattle.view_story.specs.Texts.{story_fits_text};
ghost use Rattle.view_story.specs.Texts.{read_fault_text, report_kind_text, report_refused};
ghost use Rattle.view_story.specs.Texts.{script_kind_text, script_refused, too_long_text};
ghost use Rattle.view_story.specs.Texts.{usage_text};
ghost use Rattle.view_story.specs.Texts.{story_verdict_text};

use crate::faults::{Clause, Fault};
use crate::judge::Verdict;
use report_reader::ReportFault;
use std::alloc::Global;
use text_words::{push_bytes, push_number};
use tm_base::NoMemory;
use tm_script::ScriptFault;

/// The name of a clause.
fn clause_text(clause: Clause) -> &'static [u8]
    ensures { result.now ≡ clause_text clause }
{
    match clause {
        Clause::Moments => b": Moments: ",
        Clause::Journals => b": Journals: ",
        Clause::Runs => b": Runs: ",
        Clause::Operations => b": Operations: ",
        Clause::Refusals => b": Refusals: ",
        Clause::Idle => b": Idle: ",
        Clause::Close => b": Close: ",
        Clause::Order => b": Order: ",
    }
}

/// What is wrong, in a sentence.
fn fault_text(fault: Fault) -> &'static [u8]
    ensures { result.now ≡ story_fault_text fault }
{
    match fault {
        Fault::Foreign => b"no run prints such a line\n",
        Fault::BackInTime => b"its time is before that of the line above\n",
        Fault::NoMoment => b"there is no moment at its time\n",
        Fault::NotTheEnd => b"the run ends elsewhere\n",
        Fault::Unended => b"the report ends before the run\n",
        Fault::Skipped => b"an operation of the script has no answer before it\n",
        Fault::NoOperation => b"it answers no operation that comes next for its CPU\n",
        Fault::StillQueued => b"the timer is queued\n",
        Fault::NotQueuedThere => b"the timer isn't queued on that CPU\n",
        Fault::MustRefuse => b"the state of its CPU refuses the operation\n",
        Fault::MayNotRefuse => b"the state of its CPU doesn't refuse the operation so\n",
        Fault::Wheel => b"the timer wheel gives another expiry\n",
        Fault::Turn => b"another timer comes before it\n",
        Fault::NotQueuedSo => b"the timer isn't queued there with that expiry\n",
        Fault::Early => b"the timer isn't due\n",
        Fault::NoInterrupt => b"the CPU that runs it has no interrupt\n",
        Fault::NotForRunner => b"that CPU may not run the timer\n",
        Fault::Reply => b"the job of the timer replies otherwise\n",
        Fault::Missed => b"a timer that was due has not run before it\n",
        Fault::First => b"the first event of its CPU is another one\n",
        Fault::Soon => b"its CPU has an event within a jiffy, and so doesn't go idle\n",
        Fault::Late => b"the first event of its CPU is more than a jiffy ahead\n",
        Fault::Wakeup => b"the wakeup isn't that of its CPU's first events\n",
        Fault::Uncovered => b"an idle CPU has no cover before it\n",
        Fault::NoCover => b"its CPU has no cover here\n",
        Fault::Answer => b"who it names doesn't answer for the first global timer\n",
        Fault::Control => b"it names another CPU than the one that takes over\n",
        Fault::Moved => b"no such timer moves there\n",
        Fault::Unmoved => b"a timer of a CPU that went offline has not moved before it\n",
        Fault::Left => b"no such timer is left\n",
        Fault::Untold => b"a timer that is left isn't told before it\n",
        Fault::Order => b"it stands at another place in its moment\n",
    }
}

/// A line that can't stand where it does.
#[tactic(auto, using(std::proofs::lemmas::List::append_assoc), unfolding(crate::specs::Texts::misfit_text))]
fn misfit_text(alloc: Global, line: u64, fault: Fault) -> Result<Vec<u8>, NoMemory>
    ensures { IfOk result (λ text. text.items ≡ misfit_text line fault) }
{
    let mut text = Vec::new(alloc);
    push_bytes(&mut text, b"line ")?;
    push_number(&mut text, line)?;
    push_bytes(&mut text, clause_text(fault.clause()))?;
    push_bytes(&mut text, fault_text(fault))?;
    Ok(text)
}

/// A report that can be a story.
#[tactic(auto, using(std::proofs::lemmas::List::append_assoc), unfolding(crate::specs::Texts::story_fits_text))]
fn fits_text(alloc: Global, lines: u64, runs: u64) -> Result<Vec<u8>, NoMemory>
    ensures { IfOk result (λ text. text.items ≡ story_fits_text lines runs) }
{
    let mut text = Vec::new(alloc);
    push_bytes(&mut text, b"story: fits, ")?;
    push_number(&mut text, lines)?;
    push_bytes(&mut text, b" lines, ")?;
    push_number(&mut text, runs)?;
    push_bytes(&mut text, b" runs\n")?;
    Ok(text)
}

/// What is said of a report.
pub fn verdict_text(alloc: Global, verdict: Verdict) -> Result<Vec<u8>, NoMemory>
    ensures { IfOk result (λ text. text.items ≡ story_verdict_text verdict) }
{
    match verdict {
        Verdict::Fits { lines, runs } => fits_text(alloc, lines, runs),
        Verdict::Misfit { line, fault } => misfit_text(alloc, line, fault),
    }
}

/// What is wrong with a line of a script.
fn script_kind_text(kind: tm_script::Kind) -> &'static [u8]
    ensures { result.now ≡ script_kind_text kind }
{
    match kind {
        tm_script::Kind::BadLine => b": no such line may stand here\n",
        tm_script::Kind::BadNumber => b": a number is spelled wrong\n",
        tm_script::Kind::OutOfRange => b": a number is out of its range\n",
        tm_script::Kind::OutOfOrder => b": its place or its numbers don't ascend\n",
        tm_script::Kind::NoEnd => b": the end is missing\n",
        tm_script::Kind::TooManyLines => b": there are too many lines\n",
    }
}

/// What is wrong with a line of a report.
fn report_kind_text(kind: report_reader::Kind) -> &'static [u8]
    ensures { result.now ≡ report_kind_text kind }
{
    match kind {
        report_reader::Kind::UnknownName => b": no line has this name\n",
        report_reader::Kind::WrongWords => b": these are not the words of such a line\n",
        report_reader::Kind::NoLineFeed => b": no line feed ends it\n",
    }
}

/// A text that is no script.
#[tactic(auto, using(std::proofs::lemmas::List::append_assoc), unfolding(crate::specs::Texts::script_refused))]
pub fn script_refused(alloc: Global, fault: ScriptFault) -> Result<Vec<u8>, NoMemory>
    ensures { IfOk result (λ text. text.items ≡ script_refused fault) }
{
    let mut text = Vec::new(alloc);
    push_bytes(&mut text, b"script refused line ")?;
    push_number(&mut text, u64::from(fault.line))?;
    push_bytes(&mut text, script_kind_text(fault.kind))?;
    Ok(text)
}

/// A text that is no report.
#[tactic(auto, using(std::proofs::lemmas::List::append_assoc), unfolding(crate::specs::Texts::report_refused))]
pub fn report_refused(alloc: Global, fault: ReportFault) -> Result<Vec<u8>, NoMemory>
    ensures { IfOk result (λ text. text.items ≡ report_refused fault) }
{
    let mut text = Vec::new(alloc);
    push_bytes(&mut text, b"report refused line ")?;
    push_number(&mut text, fault.line as u64)?;
    push_bytes(&mut text, report_kind_text(fault.kind))?;
    Ok(text)
}

/// The text where the words are none that the program knows.
pub fn usage_text() -> &'static [u8]
    ensures { result.now ≡ usage_text }
{
    b"usage: tmigstory [play] < SCRIPT-AND-REPORT\n"
}

/// The text where the source failed.
pub fn read_fault_text() -> &'static [u8]
    ensures { result.now ≡ read_fault_text }
{
    b"tmigstory: the input could not be read\n"
}

/// The text where the source has too many bytes.
pub fn too_long_text() -> &'static [u8]
    ensures { result.now ≡ too_long_text }
{
    b"tmigstory: the input has more than 67108864 bytes\n"
}
