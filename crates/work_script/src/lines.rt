//! What a line says, and what is wrong with it.

ghost use Rattle.std.specs.Prelude.{◌≡◌, ◌<◌, Some};
ghost use Rattle.std.specs.Option.{option_copied};
ghost use Rattle.text_words.specs.Words.{words_of};
ghost use Rattle.work_script.specs.Faults.{work_count_in};
ghost use Rattle.work_script.specs.Reading.{is_work_in_order, is_work_in_room, work_command_of};
ghost use Rattle.work_script.specs.Reading.{work_heard_behind, work_line_heard};
ghost use Rattle.work_script.specs.Reading.{may_work_line_stand, numbers_of, said_by, slots_of};
ghost use Rattle.work_script.specs.Reading.{work_admitted};
ghost use Rattle.work_script.specs.Steps.{AreWithin, work_words_behind};

use crate::numbers::{NumberList, first_word, read_numbers};
use crate::syntax::WorkOp;
use crate::words::{
    ARG_LIMIT, DELAY_LIMIT, JOB_LIMIT, NumberSlot, WorkCommand, WorkKnown, WorkSaid,
};
use tm_base::{MOST_LINES, MOST_OPS, MOST_TIMERS, SCRIPT_TIME_LIMIT};
use tm_script::Kind;

/// The command that a first word names.
#[tactic(auto, unfolding(crate::specs::Reading::work_command_of))]
fn command_named(word: &[u8]) -> Option<WorkCommand>
    ensures { result ≡ work_command_of word.now }
{
    if word == b"at".as_slice() {
        Some(WorkCommand::At)
    } else if word == b"queue".as_slice() {
        Some(WorkCommand::Queue)
    } else if word == b"cancel".as_slice() {
        Some(WorkCommand::Cancel)
    } else if word == b"end".as_slice() {
        Some(WorkCommand::End)
    } else {
        None
    }
}

/// The place of a number below a bound.
fn below(bound: u64) -> NumberSlot
    ensures { result ≡ record { least = 0; bound = bound } }
{
    NumberSlot { least: 0, bound }
}

/// The numbers behind a command.
fn read_command(count: u16, command: WorkCommand, words: Option<&[u8]>) -> Result<NumberList, Kind>
    ensures { result
        ≡ numbers_of (slots_of count command) (work_words_behind (option_copied words.entry)) }
{
    let works = below(u64::from(count));
    match command {
        WorkCommand::At | WorkCommand::End => read_numbers(&[below(SCRIPT_TIME_LIMIT)], words),
        WorkCommand::Queue => read_numbers(
            &[
                works,
                below(DELAY_LIMIT),
                below(JOB_LIMIT),
                below(ARG_LIMIT),
            ],
            words,
        ),
        WorkCommand::Cancel => read_numbers(&[works], words),
    }
}

/// What a line of this first word and these numbers says.
fn said_by(count: u16, command: WorkCommand, line: u32, numbers: &NumberList) -> WorkSaid
    requires { AreWithin (slots_of count command) numbers.now }
    ensures { result ≡ said_by command line numbers.now }
{
    let first = numbers.get(0);
    match command {
        WorkCommand::At => WorkSaid::Opening(first),
        WorkCommand::Queue => WorkSaid::Operation(WorkOp::Queue {
            line,
            work: first as u16,
            delay: numbers.get(1) as u32,
            job: numbers.get(2) as u8,
            arg: numbers.get(3) as u32,
        }),
        WorkCommand::Cancel => WorkSaid::Operation(WorkOp::Cancel {
            line,
            work: first as u16,
        }),
        WorkCommand::End => WorkSaid::Ending(first),
    }
}

/// Whether a first word may stand inside a moment, or before the first.
fn may_stand(inside: bool, command: WorkCommand) -> bool
    ensures { result ≡ may_work_line_stand inside command }
{
    match command {
        WorkCommand::Queue | WorkCommand::Cancel => inside,
        _ => true,
    }
}

/// Whether what a line says is in order.
fn in_order(known: &WorkKnown, said: &WorkSaid) -> bool
    ensures { result ≡ is_work_in_order known.now said.now }
{
    match said {
        WorkSaid::Opening(at) => match known.last {
            None => true,
            Some(last) => last < *at,
        },
        WorkSaid::Ending(end) => match known.last {
            None => true,
            Some(last) => last <= *end,
        },
        WorkSaid::Operation(_) => true,
    }
}

/// Whether there is room for a line that says this.
fn in_room(known: &WorkKnown, said: &WorkSaid) -> bool
    ensures { result ≡ is_work_in_room known.now said.now }
{
    match said {
        WorkSaid::Operation(_) => known.line <= MOST_LINES && known.ops < MOST_OPS,
        _ => known.line <= MOST_LINES,
    }
}

/// What a line says, where it is in order and there is room.
fn place(known: &WorkKnown, said: WorkSaid) -> Result<WorkSaid, Kind>
    ensures { result ≡ work_admitted known.now said }
{
    if !in_order(known, &said) {
        return Err(Kind::OutOfOrder);
    }
    if !in_room(known, &said) {
        return Err(Kind::TooManyLines);
    }
    Ok(said)
}

/// What the words behind a first word say.
fn read_behind(
    known: &WorkKnown,
    command: WorkCommand,
    words: Option<&[u8]>,
) -> Result<WorkSaid, Kind>
    ensures { result
        ≡ work_heard_behind known.now (Some command)
        (work_words_behind (option_copied words.entry)) }
{
    if !may_stand(known.last.is_some(), command) {
        return Err(Kind::BadLine);
    }
    let numbers = read_command(known.count, command, words)?;
    place(known, said_by(known.count, command, known.line, &numbers))
}

/// What a line says, or the first kind of fault that it has.
#[tactic(auto, unfolding(crate::specs::Reading::work_line_heard))]
pub(crate) fn read_line(known: &WorkKnown, line: &[u8]) -> Result<WorkSaid, Kind>
    ensures { result ≡ work_line_heard known.now (words_of line.now) }
{
    let (first, behind) = first_word(line);
    let Some(command) = command_named(first) else {
        return Err(Kind::BadLine);
    };
    read_behind(known, command, behind)
}

/// The number of works, by its line.
#[tactic(auto, unfolding(crate::specs::Faults::work_count_in))]
pub(crate) fn read_count(line: &[u8]) -> Result<u16, Kind>
    ensures { result ≡ work_count_in (words_of line.now) }
{
    let (first, behind) = first_word(line);
    if first != b"count".as_slice() {
        return Err(Kind::BadLine);
    }
    let slot = NumberSlot {
        least: 1,
        bound: u64::from(MOST_TIMERS) + 1,
    };
    let numbers = read_numbers(&[slot], behind)?;
    Ok(numbers.get(0) as u16)
}
