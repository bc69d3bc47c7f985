//! What a line says.

ghost use Rattle.std.specs.Prelude.{◌≡◌, Some};
ghost use Rattle.std.specs.Option.{option_copied};
ghost use Rattle.text_words.specs.Words.{words_of};
ghost use Rattle.trace_text.specs.Lines.{field_slots_of};
ghost use Rattle.trace_text.specs.Reading.{arg_by, class_in_field, command_for, cpu_by, fields_of};
ghost use Rattle.trace_text.specs.Reading.{job_by, later_command, line_heard, line_in_field};
ghost use Rattle.trace_text.specs.Reading.{said_in_trace};
ghost use Rattle.trace_text.specs.Reading.{time_by, timer_by, trace_said_by};
ghost use Rattle.trace_text.specs.Steps.{trace_words_behind};

use crate::fields::{FieldList, first_word, read_fields};
use crate::traces::TraceLine;
use crate::words::{Command, Field, Limits, Slot};
use core_world::Step;
use tm_base::{Class, CpuId, Jiffy, MOST_LINES, TimerId};
use tm_script::Kind;

/// The command that a first word names.
#[tactic(auto, unfolding(crate::specs::Reading::command_for, crate::specs::Reading::later_command))]
fn command_named(word: &[u8]) -> Option<Command>
    ensures { result ≡ command_for word.now }
{
    if word == b"clock".as_slice() {
        Some(Command::Clock)
    } else if word == b"enter".as_slice() {
        Some(Command::Enter)
    } else if word == b"leave".as_slice() {
        Some(Command::Leave)
    } else if word == b"arm".as_slice() {
        Some(Command::Arm)
    } else if word == b"cancel".as_slice() {
        Some(Command::Cancel)
    } else if word == b"hand".as_slice() {
        Some(Command::Hand)
    } else if word == b"ticked".as_slice() {
        Some(Command::Ticked)
    } else if word == b"move".as_slice() {
        Some(Command::Move)
    } else if word == b"idle".as_slice() {
        Some(Command::Idle)
    } else if word == b"wake".as_slice() {
        Some(Command::Wake)
    } else {
        later_command(word)
    }
}

/// Of the later first words the one that a word is.
#[tactic(auto, unfolding(crate::specs::Reading::later_command))]
fn later_command(word: &[u8]) -> Option<Command>
    ensures { result ≡ later_command word.now }
{
    if word == b"offline".as_slice() {
        Some(Command::Offline)
    } else if word == b"online".as_slice() {
        Some(Command::Online)
    } else if word == b"reeval".as_slice() {
        Some(Command::Reeval)
    } else if word == b"take".as_slice() {
        Some(Command::Take)
    } else if word == b"carry".as_slice() {
        Some(Command::Carry)
    } else if word == b"release".as_slice() {
        Some(Command::Release)
    } else if word == b"walk".as_slice() {
        Some(Command::Walk)
    } else if word == b"handon".as_slice() {
        Some(Command::HandOn)
    } else if word == b"why".as_slice() {
        Some(Command::Why)
    } else if word == b"end".as_slice() {
        Some(Command::End)
    } else {
        None
    }
}

fn cpu_by(field: Field) -> CpuId
    ensures { result ≡ cpu_by field }
{
    match field {
        Field::Cpu(cpu) => cpu,
        _ => CpuId(0),
    }
}

fn timer_by(field: Field) -> TimerId
    ensures { result ≡ timer_by field }
{
    match field {
        Field::Timer(timer) => timer,
        _ => TimerId(0),
    }
}

fn class_named(field: Field) -> Class
    ensures { result ≡ class_in_field field }
{
    match field {
        Field::Class(class) => class,
        _ => Class::Global,
    }
}

fn time_by(field: Field) -> Jiffy
    ensures { result ≡ time_by field }
{
    match field {
        Field::Time(at) => at,
        _ => 0,
    }
}

fn job_by(field: Field) -> u8
    ensures { result ≡ job_by field }
{
    match field {
        Field::Job(job) => job,
        _ => 0,
    }
}

fn arg_by(field: Field) -> u32
    ensures { result ≡ arg_by field }
{
    match field {
        Field::Arg(arg) => arg,
        _ => 0,
    }
}

fn line_by(field: Field) -> u32
    ensures { result ≡ line_in_field field }
{
    match field {
        Field::Line(line) => line,
        _ => 0,
    }
}

/// The arming that these fields say.
fn arm_by(fields: &FieldList) -> Step
    ensures { Some (TraceLine.Do result) ≡ trace_said_by Command.Arm fields.now }
{
    Step::Arm {
        cpu: cpu_by(fields.get(0)),
        timer: timer_by(fields.get(1)),
        class: class_named(fields.get(2)),
        expires: time_by(fields.get(3)),
        job: job_by(fields.get(4)),
        arg: arg_by(fields.get(5)),
        line: line_by(fields.get(6)),
    }
}

/// The cancelling that these fields say.
fn cancel_by(fields: &FieldList) -> Step
    ensures { Some (TraceLine.Do result) ≡ trace_said_by Command.Cancel fields.now }
{
    Step::Cancel {
        cpu: cpu_by(fields.get(0)),
        timer: timer_by(fields.get(1)),
        by: cpu_by(fields.get(2)),
        line: line_by(fields.get(3)),
    }
}

/// What a line of this first word and these fields says; None is the end of the trace.
fn said_by(command: Command, fields: &FieldList) -> Option<TraceLine>
    ensures { result ≡ trace_said_by command fields.now }
{
    let first = fields.get(0);
    let second = fields.get(1);
    let third = fields.get(2);
    let cpu = cpu_by(first);
    Some(TraceLine::Do(match command {
        Command::Clock => Step::Clock {
            now: time_by(first),
        },
        Command::Enter => Step::Enter { cpu },
        Command::Leave => Step::Leave { cpu },
        Command::Arm => arm_by(fields),
        Command::Cancel => cancel_by(fields),
        Command::Hand => Step::Hand {
            cpu,
            timer: timer_by(second),
            runner: cpu_by(third),
        },
        Command::Ticked => Step::Ticked {
            cpu,
            class: class_named(second),
            runner: cpu_by(third),
        },
        Command::Move => Step::Move {
            from: cpu,
            to: cpu_by(second),
            timer: timer_by(third),
        },
        Command::Idle => Step::Idle { cpu },
        Command::Wake => Step::Wake { cpu },
        Command::Offline => Step::Offline { cpu },
        Command::Online => Step::Online { cpu },
        Command::Reeval => Step::Reeval { cpu },
        Command::Take => Step::Take {
            cpu,
            by: cpu_by(second),
        },
        Command::Carry => Step::Carry { cpu },
        Command::Release => Step::Release { cpu },
        Command::Walk => Step::Walk { cpu },
        Command::HandOn => Step::HandOn {
            cpu,
            to: cpu_by(second),
        },
        Command::Why => {
            return Some(TraceLine::Why {
                cpu,
                timer: timer_by(second),
            });
        }
        Command::End => return None,
    }))
}

/// What words say behind a command.
#[tactic(auto, unfolding(crate::specs::Reading::said_in_trace))]
fn read_behind(
    limits: Limits,
    command: Command,
    words: Option<&[u8]>,
) -> Result<Option<TraceLine>, Kind>
    ensures { result
        ≡ said_in_trace limits (Some command) (trace_words_behind (option_copied words.entry)) }
{
    let fields = read_command(limits, command, words)?;
    Ok(said_by(command, &fields))
}

/// The fields behind a command.
fn read_command(limits: Limits, command: Command, words: Option<&[u8]>) -> Result<FieldList, Kind>
    ensures { result
        ≡ fields_of limits (field_slots_of command)
        (trace_words_behind (option_copied words.entry)) }
{
    match command {
        Command::Clock => read_fields(limits, &[Slot::Time], words),
        Command::Arm => read_fields(
            limits,
            &[
                Slot::Cpu,
                Slot::Timer,
                Slot::Class,
                Slot::Time,
                Slot::Job,
                Slot::Arg,
                Slot::Line,
            ],
            words,
        ),
        Command::Cancel => read_fields(
            limits,
            &[Slot::Cpu, Slot::Timer, Slot::Cpu, Slot::Line],
            words,
        ),
        Command::Hand => read_fields(limits, &[Slot::Cpu, Slot::Timer, Slot::Cpu], words),
        Command::Ticked => read_fields(limits, &[Slot::Cpu, Slot::Class, Slot::Cpu], words),
        Command::Move => read_fields(limits, &[Slot::Cpu, Slot::Cpu, Slot::Timer], words),
        Command::Take | Command::HandOn => read_fields(limits, &[Slot::Cpu, Slot::Cpu], words),
        Command::Why => read_fields(limits, &[Slot::Cpu, Slot::Timer], words),
        Command::End => read_fields(limits, &[], words),
        _ => read_fields(limits, &[Slot::Cpu], words),
    }
}

/// What line number `line` says, or the first kind of fault that it has; None is the end.
#[tactic(auto, unfolding(crate::specs::Reading::line_heard, crate::specs::Reading::said_in_trace))]
pub(crate) fn read_line(limits: Limits, line: u32, words: &[u8]) -> Result<Option<TraceLine>, Kind>
    ensures { result ≡ line_heard limits line (words_of words.now) }
{
    let (first, behind) = first_word(words);
    let Some(command) = command_named(first) else {
        return Err(Kind::BadLine);
    };
    let said = read_behind(limits, command, behind)?;
    if line > MOST_LINES {
        return Err(Kind::TooManyLines);
    }
    Ok(said)
}
