//! What a line says, and what is wrong with it.

ghost use Rattle.std.specs.Prelude.{◌≡◌, ◌*◌, ◌+◌, ◌<◌, ◌≤◌, Ok, Err, IfOk, MatchResult};
ghost use Rattle.std.specs.Option.{option_copied};
ghost use Rattle.tm_script.specs.Judge.{may_stand};
ghost use Rattle.tm_script.specs.Faults.{heard};
ghost use Rattle.tm_script.specs.Reading.{words_behind, count_in, arm_parts, arm_in, cancel_in};
ghost use Rattle.tm_script.specs.Reading.{field_in, cpus_in, cpu_in, words_in, in_order, in_room};
ghost use Rattle.tm_script.specs.Reading.{line_in};
ghost use Rattle.text_words.specs.Words.{words_of};

use crate::faults::Kind;
use crate::isolated::read_isolated;
use crate::known::{Command, Known, Place, Said};
use crate::syntax::What;
use crate::words::{
    class_named, command_named, first_word, front_word, number, only_word, version_named, within,
};
use tm_base::{
    CPU_SET_SIZE, CpuId, MOST_CPUS_V1, MOST_CPUS_V2, MOST_LINES, MOST_NODE_CPUS, MOST_NODES,
    MOST_OPS, MOST_TIMERS, SCRIPT_TIME_LIMIT, TimerId,
};

/// The words behind `arm`.
#[derive(Clone, Copy)]
struct ArmWords<'a> {
    cpu: &'a [u8],
    timer: &'a [u8],
    class: &'a [u8],
    delay: &'a [u8],
    job: &'a [u8],
    arg: &'a [u8],
}

/// The words behind `arm`.
#[tactic(auto, unfolding(crate::specs::Reading::arm_parts))]
fn arm_words(words: Option<&[u8]>) -> Result<ArmWords<'_>, Kind>
    ensures { MatchResult result
        (λ w. arm_parts (words_behind (option_copied words.entry)) ≡ Ok (record {
          cpu = w.cpu.now;
          timer = w.timer.now;
          class = w.class.now;
          delay = w.delay.now;
          job = w.job.now;
          arg = w.arg.now;
        }))
        (λ kind. arm_parts (words_behind (option_copied words.entry)) ≡ Err kind) }
{
    let (cpu, words) = front_word(words)?;
    let (timer, words) = front_word(words)?;
    let (class, words) = front_word(words)?;
    let (delay, words) = front_word(words)?;
    let (job, words) = front_word(words)?;
    let arg = only_word(words)?;
    Ok(ArmWords {
        cpu,
        timer,
        class,
        delay,
        job,
        arg,
    })
}

/// An arming.
#[tactic(auto, unfolding(crate::specs::Reading::arm_in))]
fn read_arm(known: &Known, words: Option<&[u8]>) -> Result<Said, Kind>
    ensures { result ≡ arm_in known.now (words_behind (option_copied words.entry)) }
{
    let words = arm_words(words)?;
    let class = class_named(known.version, words.class)?;
    let cpu = number(words.cpu)?;
    let timer = number(words.timer)?;
    let delay = number(words.delay)?;
    let job = number(words.job)?;
    let arg = number(words.arg)?;
    if cpu < u64::from(count(known))
        && timer < u64::from(known.timers)
        && delay <= u64::from(u32::MAX)
        && job <= u64::from(u8::MAX)
        && arg <= u64::from(u32::MAX)
    {
        let what = What::Arm {
            timer: TimerId(timer as u16),
            class,
            delay: delay as u32,
            job: job as u8,
            arg: arg as u32,
        };
        Ok(Said::Operation(CpuId(cpu as u16), what))
    } else {
        Err(Kind::OutOfRange)
    }
}

/// A cancelling.
#[tactic(auto, unfolding(crate::specs::Reading::cancel_in))]
fn read_cancel(known: &Known, words: Option<&[u8]>) -> Result<Said, Kind>
    ensures { result ≡ cancel_in known.now (words_behind (option_copied words.entry)) }
{
    let (first, words) = front_word(words)?;
    let second = only_word(words)?;
    let cpu = number(first)?;
    let timer = number(second)?;
    if cpu < u64::from(count(known)) && timer < u64::from(known.timers) {
        let what = What::Cancel {
            timer: TimerId(timer as u16),
        };
        Ok(Said::Operation(CpuId(cpu as u16), what))
    } else {
        Err(Kind::OutOfRange)
    }
}

/// How many CPUs there are.
fn count(known: &Known) -> u16
    ensures { result ≡ count_in known.now }
{
    u16::from(known.nodes) * u16::from(known.cpus)
}

/// One number, from `least` up to below `bound`.
#[tactic(auto, unfolding(crate::specs::Reading::field_in))]
fn read_field(words: Option<&[u8]>, least: u64, bound: u64) -> Result<u64, Kind>
    ensures value { result ≡ field_in least bound (words_behind (option_copied words.entry)) }
    ensures bound { IfOk result (λ n. n < bound) }
{
    let word = only_word(words)?;
    let n = number(word)?;
    within(n, least, bound)
}

/// How many CPUs a node has.
#[tactic(auto, unfolding(crate::specs::Reading::cpus_in))]
fn read_cpus(known: &Known, words: Option<&[u8]>) -> Result<Said, Kind>
    ensures { result ≡ cpus_in known.now (words_behind (option_copied words.entry)) }
{
    let n = read_field(words, 1, u64::from(MOST_NODE_CPUS) + 1)?;
    let most = if known.version == 1 {
        MOST_CPUS_V1
    } else {
        MOST_CPUS_V2
    };
    if u64::from(known.nodes) * n <= u64::from(most) {
        Ok(Said::CpuCount(n as u8))
    } else {
        Err(Kind::OutOfRange)
    }
}

/// An operation that has no other word than its CPU.
#[tactic(auto, unfolding(crate::specs::Reading::cpu_in))]
fn read_cpu(known: &Known, words: Option<&[u8]>, what: What) -> Result<Said, Kind>
    ensures { result ≡ cpu_in known.now (words_behind (option_copied words.entry)) what }
{
    let n = read_field(words, 0, u64::from(count(known)))?;
    Ok(Said::Operation(CpuId(n as u16), what))
}

/// What the words behind a first one say, with no regard to order and room.
#[tactic(auto, unfolding(crate::specs::Reading::words_in))]
fn read_words(known: &Known, command: Command, words: Option<&[u8]>) -> Result<Said, Kind>
    requires { count_in known.now ≤ CPU_SET_SIZE }
    ensures { result ≡ words_in known.now command (words_behind (option_copied words.entry)) }
{
    match command {
        Command::Tmig => Ok(Said::Version(version_named(only_word(words)?)?)),
        Command::Nodes => Ok(Said::NodeCount(
            read_field(words, 1, u64::from(MOST_NODES) + 1)? as u8,
        )),
        Command::Cpus => read_cpus(known, words),
        Command::Timers => Ok(Said::TimerCount(
            read_field(words, 1, u64::from(MOST_TIMERS) + 1)? as u16,
        )),
        Command::Isolated => Ok(Said::IsolatedCpus(read_isolated(count(known), words)?)),
        Command::At => Ok(Said::Opening(read_field(words, 0, SCRIPT_TIME_LIMIT)?)),
        Command::End => Ok(Said::Ending(read_field(words, 0, SCRIPT_TIME_LIMIT)?)),
        Command::Arm => read_arm(known, words),
        Command::Cancel => read_cancel(known, words),
        Command::Idle => read_cpu(known, words, What::Idle),
        Command::Wake => read_cpu(known, words, What::Wake),
        Command::Offline => read_cpu(known, words, What::Offline),
        Command::Online => read_cpu(known, words, What::Online),
    }
}

/// Whether a first word may stand at a place.
fn may_stand(place: Place, inside: bool, command: Command) -> bool
    ensures { result ≡ may_stand place inside command }
{
    match place {
        Place::VersionLine => matches!(command, Command::Tmig),
        Place::NodesLine => matches!(command, Command::Nodes),
        Place::CpusLine => matches!(command, Command::Cpus),
        Place::TimersLine => matches!(command, Command::Timers),
        Place::IsolatedLine => matches!(command, Command::Isolated),
        Place::Body => may_stand_in_body(inside, command),
        Place::Over => false,
    }
}

fn may_stand_in_body(inside: bool, command: Command) -> bool
    ensures { result ≡ may_stand Place.Body inside command }
{
    match command {
        Command::At | Command::End => true,
        Command::Arm
        | Command::Cancel
        | Command::Idle
        | Command::Wake
        | Command::Offline
        | Command::Online => inside,
        _ => false,
    }
}

/// Whether what a line says is in order.
fn in_order(known: &Known, said: &Said) -> bool
    ensures { result ≡ in_order known.now said.now }
{
    match said {
        Said::Opening(at) => match known.last {
            None => true,
            Some(last) => last < *at,
        },
        Said::Ending(end) => match known.last {
            None => true,
            Some(last) => last <= *end,
        },
        Said::Operation(_, _) => !known.closed,
        _ => true,
    }
}

/// Whether there is room for a line that says this.
fn in_room(known: &Known, said: &Said) -> bool
    ensures { result ≡ in_room known.now said.now }
{
    known.line <= MOST_LINES && !(matches!(said, Said::Operation(_, _)) && MOST_OPS <= known.ops)
}

/// What a line says, with no regard to the words in which it is judged.
#[tactic(auto, unfolding(crate::specs::Reading::line_in))]
fn read_placed(known: &Known, line: &[u8]) -> Result<Said, Kind>
    requires { count_in known.now ≤ CPU_SET_SIZE }
    ensures { result ≡ line_in known.now (words_of line.now) }
{
    let (first, behind) = first_word(line);
    let Some(command) = command_named(first) else {
        return Err(Kind::BadLine);
    };
    if !may_stand(known.place, known.last.is_some(), command) {
        return Err(Kind::BadLine);
    }
    let said = read_words(known, command, behind)?;
    if !in_order(known, &said) {
        return Err(Kind::OutOfOrder);
    }
    if !in_room(known, &said) {
        return Err(Kind::TooManyLines);
    }
    Ok(said)
}

/// What a line says, or the first kind of fault that it has.
pub fn read_line(known: &Known, line: &[u8]) -> Result<Said, Kind>
    requires { count_in known.now ≤ CPU_SET_SIZE }
    ensures { result ≡ heard known.now (words_of line.now) }
{
    read_placed(known, line)
}
