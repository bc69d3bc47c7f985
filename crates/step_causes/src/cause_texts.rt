//! Causes in words.

ghost use Rattle.std.specs.Prelude.{◌≡◌, ◌++◌, [], codes, IfOk, OnOk};
ghost use Rattle.std.specs.Fmt.{decimal};
ghost use Rattle.tm_base.specs.Classes.{class_text};
ghost use Rattle.step_causes.specs.CauseTexts.{around, around_two, cause_sentence, fact_text};

use crate::causes::{Cause, CpuFact};
use std::alloc::Global;
use text_words::{push_bytes, push_number};
use tm_base::{Class, NoMemory};

/// What a fact says, behind the name of its CPU.
#[tactic(auto, unfolding(crate::specs::CauseTexts::fact_text))]
fn fact_text(fact: CpuFact) -> &'static [u8]
    ensures { result.now ≡ fact_text fact }
{
    match fact {
        CpuFact::Missing => b" isn't there",
        CpuFact::HasWalk => b" has a walk",
        CpuFact::HasNoWalk => b" has no walk",
        CpuFact::WaitsToHandOn => b" waits to hand on",
        CpuFact::WalksOn => b" has a walk that doesn't wait to hand on",
        CpuFact::Reevaluates => b" re-evaluates",
        CpuFact::Offline => b" is offline",
        CpuFact::Online => b" is online",
        CpuFact::Idle => b" is idle",
        CpuFact::NotIdle => b" isn't idle",
        CpuFact::OnlineIdle => b" is online and idle",
        CpuFact::IdleOutside => b" is idle, outside its interrupt",
        CpuFact::Inside => b" is in its interrupt",
        CpuFact::Outside => b" is outside its interrupt",
        CpuFact::Isolated => b" is isolated",
        CpuFact::LastOnline => b" is placed, and no other placed CPU is online",
        CpuFact::Marks => b" has marked a CPU",
        CpuFact::Unmarked => b" is marked by nobody",
        CpuFact::EventNotDue => b" has no due event in its leaf",
    }
}

/// A number between two pieces.
#[tactic(auto, using(std::proofs::lemmas::List::append_assoc))]
fn push_around(text: &mut Vec<u8>, front: &[u8], n: u64, back: &[u8]) -> Result<(), NoMemory>
    ensures { OnOk result (text.new.items ≡ text.old.items ++ around front.now n back.now) }
{
    push_bytes(text, front)?;
    push_number(text, n)?;
    push_bytes(text, back)?;
    Ok(())
}

/// A number behind a piece.
#[tactic(auto, using(std::proofs::lemmas::List::append_assoc))]
fn push_front(text: &mut Vec<u8>, front: &[u8], n: u64) -> Result<(), NoMemory>
    ensures { OnOk result (text.new.items ≡ text.old.items ++ (front.now ++ decimal n)) }
{
    push_bytes(text, front)?;
    push_number(text, n)?;
    Ok(())
}

/// Two numbers, each behind a piece.
#[tactic(auto, using(std::proofs::lemmas::List::append_assoc))]
fn push_two(text: &mut Vec<u8>, front: &[u8], m: u64, middle: &[u8], n: u64) -> Result<(), NoMemory>
    ensures { OnOk result (text.new.items
        ≡ text.old.items ++ (front.now ++ (decimal m ++ (middle.now ++ decimal n)))) }
{
    push_front(text, front, m)?;
    push_front(text, middle, n)?;
    Ok(())
}

/// Two numbers among three pieces.
#[tactic(auto, using(std::proofs::lemmas::List::append_assoc))]
fn push_around_two(
    text: &mut Vec<u8>,
    front: &[u8],
    m: u64,
    middle: &[u8],
    n: u64,
    back: &[u8],
) -> Result<(), NoMemory>
    ensures { OnOk result (text.new.items
        ≡ text.old.items ++ around_two front.now m middle.now n back.now) }
{
    push_front(text, front, m)?;
    push_around(text, middle, n, back)?;
    Ok(())
}

/// A class behind a piece.
#[tactic(auto, using(std::proofs::lemmas::List::append_assoc))]
fn push_class(text: &mut Vec<u8>, front: &[u8], class: Class) -> Result<(), NoMemory>
    ensures { OnOk result (text.new.items ≡ text.old.items ++ (front.now ++ class_text class)) }
{
    push_bytes(text, front)?;
    push_bytes(text, class.word().as_bytes())?;
    Ok(())
}

/// A number and a class, each behind a piece.
#[tactic(auto, using(std::proofs::lemmas::List::append_assoc))]
fn push_number_class(
    text: &mut Vec<u8>,
    front: &[u8],
    n: u64,
    middle: &[u8],
    class: Class,
) -> Result<(), NoMemory>
    ensures { OnOk result (text.new.items
        ≡ text.old.items ++ around front.now n (middle.now ++ class_text class)) }
{
    push_front(text, front, n)?;
    push_class(text, middle, class)?;
    Ok(())
}

/// Two numbers and a class, each behind a piece.
#[tactic(auto, using(std::proofs::lemmas::List::append_assoc))]
fn push_two_class(
    text: &mut Vec<u8>,
    front: &[u8],
    m: u64,
    middle: &[u8],
    n: u64,
    back: &[u8],
    class: Class,
) -> Result<(), NoMemory>
    ensures { OnOk result (text.new.items ≡ text.old.items
        ++ around_two front.now m middle.now n (back.now ++ class_text class)) }
{
    push_two(text, front, m, middle, n)?;
    push_class(text, back, class)?;
    Ok(())
}

/// Two numbers, each behind a piece, and one more, between two.
#[tactic(auto, using(std::proofs::lemmas::List::append_assoc))]
fn push_three(
    text: &mut Vec<u8>,
    front: &[u8],
    l: u64,
    middle: &[u8],
    m: u64,
    last: &[u8],
    n: u64,
) -> Result<(), NoMemory>
    ensures { OnOk result (text.new.items ≡ text.old.items
        ++ around_two front.now l middle.now m (around last.now n [])) }
{
    push_two(text, front, l, middle, m)?;
    push_front(text, last, n)?;
    Ok(())
}

/// The level and the place of a group, behind a piece, and then a further one.
#[tactic(auto, using(std::proofs::lemmas::List::append_assoc))]
fn push_group(
    text: &mut Vec<u8>,
    front: &[u8],
    group: (u8, u16),
    back: &[u8],
    by: u64,
) -> Result<(), NoMemory>
    ensures { OnOk result (text.new.items ≡ text.old.items
        ++ around front.now group.0 (around_two (codes ":") group.1 back.now by [])) }
{
    push_front(text, front, u64::from(group.0))?;
    push_front(text, b":", u64::from(group.1))?;
    push_front(text, back, by)?;
    Ok(())
}

/// A number behind a piece, and then a group and a further number.
#[tactic(auto, using(std::proofs::lemmas::List::append_assoc))]
fn push_before_group(
    text: &mut Vec<u8>,
    front: &[u8],
    n: u64,
    middle: &[u8],
    group: (u8, u16),
    back: &[u8],
    by: u64,
) -> Result<(), NoMemory>
    ensures { OnOk result (text.new.items ≡ text.old.items ++ around_two front.now n middle.now
        group.0 (around_two (codes ":") group.1 back.now by [])) }
{
    push_front(text, front, n)?;
    push_group(text, middle, group, back, by)?;
    Ok(())
}

/// The sentence of a cause.
#[tactic(auto, unfolding(crate::specs::CauseTexts::cause_sentence))]
fn push_cause(text: &mut Vec<u8>, cause: Cause) -> Result<(), NoMemory>
    ensures { OnOk result (text.new.items ≡ text.old.items ++ cause_sentence cause) }
{
    match cause {
        Cause::Cpu(cpu, fact) => push_around(text, b"CPU ", u64::from(cpu.0), fact_text(fact)),
        Cause::NoSuchTimer { timer } => {
            push_around(text, b"timer ", u64::from(timer.0), b" isn't there")
        }
        Cause::Past { at } => push_around(text, b"jiffy ", at, b" is before the clock"),
        Cause::TooLate { at, limit } => {
            push_around_two(text, b"jiffy ", at, b" isn't below ", limit, b"")
        }
        Cause::Marked { cpu, by } => push_around_two(
            text,
            b"CPU ",
            u64::from(cpu.0),
            b" is marked by CPU ",
            u64::from(by.0),
            b"",
        ),
        Cause::LockTaken {
            cpu,
            level,
            place,
            by,
        } => push_before_group(
            text,
            b"CPU ",
            u64::from(cpu.0),
            b" waits for the lock of ",
            (level, place),
            b", taken by CPU ",
            u64::from(by.0),
        ),
        Cause::ToItself { cpu } => {
            push_around(text, b"CPU ", u64::from(cpu.0), b" would hand on to itself")
        }
        Cause::EventSoon { cpu, at } => push_around_two(
            text,
            b"CPU ",
            u64::from(cpu.0),
            b" has its first event at ",
            at,
            b", at most a jiffy ahead",
        ),
        Cause::Queued { timer, on } => push_around_two(
            text,
            b"timer ",
            u64::from(timer.0),
            b" is queued on CPU ",
            u64::from(on.0),
            b"",
        ),
        Cause::NotQueued { timer, cpu } => push_around_two(
            text,
            b"timer ",
            u64::from(timer.0),
            b" isn't queued on CPU ",
            u64::from(cpu.0),
            b"",
        ),
        Cause::Behind { cpu, class } => push_number_class(
            text,
            b"CPU ",
            u64::from(cpu.0),
            b" has a timer behind the clock of its base of class ",
            class,
        ),
        Cause::BehindThere { from, to } => push_around_two(
            text,
            b"CPU ",
            u64::from(to.0),
            b" has a timer behind the clock of the base of the class that CPU ",
            u64::from(from.0),
            b" moves first",
        ),
        Cause::NoneDue { timer, cpu } => push_around_two(
            text,
            b"no timer of the class of timer ",
            u64::from(timer.0),
            b" is due on CPU ",
            u64::from(cpu.0),
            b"",
        ),
        Cause::NotNext { timer, cpu, first } => push_three(
            text,
            b"timer ",
            u64::from(first),
            b" goes out before timer ",
            u64::from(timer.0),
            b" on CPU ",
            u64::from(cpu.0),
        ),
        Cause::NotFirst { timer, cpu } => push_around_two(
            text,
            b"timer ",
            u64::from(timer.0),
            b" isn't the first to move from CPU ",
            u64::from(cpu.0),
            b"",
        ),
        Cause::Due { cpu, class, timer } => push_two_class(
            text,
            b"timer ",
            u64::from(timer),
            b" is due on CPU ",
            u64::from(cpu.0),
            b", of class ",
            class,
        ),
        Cause::NoRunner { cpu, class, runner } => push_two_class(
            text,
            b"CPU ",
            u64::from(runner.0),
            b" may not run timers of CPU ",
            u64::from(cpu.0),
            b", of class ",
            class,
        ),
        Cause::NoRunnerOf { timer, cpu, runner } => push_three(
            text,
            b"CPU ",
            u64::from(runner.0),
            b" may not run timer ",
            u64::from(timer.0),
            b" of CPU ",
            u64::from(cpu.0),
        ),
    }
}

/// A cause in words: one sentence, in ASCII, without a line feed. Groups are told as LEVEL:PLACE,
/// times in jiffies. `NoMemory` comes only where memory is wanting.
pub fn text_of(alloc: Global, cause: &Cause) -> Result<Vec<u8>, NoMemory>
    ensures { IfOk result (λ text. text.items ≡ cause_sentence cause.now) }
{
    let mut text = Vec::new(alloc);
    push_cause(&mut text, *cause)?;
    Ok(text)
}
