//! What was known of a timer.

ghost use Rattle.std.specs.Prelude.{◌≡◌, ◌++◌, OnOk};
ghost use Rattle.linux_shown.specs.Timers.{bucket_text, from_text, queue_text, removal_text};
ghost use Rattle.linux_shown.specs.Timers.{remover_text, taken_text, timer_fact};
ghost use Rattle.linux_shown.specs.Timers.{timer_facts, timer_wanted};

use crate::pieces::{push_count, push_pointer};
use linux_lines::TimerEvent;
use linux_timers::{Queued, State, Taken, TimerSeen, TimersSeen};
use text_words::push_bytes;
use tm_base::{CpuId, NoMemory};

/// A bucket of a CPU.
#[tactic(auto, using(std::proofs::lemmas::List::append_assoc), unfolding(crate::specs::Timers::bucket_text))]
fn push_bucket(text: &mut Vec<u8>, queued: Queued) -> Result<(), NoMemory>
    ensures { OnOk result (text.new.items ≡ text.old.items ++ bucket_text queued) }
{
    push_count(text, b"in the bucket of jiffy ", queued.bucket)?;
    push_count(text, b" of CPU ", u64::from(queued.home.0))?;
    Ok(())
}

/// Where a timer is.
#[tactic(auto, unfolding(crate::specs::Timers::queue_text))]
fn push_queue(text: &mut Vec<u8>, state: State) -> Result<(), NoMemory>
    ensures { OnOk result (text.new.items ≡ text.old.items ++ queue_text state) }
{
    match state {
        State::Unknown => push_bytes(text, b"whether it is armed isn't known")?,
        State::Gone => push_bytes(text, b"in no bucket")?,
        State::At(queued) => push_bucket(text, queued)?,
    }
    Ok(())
}

/// Where a timer was before its removal.
#[tactic(auto, using(std::proofs::lemmas::List::append_assoc), unfolding(crate::specs::Timers::from_text))]
fn push_from(text: &mut Vec<u8>, state: State) -> Result<(), NoMemory>
    ensures { OnOk result (text.new.items ≡ text.old.items ++ from_text state) }
{
    push_bytes(text, b", before that ")?;
    push_queue(text, state)?;
    push_bytes(text, b"\n")?;
    Ok(())
}

/// Who removed a timer.
#[tactic(auto, unfolding(crate::specs::Timers::remover_text))]
fn push_remover(text: &mut Vec<u8>, cpu: CpuId) -> Result<(), NoMemory>
    ensures { OnOk result (text.new.items ≡ text.old.items ++ remover_text cpu) }
{
    push_count(text, b"; removed by CPU ", u64::from(cpu.0))
}

/// .. on this line.
#[tactic(auto, using(std::proofs::lemmas::List::append_assoc), unfolding(crate::specs::Timers::removal_text))]
fn push_removal(text: &mut Vec<u8>, cpu: CpuId, line: u64, state: State) -> Result<(), NoMemory>
    ensures { OnOk result (text.new.items ≡ text.old.items ++ removal_text cpu line state) }
{
    push_remover(text, cpu)?;
    push_count(text, b" on line ", line)?;
    push_from(text, state)?;
    Ok(())
}

/// A timer's last removal.
#[tactic(auto, unfolding(crate::specs::Timers::taken_text))]
fn push_taken(text: &mut Vec<u8>, taken: Taken) -> Result<(), NoMemory>
    ensures { OnOk result (text.new.items ≡ text.old.items ++ taken_text taken) }
{
    match taken {
        Taken::Untaken => push_bytes(text, b"\n")?,
        Taken::Several => push_bytes(text, b"; removed by several CPUs\n")?,
        Taken::By(cpu, line, state) => push_removal(text, cpu, line, state)?,
    }
    Ok(())
}

/// A timer, by its pointer.
#[tactic(auto, using(std::proofs::lemmas::List::append_assoc), unfolding(crate::specs::Timers::timer_fact))]
fn push_timer(text: &mut Vec<u8>, pointer: u64, timer: TimerSeen) -> Result<(), NoMemory>
    ensures { OnOk result (text.new.items ≡ text.old.items ++ timer_fact pointer timer) }
{
    push_pointer(text, b"  known: timer ", pointer)?;
    push_bytes(text, b": ")?;
    push_queue(text, timer.state)?;
    push_taken(text, timer.taken)?;
    Ok(())
}

/// The timer of which a line speaks.
#[tactic(auto, unfolding(crate::specs::Timers::timer_facts))]
pub fn push_timer_facts(
    text: &mut Vec<u8>,
    seen: &TimersSeen,
    event: &TimerEvent,
) -> Result<(), NoMemory>
    ensures { OnOk result (text.new.items ≡ text.old.items ++ timer_facts seen.now event.now) }
{
    match event {
        TimerEvent::Armed(arming) => push_timer(text, arming.timer, seen.timer(arming.timer))?,
        TimerEvent::Removed(pointer) => push_timer(text, *pointer, seen.timer(*pointer))?,
        TimerEvent::Ran(expiry) => push_timer(text, expiry.timer, seen.timer(expiry.timer))?,
        TimerEvent::Softirq(_) => {}
    }
    Ok(())
}

/// What the rule wanted of a timer's line.
#[tactic(auto, unfolding(crate::specs::Timers::timer_wanted))]
pub fn timer_wanted(event: &TimerEvent) -> &'static [u8]
    ensures { result.now ≡ timer_wanted event.now }
{
    match event {
        TimerEvent::Armed(_) => {
            b"  wanted: the bucket that the wheel gives it, from a clock of its base\n"
        }
        TimerEvent::Ran(_) => {
            b"  wanted: a bucket no later than baseclk, and its own CPU, or a run for that one\n"
        }
        TimerEvent::Removed(_) | TimerEvent::Softirq(_) => b"",
    }
}
