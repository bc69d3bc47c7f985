//! What an end shows.

ghost use Rattle.std.specs.Prelude.{◌≡◌, ◌++◌, OnOk, codes};
ghost use Rattle.std.specs.Fmt.{decimal};
ghost use Rattle.std.specs.List.{flat_map};
ghost use Rattle.orders_answer.specs.Lines.{answerer_text, end_shown, end_word, group_shown};
ghost use Rattle.orders_answer.specs.Lines.{leader_text, sleeper_shown, thread_shown, timer_shown};

use crate::pieces::{push_after, push_group, push_time, push_wide, push_words};
use crate::shown::{Answerer, EndShown, GroupShown, Leader, SleeperShown, ThreadShown, TimerShown};
use tm_base::{CpuId, NoMemory};

/// Whether a group is awake, and by which child.
#[tactic(auto, using(std::proofs::lemmas::List::append_assoc))]
fn push_leader(text: &mut Vec<u8>, leader: Option<Leader>) -> Result<(), NoMemory>
    ensures { OnOk result (text.new.items ≡ text.old.items ++ leader_text leader) }
{
    match leader {
        None => push_words(text, b" asleep"),
        Some(Leader::Cpu(cpu)) => push_after(text, b" awake by CPU ", u64::from(cpu.0)),
        Some(Leader::Group { level, place }) => {
            push_words(text, b" awake by ")?;
            push_group(text, level, place)
        }
    }
}

/// A group.
#[tactic(auto, using(std::proofs::lemmas::List::append_assoc), unfolding(crate::specs::Lines::group_shown))]
fn push_group_shown(text: &mut Vec<u8>, group: GroupShown) -> Result<(), NoMemory>
    ensures { OnOk result (text.new.items ≡ text.old.items ++ group_shown group) }
{
    push_words(text, b"; ")?;
    push_group(text, group.level, group.place)?;
    push_leader(text, group.leader)
}

/// A CPU that sleeps.
#[tactic(auto, using(std::proofs::lemmas::List::append_assoc), unfolding(crate::specs::Lines::sleeper_shown))]
fn push_sleeper(text: &mut Vec<u8>, sleeper: SleeperShown) -> Result<(), NoMemory>
    ensures { OnOk result (text.new.items ≡ text.old.items ++ sleeper_shown sleeper) }
{
    push_after(text, b"; CPU ", u64::from(sleeper.cpu.0))?;
    push_words(text, b" wakes")?;
    push_time(text, sleeper.wakeup)
}

/// A group was told, and leads to a CPU.
#[tactic(auto, using(std::proofs::lemmas::List::append_assoc))]
fn push_held(text: &mut Vec<u8>, level: u8, place: u16, cpu: CpuId) -> Result<(), NoMemory>
    ensures { OnOk result (text.new.items
        ≡ text.old.items ++ answerer_text (Answerer.Held level place cpu)) }
{
    push_words(text, b"group ")?;
    push_group(text, level, place)?;
    push_after(text, b" was told, and leads to CPU ", u64::from(cpu.0))
}

/// Who answers.
#[tactic(auto, using(std::proofs::lemmas::List::append_assoc))]
fn push_answerer(text: &mut Vec<u8>, by: Answerer) -> Result<(), NoMemory>
    ensures { OnOk result (text.new.items ≡ text.old.items ++ answerer_text by) }
{
    match by {
        Answerer::Held { level, place, cpu } => push_held(text, level, place, cpu),
        Answerer::Woken { cpu, at } => {
            push_after(text, b"CPU ", u64::from(cpu.0))?;
            push_after(text, b" wakes at ", at)
        }
        Answerer::Carried => push_words(text, b"a walk or an interrupt is under way"),
        Answerer::Nobody => push_words(text, b"nobody answers"),
    }
}

/// A timer.
#[tactic(auto, using(std::proofs::lemmas::List::append_assoc), unfolding(crate::specs::Lines::timer_shown))]
fn push_timer(text: &mut Vec<u8>, timer: TimerShown) -> Result<(), NoMemory>
    ensures { OnOk result (text.new.items ≡ text.old.items ++ timer_shown timer) }
{
    push_after(text, b"  timer ", u64::from(timer.timer.0))?;
    push_after(text, b" of CPU ", u64::from(timer.cpu.0))?;
    push_words(text, b": ")?;
    push_answerer(text, timer.by)?;
    push_words(text, b"\n")
}

/// A thread that can't go on.
#[tactic(auto, using(std::proofs::lemmas::List::append_assoc), unfolding(crate::specs::Lines::thread_shown))]
fn push_thread(text: &mut Vec<u8>, thread: &ThreadShown) -> Result<(), NoMemory>
    ensures { OnOk result (text.new.items ≡ text.old.items ++ thread_shown thread.now) }
{
    push_after(text, b"  thread ", thread.number)?;
    push_words(text, b" waits: ")?;
    push_words(text, &thread.cause)?;
    push_words(text, b"\n")
}

/// All groups.
fn push_groups(text: &mut Vec<u8>, groups: &[GroupShown]) -> Result<(), NoMemory>
    ensures { OnOk result (text.new.items ≡ text.old.items ++ flat_map group_shown groups.now) }
{
    for group in groups {
        push_group_shown(text, *group)?;
    }
    Ok(())
}

/// All CPUs that sleep.
fn push_sleepers(text: &mut Vec<u8>, sleepers: &[SleeperShown]) -> Result<(), NoMemory>
    ensures { OnOk result
        (text.new.items ≡ text.old.items ++ flat_map sleeper_shown sleepers.now) }
{
    for sleeper in sleepers {
        push_sleeper(text, *sleeper)?;
    }
    Ok(())
}

/// All timers.
fn push_timers(text: &mut Vec<u8>, timers: &[TimerShown]) -> Result<(), NoMemory>
    ensures { OnOk result (text.new.items ≡ text.old.items ++ flat_map timer_shown timers.now) }
{
    for timer in timers {
        push_timer(text, *timer)?;
    }
    Ok(())
}

/// All threads that can't go on.
fn push_threads(text: &mut Vec<u8>, threads: &[ThreadShown]) -> Result<(), NoMemory>
    ensures { OnOk result
        (text.new.items ≡ text.old.items ++ flat_map thread_shown threads.now) }
{
    for thread in threads {
        push_thread(text, thread)?;
    }
    Ok(())
}

/// The first word of an end.
fn push_end_word(text: &mut Vec<u8>, stuck: &[ThreadShown]) -> Result<(), NoMemory>
    ensures { OnOk result (text.new.items ≡ text.old.items ++ end_word stuck.now) }
{
    match stuck {
        [] => push_words(text, b"end "),
        [_, ..] => push_words(text, b"stuck "),
    }
}

/// The number of an end, and of its orders.
#[tactic(auto, using(std::proofs::lemmas::List::append_assoc))]
fn push_numbers(text: &mut Vec<u8>, number: u64, orders: u128) -> Result<(), NoMemory>
    ensures { OnOk result (text.new.items
        ≡ text.old.items ++ (decimal number ++ (codes " orders " ++ decimal orders))) }
{
    push_after(text, b"", number)?;
    push_words(text, b" orders ")?;
    push_wide(text, orders)?;
    Ok(())
}

/// What groups and CPUs show.
#[tactic(auto, using(std::proofs::lemmas::List::append_assoc))]
fn push_sights(text: &mut Vec<u8>, end: &EndShown) -> Result<(), NoMemory>
    ensures { OnOk result (text.new.items
        ≡ text.old.items ++ (flat_map group_shown end.now.groups.items
        ++ (flat_map sleeper_shown end.now.sleepers.items ++ codes "\n"))) }
{
    push_groups(text, &end.groups)?;
    push_sleepers(text, &end.sleepers)?;
    push_words(text, b"\n")?;
    Ok(())
}

/// What timers and threads show.
#[tactic(auto, using(std::proofs::lemmas::List::append_assoc))]
fn push_waits(text: &mut Vec<u8>, end: &EndShown) -> Result<(), NoMemory>
    ensures { OnOk result (text.new.items
        ≡ text.old.items ++ (flat_map timer_shown end.now.timers.items
        ++ flat_map thread_shown end.now.stuck.items)) }
{
    push_timers(text, &end.timers)?;
    push_threads(text, &end.stuck)?;
    Ok(())
}

/// An end, by its number from 1.
#[tactic(auto, using(std::proofs::lemmas::List::append_assoc), unfolding(crate::specs::Lines::end_shown))]
pub(crate) fn push_end(text: &mut Vec<u8>, number: u64, end: &EndShown) -> Result<(), NoMemory>
    ensures { OnOk result (text.new.items ≡ text.old.items ++ end_shown number end.now) }
{
    push_end_word(text, &end.stuck)?;
    push_numbers(text, number, end.orders)?;
    push_sights(text, end)?;
    push_waits(text, end)?;
    Ok(())
}
