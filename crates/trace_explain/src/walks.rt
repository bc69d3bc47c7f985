//! What the next step of a walk does, in words.

ghost use Rattle.std.specs.Prelude.{◌≡◌, ◌++◌, ◌<◌, length, OnOk, Some};
ghost use Rattle.core_world.specs.World.{cpu_of};
ghost use Rattle.walk_rules.specs.declared.walk.WalkKind.TheVariants as kinds;
ghost use Rattle.trace_explain.specs.Walks.{deed_text, swap_words, walk_end_text, walk_text};
ghost use Rattle.trace_explain.specs.Walks.{wakeup_text};

use crate::pieces::{push_time, push_words};
use crate::places::push_spot;
use step_causes::Core;
use tm_base::{CpuId, NEVER, NoMemory};
use walk_rules::{Stage, Walk, WalkKind};
use wheel_core::TimerBase;

/// An exchange, where the word is still the one that was read, and where it isn't.
fn swap_words(fresh: bool, child_on: bool) -> &'static [u8]
    ensures { result.now ≡ swap_words fresh child_on }
{
    match (fresh, child_on) {
        (true, true) => b" finds its child awake, and takes nothing out of ",
        (true, false) => b" leaves ",
        (false, _) => b" finds that another CPU has changed ",
    }
}

/// The wakeup with which a walk ends.
fn push_wakeup(text: &mut Vec<u8>, walk: Walk) -> Result<(), NoMemory>
    ensures { OnOk result (text.new.items ≡ text.old.items ++ wakeup_text walk) }
{
    push_time(text, b" ends; wakeup:", walk.pin.min(walk.first))
}

/// What a walk that goes offline leaves as it ends.
fn offline_end(walk: Walk) -> &'static [u8]
    ensures { result.now ≡ walk_end_text kinds.Offline walk }
{
    if walk.first == NEVER {
        b" ends"
    } else {
        b" ends; its duty is to be handed on"
    }
}

/// What a walk leaves as it ends.
fn push_end(text: &mut Vec<u8>, walk: Walk) -> Result<(), NoMemory>
    ensures { OnOk result (text.new.items ≡ text.old.items ++ walk_end_text walk.kind walk) }
{
    match walk.kind {
        WalkKind::Activate => push_words(text, b" ends"),
        WalkKind::Deactivate => push_wakeup(text, walk),
        WalkKind::Offline => push_words(text, offline_end(walk)),
        WalkKind::Reeval => push_wakeup(text, walk),
        WalkKind::Remote { by: _ } => push_words(text, b" ends; its CPU is marked no more"),
    }
}

/// What a walk's next step does, in front of the group that it names.
#[tactic(auto, unfolding(crate::specs::Walks::deed_text))]
fn push_deed(text: &mut Vec<u8>, walk: Walk) -> Result<(), NoMemory>
    ensures { OnOk result (text.new.items ≡ text.old.items ++ deed_text walk.stage walk) }
{
    match walk.stage {
        Stage::Own => push_words(text, b" passes over its own event in "),
        Stage::Up => push_words(text, b" joins "),
        Stage::Mark { more: _ } => push_words(text, b" passes over the event of its group in "),
        Stage::Read => push_words(text, b" reads "),
        Stage::Child => push_words(text, b" reads what is below "),
        Stage::Swap => push_words(text, swap_words(walk.fresh, walk.child_on)),
        Stage::LockChild => push_words(text, b" locks "),
        Stage::LockGroup => push_words(text, b" locks "),
        Stage::SeeChild => push_words(text, b" reads, under its lock, "),
        Stage::SeeGroup => push_words(text, b" reads, under its lock, "),
        Stage::Scan { k: _ } => push_words(text, b" reads an event of "),
        Stage::Store => push_words(text, b" tells "),
        Stage::First { k: _ } => push_words(text, b" reads an event of "),
        Stage::FreeGroup => push_words(text, b" unlocks "),
        Stage::FreeChild => push_words(text, b" unlocks "),
        Stage::Finish => push_end(text, walk),
        Stage::Handing => push_words(text, b" waits to hand on"),
    }
}

/// The next step of a CPU's walk.
#[tactic(auto, using(std::proofs::lemmas::List::append_assoc))]
pub(crate) fn push_walk<B: TimerBase>(
    text: &mut Vec<u8>,
    core: &Core<B>,
    cpu: CpuId,
) -> Result<(), NoMemory>
    requires { cpu.0 < length core.now.cpus }
    ensures { OnOk result (text.new.items ≡ text.old.items
        ++ walk_text core.now.tree cpu.0 (cpu_of core.now cpu.0).walk) }
{
    let Some(walk) = core.walk(cpu) else {
        return Ok(());
    };
    push_deed(text, walk)?;
    push_spot(text, core, cpu, walk)
}
