//! Groups by their names, and where the next step of a walk is.

ghost use Rattle.std.specs.Prelude.{◌≡◌, ◌++◌, ◌<◌, length, OnOk, Some};
ghost use Rattle.core_world.specs.World.{cpu_of};
ghost use Rattle.trace_explain.specs.Walks.{group_name, level_named, spot_text};

use crate::pieces::{push_after, push_words};
use step_causes::{Core, law_place};
use text_words::push_number;
use tm_base::{CpuId, GroupId, NoMemory};
use walk_rules::{Stage, Walk};
use wheel_core::TimerBase;

/// The name of a group: its level and its place there.
#[tactic(auto, using(std::proofs::lemmas::List::append_assoc))]
pub(crate) fn push_group<B: TimerBase>(
    text: &mut Vec<u8>,
    core: &Core<B>,
    group: GroupId,
) -> Result<(), NoMemory>
    requires { group.0 < length core.now.groups }
    ensures { OnOk result (text.new.items
        ≡ text.old.items ++ group_name core.now.tree group.0) }
{
    let tree = core.tree();
    push_number(text, u64::from(tree.level(group)))?;
    push_words(text, b":")?;
    push_number(text, u64::from(tree.place(group)))?;
    Ok(())
}

/// The level of the group that the next step of a walk names.
fn level_named(walk: Walk) -> Option<u8>
    requires { walk.level < 3 }
    ensures { result ≡ level_named walk.level walk.stage }
{
    let level = walk.level;
    match walk.stage {
        Stage::Own => Some(0),
        Stage::Up => Some(level),
        Stage::Mark { more: _ } => Some(level + 1),
        Stage::Read => Some(level),
        Stage::Child => Some(level),
        Stage::Swap => Some(level),
        Stage::LockChild => Some(level.saturating_sub(1)),
        Stage::LockGroup => Some(level),
        Stage::SeeChild => Some(level.saturating_sub(1)),
        Stage::SeeGroup => Some(level),
        Stage::Scan { k: _ } => Some(level.saturating_sub(1)),
        Stage::Store => Some(level),
        Stage::First { k: _ } => Some(level),
        Stage::FreeGroup => Some(level),
        Stage::FreeChild => Some(level.saturating_sub(1)),
        Stage::Finish => None,
        Stage::Handing => None,
    }
}

/// The group that the next step of a CPU's walk names, if it names one.
pub(crate) fn push_spot<B: TimerBase>(
    text: &mut Vec<u8>,
    core: &Core<B>,
    cpu: CpuId,
    walk: Walk,
) -> Result<(), NoMemory>
    requires cpu { cpu.0 < length core.now.cpus }
    requires walk { (cpu_of core.now cpu.0).walk ≡ Some walk }
    ensures { OnOk result (text.new.items ≡ text.old.items
        ++ spot_text core.now.tree cpu.0 (level_named walk.level walk.stage)) }
{
    core.kept();
    law_place();
    let Some(level) = level_named(walk) else {
        return Ok(());
    };
    let group = core.group_on(cpu, level);
    push_group(text, core, group)
}
