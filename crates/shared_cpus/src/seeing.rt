//! Looks at a CPU with its part, which the pass that is brought remembers
//! (`tmigr_handle_remote_cpu`).

ghost use Rattle.std.specs.Prelude.{◌≡◌, ◌<◌, Some, length};
ghost use Rattle.event_queue.specs.Word.{slot_of};
ghost use Rattle.tree_plan.specs.Paths.{cpu_count_of, group_at_of};
ghost use Rattle.walk_rules.specs.Hierarchy.{HasGroup, group_on, side};
ghost use Rattle.shared_rule.specs.Whole.{own_word};
ghost use Rattle.shared_cpus.specs.Pairs.{HasOne, cpu_place, leaf_place, with_seen};

use shared_rule::{BoxPart, Run, RunName, SeesCpu, SeesLeaf, law_notice};
use shared_words::SharedWord;
use tm_base::{CpuId, GroupId};
use tree_plan::{Tree, law_edges, law_paths};
use wheel_core::TimerBase;

/// Loads the word of the part's CPU, which is that of what the part says, and the pass remembers
/// it.
pub fn see_cpu<N: RunName, B: TimerBase>(run: &Run<N, B>, part: &mut BoxPart<N, B>) -> u64
    requires { HasOne part.old }
    ensures seen { part.new
        ≡ with_seen (cpu_place part.old.box.opening part.old.box.cpu) result part.old }
    ensures word { result ≡ own_word part.old.box.own }
{
    law_notice();
    let place = run.layout.index(SharedWord::Cpu(part.cpu));
    run.words.shared.load::<SeesCpu>(&mut part.seat, place)
}

/// Loads the slot of the part's CPU in its leaf, whose event is the part's, and the pass remembers
/// it.
pub fn see_leaf<N: RunName, B: TimerBase>(run: &Run<N, B>, part: &mut BoxPart<N, B>) -> u64
    requires brought { HasOne part.old }
    requires leaf { HasGroup part.old.box.opening.tree part.old.box.cpu }
    ensures seen { part.new
        ≡ with_seen (leaf_place part.old.box.opening part.old.box.cpu) result part.old }
    ensures event { slot_of result ≡ part.old.box.leaf }
{
    law_notice();
    let place = leaf_place(run, part.cpu);
    run.words.shared.load::<SeesLeaf>(&mut part.seat, place)
}

/// The group of a CPU's leaf, where it has one.
fn leaf_of<N: RunName, B: TimerBase>(run: &Run<N, B>, cpu: CpuId) -> GroupId
    requires cpu { cpu.0 < length N.opening.cpus }
    requires leaf { HasGroup N.opening.tree cpu.0 }
    ensures path { group_at_of N.opening.tree cpu.0 0 ≡ Some result.0 }
    ensures group { result.0 < length N.opening.groups }
{
    law_paths();
    run.tree.cpu_count();
    match run.tree.group_at(cpu, 0) {
        Some(group) => group,
        None => unreachable!(),
    }
}

/// The child number of a CPU in its leaf, 0 where it has none.
fn leaf_side(tree: &Tree, cpu: CpuId) -> u8
    requires { cpu.0 < cpu_count_of tree.now }
    ensures side { result ≡ side tree.now cpu.0 0 }
    ensures a_child { result < 8 }
{
    law_edges();
    tree.cpu_count();
    if tree.is_placed(cpu) {
        tree.cpu_bit(cpu)
    } else {
        0
    }
}

/// Where the slot of a CPU in its leaf stands, where it has one.
fn leaf_place<N: RunName, B: TimerBase>(run: &Run<N, B>, cpu: CpuId) -> usize
    requires cpu { cpu.0 < length N.opening.cpus }
    requires leaf { HasGroup N.opening.tree cpu.0 }
    ensures place { result ≡ leaf_place N.opening cpu.0 }
    ensures group { group_on N.opening.tree cpu.0 0 < length N.opening.groups }
    ensures side { side N.opening.tree cpu.0 0 < 8 }
{
    let group = leaf_of(run, cpu);
    let side = leaf_side(&run.tree, cpu);
    run.layout.index(SharedWord::Slot(group, side))
}
