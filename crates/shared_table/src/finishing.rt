//! The end of a run: the core that it shows, with nothing left of the table.

ghost use Rattle.std.specs.Prelude.{◌≡◌, ◌+◌, ◌≤◌, [], length, vec_capacity, vec_len};
ghost use Rattle.std.specs.List.Sorted.{IsNonDecreasingBy};
ghost use Rattle.shared_rule.specs.Rule.{seat_of};
ghost use Rattle.shared_table.specs.Endings.{HasAllParts, IsEnd};
ghost use Rattle.shared_table.specs.Begun.{IsBoxRoom};
ghost use Rattle.shared_table.specs.Ended.{AreAllPasses, AreCpusWhole, HasNoBaseBehind, number_of};
ghost use Rattle.shared_table.specs.Joined.{parts_of};
ghost use Rattle.shared_table.specs.Readied.{IsRoomFor};

use crate::apart::find_apart;
use crate::cpu_box::CpuBox;
use crate::ended;
use crate::joining::{join_boxes, join_passes};
use crate::shared::{Rooms, Shared};
use shared_rule::{Core, CoreCpu, CoreParts, Pass, Run, RunName, Seat};
use std::sync::Mutex;
use wheel_core::TimerBase;

impl<N: RunName, B: TimerBase> Shared<N, B> {
    /// Ends a run, of which all passes have come back, and gives the core that its table shows: a
    /// settled one, whose new entries are exactly those that the passes have receipts for. It takes
    /// no memory.
    pub fn finish(self, passes: Vec<Pass>) -> Core<B>
        requires { AreAllPasses N.table (length N.opening.cpus) passes.items }
        ensures end { IsEnd N.opening result (parts_of passes.items) }
        ensures whole { HasNoBaseBehind result }
    {
        let Shared {
            run,
            boxes,
            rooms,
            mut seat,
        } = self;
        let Rooms {
            clock,
            groups,
            holders,
            mut cpus,
            tally,
            boxes: taken,
        } = rooms;
        let taken = in_order(boxes, taken);
        gather(&run, &mut seat, taken, passes, &mut cpus);
        let Run {
            words,
            tree,
            layout,
            name: _,
        } = run;
        let parts = CoreParts {
            tree,
            clock,
            groups,
            cpus,
            holders,
            tally,
        };
        ended(words, seat, layout, parts)
    }
}

/// The boxes out of their locks, in the order of their CPUs. A lock doesn't tell which CPU's box it
/// has, so they are sorted; they stand in order already.
fn in_order<N: RunName, B: TimerBase>(
    boxes: Vec<Mutex<CpuBox<N, B>>>,
    mut taken: Vec<CpuBox<N, B>>,
) -> Vec<CpuBox<N, B>>
    requires room { IsBoxRoom (vec_len boxes) (vec_len taken) (vec_capacity taken) }
    ensures count { vec_len result ≡ vec_len boxes }
    ensures order { IsNonDecreasingBy number_of result.items }
{
    take_out(boxes, &mut taken);
    taken.sort_unstable_by_key(|cpu_box| cpu_box.cpu().0);
    taken
}

/// Takes each box out of its lock, and puts it behind those that are taken.
fn take_out<N: RunName, B: TimerBase>(
    boxes: Vec<Mutex<CpuBox<N, B>>>,
    taken: &mut Vec<CpuBox<N, B>>,
)
    requires room { vec_len taken.old + vec_len boxes ≤ vec_capacity taken.old }
    ensures count { vec_len taken.new ≡ vec_len taken.old + vec_len boxes }
{
    for locked in boxes {
        taken.push(locked.into_inner()).unwrap();
    }
}

/// A seat without parts takes in those of all passes and all boxes, whose CPUs are written: it has
/// all parts of the run then, one box and one pass for each CPU.
fn gather<N: RunName, B: TimerBase>(
    run: &Run<N, B>,
    seat: &mut Seat,
    boxes: Vec<CpuBox<N, B>>,
    passes: Vec<Pass>,
    cpus: &mut Vec<CoreCpu<B>>,
)
    requires table { seat.old.table_id ≡ N.table }
    requires none { seat.old.me ≡ seat_of [] [] }
    requires boxes { length boxes.items ≡ length N.opening.cpus }
    requires order { IsNonDecreasingBy number_of boxes.items }
    requires passes { AreAllPasses N.table (length N.opening.cpus) passes.items }
    requires room { IsRoomFor N.opening cpus.old.items (vec_capacity cpus.old) }
    ensures table { seat.new.table_id ≡ N.table }
    ensures all { HasAllParts N.opening seat.new.me.0 cpus.new.items }
    ensures passes { seat.new.me.0.passes ≡ parts_of passes.items }
    ensures whole { AreCpusWhole cpus.new.items }
{
    join_passes(run, seat, passes);
    join_boxes(run, seat, boxes, cpus);
    find_apart(run, seat);
}
