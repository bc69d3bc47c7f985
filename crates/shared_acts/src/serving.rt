//! A CPU is marked where it may be, and what is due of its global timers goes out.

ghost use Rattle.std.specs.Prelude.{◌≡◌, [], IfOk, MatchResult, length, true};
ghost use Rattle.tree_plan.specs.Paths.{is_placed_in};
ghost use Rattle.walk_rules.specs.Hierarchy.{HasGroup};
ghost use Rattle.shared_timers.specs.shared_rule.Free.{IsFree};
ghost use Rattle.shared_acts.specs.Pieces.{Piece};
ghost use Rattle.shared_acts.specs.Tries.{AtWork, IsRunnable, TakesOrLeaves};

use crate::draining::{hand_all, room_for};
use crate::marking::mark;
use crate::runs::Runs;
use shared_looks::may_take;
use shared_timers::{BoxPart, Pass, Run, RunName};
use tm_base::{Class, Gate, Jiffy, NoMemory, Point};
use wheel_core::{Item, TimerBase};

/// The CPU of the pass marks that of the part, where that may be, and takes all that is due out of
/// its global base. It answers whether it did.
pub fn take_part<N: RunName, B: TimerBase, G: Gate>(
    run: &Run<N, B>,
    part: &mut BoxPart<N, B>,
    pass: &mut Pass,
    now: Jiffy,
    gate: &G,
    items: &mut Vec<Item>,
    runs: &mut Runs,
) -> Result<bool, NoMemory>
    requires at_work { AtWork N.table N.opening [] 1 pass.old }
    requires placed { is_placed_in N.opening.tree pass.old.cpu ≡ true }
    requires grouped { HasGroup N.opening.tree part.old.box.cpu }
    requires free { IsFree part.old }
    requires now { now ≡ N.opening.clock }
    requires none { items.old.items ≡ [] }
    ensures free { IsFree part.new }
    ensures done { MatchResult result
        (TakesOrLeaves N.table N.opening part.old.box.cpu items.new.items pass.old pass.new)
        (λ e. Piece N.table pass.old pass.new [] [] 0) }
    ensures runs { runs.new.runs ≡ runs.old.runs }
    ensures runnable { IfOk result (λ taken. taken ≡ true
        → IsRunnable N.opening items.new.items (length runs.new.runs) runs.new.capacity) }
{
    pass.law();
    part.law();
    room_for(part, pass, Class::Global, items, runs)?;
    if !may_take(run, part, pass, now) {
        return Ok(false);
    }
    mark(run, part, pass);
    gate.at(pass.cpu(), 0, Point::BeforeRemoteRun);
    hand_all(run, part, pass, now, Class::Global, items);
    Ok(true)
}
