//! Where a walk that tells passes a gate.

ghost use Rattle.std.specs.Prelude.{◌≡◌};
ghost use Rattle.walk_inactive.specs.Gates.{walk_point_at};

use tm_base::{CpuId, Gate, Point};
use walk_rules::{Stage, Walk};

/// The place that a walk at this stage of a level comes to, if it is one.
fn point_at(level: u8, stage: Stage) -> Option<Point>
    ensures { result ≡ walk_point_at level stage }
{
    match stage {
        Stage::Child => Some(Point::BeforeChildRead),
        Stage::Swap => Some(Point::BeforeSwap),
        Stage::LockChild => Some(Point::BeforeLock),
        Stage::LockGroup if level == 0 => Some(Point::BeforeLock),
        Stage::Store => Some(Point::BeforeStore),
        _ => None,
    }
}

/// The walk of a CPU passes the gate, where its stage is a place of one.
pub(crate) fn pass_gate<G: Gate>(gate: &G, cpu: CpuId, walk: Walk) {
    if let Some(point) = point_at(walk.level, walk.stage) {
        gate.at(cpu, walk.level, point);
    }
}
