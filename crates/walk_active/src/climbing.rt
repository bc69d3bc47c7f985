//! The climb of an activation, step by step, with a gate.

ghost use Rattle.std.specs.Prelude.{◌≡◌, Some};
ghost use Rattle.walk_rules.specs.declared.walk.WalkKind.TheVariants as kinds;
ghost use Rattle.shared_cpus.specs.shared_rule.Whole.{no_looks};
ghost use Rattle.walk_active.specs.Climbing.{Climbs, HasClimbed, arrived, climb_point_at};

use shared_cpus::{BoxPart, Run, RunName};
use shared_walks::make_step;
use std::sync::Wait;
use tm_base::{Gate, Point};
use walk_rules::{Stage, Walk};
use wheel_core::TimerBase;

/// The point that an activation passes as it comes to a stage.
fn point_at(stage: Stage) -> Option<Point>
    ensures { result ≡ climb_point_at stage }
{
    match stage {
        Stage::Up => Some(Point::BeforeUp),
        Stage::Mark { more: _ } => Some(Point::BeforeMark),
        _ => None,
    }
}

/// The activation of a part passes the gate, and makes its next step.
fn climb_step<N: RunName, B: TimerBase, G: Gate, R: Wait>(
    rt: &R,
    run: &Run<N, B>,
    part: &mut BoxPart<N, B>,
    walk: Walk,
    gate: &G,
)
    requires walk { part.old.box.own.walk ≡ Some walk }
    requires climbs { walk.kind ≡ kinds.Activate }
    requires looked { part.old.box.looked ≡ no_looks }
    ensures { HasClimbed part.old part.new }
{
    part.law();
    if let Some(point) = point_at(walk.stage) {
        gate.at(part.cpu(), walk.level, point);
    }
    make_step(rt, run, part);
}

/// The activation of a part climbs to its end.
pub(crate) fn climb<N: RunName, B: TimerBase, G: Gate, R: Wait>(
    rt: &R,
    run: &Run<N, B>,
    part: &mut BoxPart<N, B>,
    gate: &G,
)
    requires climbs { Climbs part.old.box.own.walk }
    requires looked { part.old.box.looked ≡ no_looks }
    ensures { part.new ≡ arrived part.old }
{
    while let Some(walk) = part.walk() {
        climb_step(rt, run, part, walk, gate);
    }
}
