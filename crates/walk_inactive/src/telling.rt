//! A walk that tells, from where it begins to where it finishes (`tmigr_inactive_up`,
//! `tmigr_new_timer_up`).

ghost use Rattle.std.specs.Prelude.{◌≡◌};
ghost use Rattle.walk_rules.specs.declared.walk.Walk.{Walk};
ghost use Rattle.shared_walks.specs.Walks.{is_under_way};
ghost use Rattle.walk_inactive.specs.Ways.{HasAdvanced, HasComeToEnd, HasSetOut};

use crate::points::pass_gate;
use shared_cpus::{BoxPart, Run, RunName};
use shared_walks::make_step;
use std::sync::Wait;
use tm_base::Gate;
use walk_rules::Stage;
use wheel_core::TimerBase;

/// Whether a walk at this stage has a step on the groups still to make.
fn is_under_way(stage: Stage) -> bool
    ensures { result ≡ is_under_way stage }
{
    !matches!(stage, Stage::Finish | Stage::Handing)
}

/// Does nothing: its contract says of which run a part is.
fn of_run<N: RunName, B: TimerBase>(part: &BoxPart<N, B>)
    ensures { part.now.box.opening ≡ N.opening }
{
    let _ = &part.cpu;
}

/// The walk of a part passes the gate and makes its next step; false where it has come to its end.
fn advance<N: RunName, B: TimerBase, G: Gate, R: Wait>(
    rt: &R,
    run: &Run<N, B>,
    part: &mut BoxPart<N, B>,
    gate: &G,
) -> bool
    ensures { HasAdvanced result part.old part.new }
{
    part.law();
    of_run(part);
    match part.walk() {
        Some(walk) if is_under_way(walk.stage) => {
            pass_gate(gate, part.cpu(), walk);
            make_step(rt, run, part);
            true
        },
        _ => false,
    }
}

/// The walk of a part goes to its end. It is tried again only where another walk has a lock.
pub(crate) fn tell<N: RunName, B: TimerBase, G: Gate, R: Wait>(
    rt: &R,
    run: &Run<N, B>,
    part: &mut BoxPart<N, B>,
    gate: &G,
)
    requires { (k : Walk) × HasSetOut part.old k }
    ensures { (k : Walk) → HasSetOut part.old k → HasComeToEnd part.old part.new k }
{
    for _ in rt.forever() {
        if !advance(rt, run, part, gate) {
            return;
        }
    }
    unreachable!()
}
