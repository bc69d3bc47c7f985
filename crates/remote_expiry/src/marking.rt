//! A CPU carries the next event of one that it has marked upwards.

ghost use Rattle.std.specs.Prelude.{◌≡◌, ℕ, ◌∷◌, [], true};
ghost use Rattle.walk_inactive.specs.shared_rule.declared.parts.Deed.TheVariants as deeds;
ghost use Rattle.walk_inactive.specs.shared_table.Begun.{IsFree};
ghost use Rattle.shared_acts.specs.Tries.{AtWork, HasUnmarked};

use std::sync::Wait;
use tm_base::{Gate, Point};
use walk_inactive::{BoxPart, Pass, RunName, Shared, bring, carry, part_off};
use wheel_core::TimerBase;

/// The CPU of the pass carries the next event of that of the part, which still sleeps, upwards, and
/// the mark is gone.
pub(crate) fn carry_for<N: RunName, B: TimerBase, G: Gate, R: Wait>(
    rt: &R,
    shared: &Shared<N, B>,
    part: &mut BoxPart<N, B>,
    pass: &mut Pass,
    gate: &G,
)
    requires marked { AtWork N.table N.opening (part.old.box.cpu ∷ []) 1 pass.old }
    requires free { IsFree part.old }
    requires online { part.old.box.own.online ≡ true }
    requires idle { part.old.box.own.idle ≡ true }
    ensures free { IsFree part.new }
    ensures pass { (next : ℕ)
        × HasUnmarked N.table (deeds.Carried part.old.box.cpu next) pass.old pass.new }
{
    pass.law();
    part.law();
    gate.at(pass.cpu(), 0, Point::BeforeRemoteCarry);
    bring(shared.run(), part, pass);
    carry(rt, shared, part, gate);
    part_off(shared.run(), part, pass);
}
