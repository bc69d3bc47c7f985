//! A CPU is activated.

ghost use Rattle.std.specs.Prelude.{◌≡◌, ◌^◌, ◌<◌, suc, true};
ghost use Rattle.core_world.specs.World.{is_active};
ghost use Rattle.shared_cpus.specs.shared_rule.Passes.{walks_of, with_pass};
ghost use Rattle.walk_active.specs.Activated.{IsOwnPass, activated_part, activated_pass};

use crate::climbing::climb;
use shared_cpus::{Pass, RunName, bring, part_off, wake_step};
use shared_table::{CpuBox, Shared};
use std::sync::Wait;
use tm_base::Gate;
use wheel_core::TimerBase;

/// An idle CPU wakes, and joins its group and those above it, as far as they had no migrator before
/// (`tmigr_cpu_activate`). Each event that is told of what thereby is active is marked as ignored.
/// One walk is begun with the CPU's own pass, and ends. The gate is passed each time that the
/// walk comes to join a group, and to mark the event of one, and not again where an exchange is
/// tried again because another thread was first. It takes no memory and refuses nothing.
pub fn activate<N: RunName, B: TimerBase, G: Gate, R: Wait>(
    rt: &R,
    shared: &Shared<N, B>,
    pass: &mut Pass,
    cpu_box: &mut CpuBox<N, B>,
    gate: &G,
)
    requires own { IsOwnPass N.table cpu_box.old.box.cpu pass.old }
    requires left { suc (walks_of pass.old.seated) < 2 ^ 32 }
    requires online { cpu_box.old.box.own.online ≡ true }
    requires idle { cpu_box.old.box.own.idle ≡ true }
    ensures active { is_active cpu_box.new.box.own ≡ true }
    ensures part { cpu_box.new ≡ activated_part cpu_box.old }
    ensures pass { pass.new ≡ with_pass (activated_pass cpu_box.old.box) pass.old }
{
    let run = shared.run();
    let part = &mut cpu_box.part;
    bring(run, part, pass);
    wake_step(run, part);
    climb(rt, run, part, gate);
    part_off(run, part, pass);
}
