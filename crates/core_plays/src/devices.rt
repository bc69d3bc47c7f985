//! A broadcast device beside a machine: whom it wakes in a moment, and how it is settled after it.

ghost use Rattle.std.specs.Prelude.{◌≡◌, ◌++◌, ◌<◌, ℕ, OnOk, length, true};
ghost use Rattle.std.specs.FinSet as set;
ghost use Rattle.deep_idle.specs.Device.{AreSettled, is_wakeup_due, sleeper_of};
ghost use Rattle.tm_report.specs.Lines.{report_text};
ghost use Rattle.play_rules.specs.Interrupts.{having_interrupt};
ghost use Rattle.play_rules.specs.Parts.{Gains};
ghost use Rattle.play_driver.specs.Conditions.{AreOnline};
ghost use Rattle.core_plays.specs.Deep.{after_fire, after_settle, device_line, sleep_until};
ghost use Rattle.core_plays.specs.Sleepers.{AnswersDue, ByWakeups};

use deep_idle::{Device, Wakeups, settle};
use play_driver::Telling;
use play_rules::PlayMachine;
use tm_base::{CpuId, CpuSet, Jiffy, NEVER, NoMemory};
use tm_report::{Line, Report};

/// What a device is told of a machine's CPUs.
#[derive(Drop)]
struct Asleep<'a, M: PlayMachine> {
    machine: &'a M,
}

impl<M: PlayMachine> Wakeups for Asleep<'_, M> {
    ghost use Rattle.core_plays.specs.Deep.{sleep_until};

    ghost wakeups = { λ s. sleep_until M.rules (M.world s.machine.now) };

    fn wakeup(&self, cpu: CpuId) -> Jiffy {
        sleep_until(self.machine, cpu)
    }
}

/// The wakeup of a CPU that is online and idle, in jiffies; `NEVER` for any other.
fn sleep_until<M: PlayMachine>(machine: &M, cpu: CpuId) -> Jiffy
    ensures { result ≡ sleep_until M.rules (M.world machine.now) cpu.0 }
{
    if cpu.0 < machine.cpus() && machine.is_online(cpu) && machine.is_idle(cpu) {
        return machine.wakeup(cpu);
    }
    NEVER
}

/// The CPUs that the device wakes in a moment: it fires where its time isn't past it.
pub(crate) fn fire_at(device: &mut Device, now: Jiffy) -> CpuSet
    ensures after { device.new ≡ after_fire now device.old }
    ensures due { (c : ℕ) → set.contains result c ≡ is_wakeup_due now (sleeper_of c device.old) }
    ensures len { length device.new.sleepers ≡ length device.old.sleepers }
{
    if device.time() <= now {
        return device.fire(now);
    }
    CpuSet::new()
}

/// Whether a CPU has an interrupt: it is online, and active or answered by the device.
fn is_interrupted<M: PlayMachine>(machine: &M, answered: &CpuSet, cpu: CpuId) -> bool
    requires cpu { cpu.0 < M.rules.cpus (M.world machine.now) }
    requires by_wakeups { ByWakeups M.rules }
    requires answers { AnswersDue M.rules (M.world machine.now) answered.now }
    ensures has { result ≡ M.rules.has_interrupt (M.world machine.now) cpu.0 }
    ensures online { result ≡ true → M.rules.is_online (M.world machine.now) cpu.0 ≡ true }
{
    machine.is_online(cpu) && (!machine.is_idle(cpu) || answered.has(cpu))
}

/// The CPUs that have an interrupt: the online active ones, and those that the device answers.
pub(crate) fn interrupted<M: PlayMachine>(machine: &M, answered: &CpuSet) -> CpuSet
    requires by_wakeups { ByWakeups M.rules }
    requires answers { AnswersDue M.rules (M.world machine.now) answered.now }
    ensures set { result ≡ having_interrupt M.rules (M.world machine.now) }
    ensures online { AreOnline M.rules (M.world machine.now) result }
{
    let mut due = CpuSet::new();
    for cpu in 0..machine.cpus() {
        if is_interrupted(machine, answered, CpuId(cpu)) {
            due.add(CpuId(cpu));
        }
    }
    due
}

/// Settles the device after a moment, and tells its time where that isn't what it was.
pub(crate) fn settle_after<M: PlayMachine>(
    machine: &M,
    device: &mut Device,
    now: Jiffy,
    before: Jiffy,
    telling: &mut Telling<Report>,
) -> Result<(), NoMemory>
    ensures device { device.new ≡ after_settle M.rules (M.world machine.now) device.old }
    ensures settled { AreSettled (sleep_until M.rules (M.world machine.now)) device.new }
    ensures len { length device.new.sleepers ≡ length device.old.sleepers }
    ensures text { OnOk result (telling.new.text
        ≡ telling.old.text ++ report_text (device_line now before device.new.time)) }
    ensures work { telling.new.work ≡ telling.old.work }
    ensures gains { Gains telling.old.text telling.new.text }
{
    settle(device, &Asleep { machine });
    let until = device.time();
    if before == until {
        return Ok(());
    }
    telling.tell(&Line::Device { now, until })
}
