//! A core that plays while it is watched.

ghost use Rattle.std.specs.Prelude.{◌≡◌, ◌<◌, ◌-◌, OnErr, OnOk, false, length, nat_le};
ghost use Rattle.std.specs.Option.{option_map_or};
ghost use Rattle.core_machine.specs.step_play.Rules.StepRules.{items_due, step_rules};
ghost use Rattle.view_counts.specs.Counts.{at_cpu, lived};
ghost use Rattle.view_stat.specs.Watched.{all_lived, also_for, behind_deferrable, cause_of};
ghost use Rattle.view_stat.specs.Watched.{groups_led, handed, hands_out, is_pinned, led, listed};
ghost use Rattle.view_stat.specs.Watched.{ran_some};
ghost use Rattle.view_stat.specs.Stats.{is_due};

use crate::foreseeing::foresee_all;
use crate::interrupt::Interrupt;
use core_machine::Player;
use core_machine::readings::looks_after;
use play_rules::{Answerer, Arming, Cancelling, Mover, PlayMachine, Queued};
use tm_base::{Class, CpuId, CpuSet, Jiffy, NoMemory, TimerId};
use view_counts::{
    Cause, CpuCounts, Reason, Wakeup, last_was_for, lived_at, note_wakeup, ran_for_at, run_by_at,
    slept_at,
};
use wheel_base::WheelBase;
use wheel_core::{Item, TimerBase};

/// A core in play, with what was counted of its CPUs, what stood behind their wakeups before the
/// moment, and all wakeups so far.
#[derive(Drop)]
pub struct Watching {
    pub player: Player<WheelBase>,
    pub cpus: Vec<CpuCounts>,
    pub interrupt: Interrupt,
    pub reasons: Vec<Reason>,
    pub wakeups: Vec<Wakeup>,
}

/// Whether the first timer of a class on a CPU is due.
pub(crate) fn is_due(player: &Player<WheelBase>, cpu: CpuId, class: Class) -> bool
    requires { cpu.0 < length player.now.cpus }
    ensures { result ≡ is_due player.now cpu.0 class }
{
    let core = player.core();
    match core.bases(cpu).base(class).first() {
        Some(first) => first <= core.now(),
        None => false,
    }
}

/// Whether a drain hands anything out.
fn hands_out(player: &Player<WheelBase>, home: CpuId, class: Class) -> bool
    requires { home.0 < length player.now.cpus }
    ensures { result ≡ hands_out (items_due player.now home.0 class) }
{
    is_due(player, home, class)
}

/// Of how many groups a CPU is migrator, from its leaf upwards.
fn led(player: &Player<WheelBase>, cpu: CpuId) -> u8
    requires { cpu.0 < length player.now.cpus }
    ensures { result ≡ led step_rules (step_rules.levels player.now) cpu.0 0 player.now }
{
    let levels = player.levels();
    for level in 0..levels {
        if !looks_after(player.core(), cpu, level) {
            return level;
        }
    }
    levels
}

/// Of how many groups an awake CPU is migrator.
fn groups_led(player: &Player<WheelBase>, cpu: CpuId) -> u8
    requires { cpu.0 < length player.now.cpus }
    ensures { result ≡ groups_led step_rules player.now cpu.0 }
{
    if player.is_online(cpu) && !player.is_idle(cpu) {
        led(player, cpu)
    } else {
        0
    }
}

/// So many jiffies go by for a CPU.
fn live(player: &Player<WheelBase>, cpus: &mut Vec<CpuCounts>, cpu: CpuId, jiffies: u64)
    requires { cpu.0 < length player.now.cpus }
    ensures { cpus.new.items ≡
        at_cpu cpu.0 (lived (step_rules.is_online player.now cpu.0)
        (step_rules.is_idle player.now cpu.0) jiffies (groups_led step_rules player.now cpu.0))
        cpus.old.items }
{
    let groups = groups_led(player, cpu);
    let online = player.is_online(cpu);
    let idle = player.is_idle(cpu);
    lived_at(cpus, cpu, online, idle, jiffies, u64::from(groups));
}

/// So many jiffies go by for all CPUs.
fn live_all(player: &Player<WheelBase>, cpus: &mut Vec<CpuCounts>, jiffies: u64)
    ensures { cpus.new.items ≡
        all_lived step_rules (step_rules.cpus player.now) 0 player.now jiffies cpus.old.items }
{
    for cpu in 0..player.cpus() {
        live(player, cpus, CpuId(cpu), jiffies);
    }
}

/// What a hand-out is for: timers of other CPUs, or the CPU's own of a class.
fn cause_of(of_others: bool, class: Class) -> Cause
    ensures { result ≡ cause_of of_others class }
{
    if of_others {
        return Cause::Others;
    }
    match class {
        Class::Pinned => Cause::Pinned,
        Class::Global => Cause::Global,
        Class::Deferrable => Cause::Deferrable,
    }
}

/// What counts behind deferrable timers, which wake nobody: those of other CPUs.
fn behind_deferrable(more: Cause) -> Cause
    ensures { result ≡ behind_deferrable more }
{
    match more {
        Cause::Others => Cause::Others,
        _ => Cause::Deferrable,
    }
}

/// What an interrupt is for in which a further hand-out comes.
fn also_for(more: Cause, cause: Cause) -> Cause
    ensures { result ≡ also_for more cause }
{
    match cause {
        Cause::Nothing => more,
        Cause::Deferrable => behind_deferrable(more),
        Cause::Pinned => Cause::Pinned,
        Cause::Global => Cause::Global,
        Cause::Others => Cause::Others,
    }
}

/// What an interrupt is for that has handed out some timers, or none.
fn handed(some: bool, of_others: bool, class: Class, interrupt: Interrupt) -> Interrupt
    ensures { result ≡ handed some of_others class interrupt }
{
    if !some {
        return interrupt;
    }
    Interrupt {
        cause: also_for(cause_of(of_others, class), interrupt.cause),
        ..interrupt
    }
}

/// An interrupt drains its CPU's pinned timers first.
fn is_pinned(class: Class) -> bool
    ensures { result ≡ is_pinned class }
{
    match class {
        Class::Pinned => true,
        Class::Global => false,
        Class::Deferrable => false,
    }
}

/// A wakeup is listed as an interrupt that found its CPU idle drains its first timers. Want of
/// memory leaves the list as before.
fn list_wakeup(
    wakeups: &mut Vec<Wakeup>,
    idle: bool,
    class: Class,
    at: Jiffy,
    cpu: CpuId,
    reasons: &[Reason],
) -> Result<(), NoMemory>
    ensures ok { OnOk result
        (wakeups.new.items ≡ listed idle class at cpu.0 reasons.now wakeups.old.items) }
    ensures err { OnErr result (wakeups.new.items ≡ wakeups.old.items) }
{
    if idle && is_pinned(class) {
        note_wakeup(wakeups, at, cpu, reasons)
    } else {
        Ok(())
    }
}

/// A CPU ran so many timers of another.
fn ran_some(cpus: &mut Vec<CpuCounts>, cpu: CpuId, other: CpuId, count: usize)
    ensures { cpus.new.items ≡ ran_some cpu.0 other.0 count cpus.old.items }
{
    ran_for_at(cpus, cpu, count as u64);
    run_by_at(cpus, other, count as u64);
}

impl PlayMachine for Watching {
    ghost use Rattle.core_world.specs.World as core;
    ghost use Rattle.core_machine.specs.step_play.Rules.StepRules.{step_rules};
    ghost use Rattle.core_machine.specs.step_play.Rules.Seen.{InPlay};
    ghost use Rattle.view_stat.specs.Watched.{Watched, watched_rules};
    ghost use Rattle.view_stat.specs.Stats.{is_due};

    ghost World = { Watched core.World };

    ghost rules = { watched_rules step_rules is_due };

    ghost world = { λ w. record {
      world = w.player;
      cpus = w.cpus.items;
      interrupt = w.interrupt;
      reasons = w.reasons.items;
      wakeups = w.wakeups.items;
    } };

    ghost Fit = { λ ph s. InPlay ph s.world };

    fn clock(&self) -> Jiffy {
        self.player.clock()
    }

    fn timers(&self) -> u16 {
        self.player.timers()
    }

    fn cpus(&self) -> u16 {
        self.player.cpus()
    }

    fn levels(&self) -> u8 {
        self.player.levels()
    }

    fn is_online(&self, cpu: CpuId) -> bool {
        self.player.is_online(cpu)
    }

    fn is_idle(&self, cpu: CpuId) -> bool {
        self.player.is_idle(cpu)
    }

    fn is_placed(&self, cpu: CpuId) -> bool {
        self.player.is_placed(cpu)
    }

    fn wakeup(&self, cpu: CpuId) -> Jiffy {
        self.player.wakeup(cpu)
    }

    fn holder(&self, timer: TimerId) -> Option<CpuId> {
        self.player.holder(timer)
    }

    fn queued(&self, timer: TimerId) -> Option<Queued> {
        self.player.queued(timer)
    }

    fn set_clock(&mut self, now: Jiffy) {
        live_all(&self.player, &mut self.cpus, now - self.player.clock());
        self.player.set_clock(now);
        foresee_all(&self.player, &mut self.reasons);
    }

    fn has_interrupt(&self, cpu: CpuId) -> bool {
        self.player.has_interrupt(cpu)
    }

    fn next_interrupt(&self) -> Jiffy {
        self.player.next_interrupt()
    }

    fn drain(&mut self, home: CpuId, class: Class, runner: CpuId) -> Result<Vec<Item>, NoMemory> {
        let idle = self.interrupt.idle;
        let at = self.player.clock();
        let before = self.wakeups.as_slice().len();
        list_wakeup(&mut self.wakeups, idle, class, at, home, &self.reasons)?;
        let some = hands_out(&self.player, home, class);
        self.interrupt = handed(some, home.0 != runner.0, class, self.interrupt);
        match self.player.drain(home, class, runner) {
            Ok(items) => Ok(items),
            Err(NoMemory) => {
                self.wakeups.truncate(before);
                Err(NoMemory)
            }
        }
    }

    fn arm(&mut self, cpu: CpuId, arming: Arming) -> Result<Jiffy, NoMemory> {
        self.player.arm(cpu, arming)
    }

    fn cancel(&mut self, home: CpuId, cancelling: Cancelling) -> Result<(), NoMemory> {
        self.player.cancel(home, cancelling)
    }

    fn enter(&mut self, cpu: CpuId) {
        let idle = self.player.is_idle(cpu);
        self.player.enter(cpu);
        self.interrupt = Interrupt {
            idle,
            cause: Cause::Nothing,
            queued: 0,
        };
    }

    fn looks_after(&self, cpu: CpuId, level: u8) -> bool {
        self.player.looks_after(cpu, level)
    }

    fn named(&self, cpu: CpuId, level: u8, tried: &CpuSet) -> Option<CpuId> {
        self.player.named(cpu, level, tried)
    }

    fn takes(&self, cpu: CpuId, other: CpuId) -> bool {
        self.player.takes(cpu, other)
    }

    fn take(&mut self, cpu: CpuId, other: CpuId) {
        let queued = self.player.count_queued(other);
        self.player.take(cpu, other);
        self.interrupt = Interrupt {
            queued,
            ..self.interrupt
        };
    }

    fn let_go(&mut self, cpu: CpuId, other: CpuId) {
        let left = self.player.count_queued(other);
        self.player.let_go(cpu, other);
        if other.0 == cpu.0 {
            return;
        }
        let count = self.interrupt.queued.saturating_sub(left);
        ran_some(&mut self.cpus, cpu, other, count);
    }

    fn end(&mut self, cpu: CpuId) {
        self.player.end(cpu);
        if self.interrupt.idle {
            slept_at(&mut self.cpus, cpu);
            last_was_for(&mut self.wakeups, self.interrupt.cause);
        }
    }

    fn first_event(&self, cpu: CpuId) -> Jiffy {
        self.player.first_event(cpu)
    }

    fn idle(&mut self, cpu: CpuId) {
        self.player.idle(cpu);
    }

    fn wake(&mut self, cpu: CpuId) {
        self.player.wake(cpu);
    }

    fn successor(&self, cpu: CpuId) -> Option<CpuId> {
        self.player.successor(cpu)
    }

    fn go_offline(&mut self, cpu: CpuId) {
        self.player.go_offline(cpu);
    }

    fn hands_on(&self, cpu: CpuId) -> bool {
        self.player.hands_on(cpu)
    }

    fn hand_on(&mut self, cpu: CpuId, to: CpuId) {
        self.player.hand_on(cpu, to);
    }

    fn come_online(&mut self, cpu: CpuId) {
        self.player.come_online(cpu);
    }

    fn count_queued(&self, cpu: CpuId) -> usize {
        self.player.count_queued(cpu)
    }

    fn controller(&self) -> Option<CpuId> {
        self.player.controller()
    }

    fn control(&mut self, cpu: CpuId) {
        self.player.control(cpu);
    }

    fn move_first(&mut self, from: CpuId, to: CpuId) -> Result<Option<Mover>, NoMemory> {
        self.player.move_first(from, to)
    }

    fn cover_of(&self, cpu: CpuId) -> Option<Answerer> {
        self.player.cover_of(cpu)
    }
}
