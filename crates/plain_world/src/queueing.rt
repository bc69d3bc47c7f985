//! Steps that change the timers of a CPU.

ghost use Rattle.std.specs.Prelude.{◌≡◌, ◌^◌, ◌<◌, IfErr, OnOk, Some, slice_set};
ghost use Rattle.cpu_bases.specs.CpuBases.{armed, base_of, cancelled, class_in, handed_out};
ghost use Rattle.cpu_bases.specs.CpuBases.{moved_in, moved_out, oldest_in};
ghost use Rattle.core_world.specs.Steps.{first_moved, giver, handed_of, moved_with, taker};
ghost use Rattle.core_world.specs.Steps.{with_bases};
ghost use Rattle.core_world.specs.World.{cpu_of};
ghost use Rattle.plain_world.specs.Limits.{FirstFits, HandFits, MoveFits, NextFits, QueueFits};
ghost use Rattle.plain_world.specs.Makes.{with_timers};
ghost use Rattle.plain_world.specs.declared.lack.Lack.TheVariants as lacks;

use crate::cpu::PlainCpu;
use crate::lack::Lack;
use crate::world::PlainWorld;
use tm_base::{Class, CpuId, Jiffy, TimerId};
use wheel_core::Item;

impl PlainCpu {
    /// A timer is armed.
    fn arm(
        &mut self,
        now: Jiffy,
        class: Class,
        timer: TimerId,
        expires: Jiffy,
        job: u8,
        arg: u32,
        line: u32,
        by: CpuId,
    ) -> Result<(), Lack>
        ensures ok { OnOk result (self.new ≡ with_bases self.old
            (armed now class timer.0 expires job arg line by self.old.bases)) }
        ensures past { IfErr result (λ e. e ≡ lacks.Range
            → QueueFits now class expires self.old.bases → ⊥) }
    {
        self.timers
            .arm(now, class, timer, expires, job, arg, line, by)
    }

    /// A timer goes out of the base that it is in.
    fn cancel(&mut self, now: Jiffy, timer: TimerId, line: u32, by: CpuId) -> Result<(), Lack>
        ensures ok { OnOk result (self.new ≡ with_bases self.old
            (cancelled now timer.0 line by self.old.bases)) }
        ensures err { IfErr result (λ e. e ≡ lacks.Memory) }
    {
        self.timers.cancel(now, timer, line, by)
    }

    /// The next due item of a timer's class goes out.
    fn hand(&mut self, now: Jiffy, timer: TimerId, by: CpuId) -> Result<(), Lack>
        ensures ok { OnOk result (self.new ≡ with_bases self.old
            (handed_of now (class_in timer.0 self.old.bases) by self.old.bases)) }
        ensures past { IfErr result (λ e. e ≡ lacks.Range
            → HandFits now timer.0 self.old.bases
            → ⊥) }
    {
        self.timers.hand(now, timer, by)
    }

    /// The next due item of a class goes out, or the base counts as drained.
    fn hand_out(&mut self, now: Jiffy, class: Class, by: CpuId) -> Result<(), Lack>
        ensures ok { OnOk result (self.new ≡ with_bases self.old
            (handed_out now class by self.old.bases)) }
        ensures past { IfErr result (λ e. e ≡ lacks.Range → NextFits now class self.old.bases
            → ⊥) }
    {
        self.timers.hand_out(now, class, by)
    }

    /// The first item of a class goes out to another CPU.
    fn move_out(&mut self, now: Jiffy, class: Class, item: Item, by: CpuId) -> Result<(), Lack>
        requires { oldest_in (base_of class self.old.bases).items ≡ Some item }
        ensures ok { OnOk result (self.new ≡ with_bases self.old
            (moved_out now class by self.old.bases)) }
        ensures past { IfErr result (λ e. e ≡ lacks.Range → item.id < 2 ^ 16 → ⊥) }
    {
        self.timers.move_out(now, class, item, by)
    }

    /// A timer comes from another CPU.
    fn move_in(&mut self, now: Jiffy, class: Class, item: Item, by: CpuId) -> Result<(), Lack>
        ensures ok { OnOk result (self.new ≡ with_bases self.old
            (moved_in now class item.id item.expires item.job item.arg by self.old.bases)) }
        ensures past { IfErr result (λ e. e ≡ lacks.Range
            → MoveFits now class item self.old.bases → ⊥) }
    {
        self.timers.move_in(now, class, item, by)
    }
}

impl PlainWorld {
    /// A timer is armed on a CPU.
    pub(crate) fn arm(
        &mut self,
        cpu: CpuId,
        timer: TimerId,
        class: Class,
        expires: Jiffy,
        job: u8,
        arg: u32,
        line: u32,
    ) -> Result<(), Lack>
        ensures ok { OnOk result (self.new
            ≡ with_timers (armed self.old.clock class timer.0 expires job arg line cpu)
            self.old cpu.0) }
        ensures past { IfErr result (λ e. e ≡ lacks.Range
            → QueueFits self.old.clock class expires (cpu_of self.old cpu.0).bases → ⊥) }
    {
        let now = self.clock;
        if usize::from(cpu.0) >= self.cpus.len() {
            return Ok(());
        }
        self.cpus[usize::from(cpu.0)].arm(now, class, timer, expires, job, arg, line, cpu)
    }

    /// A timer of a CPU is cancelled; nothing changes where it isn't queued there.
    pub(crate) fn cancel(
        &mut self,
        cpu: CpuId,
        timer: TimerId,
        by: CpuId,
        line: u32,
    ) -> Result<(), Lack>
        ensures ok { OnOk result (self.new
            ≡ with_timers (cancelled self.old.clock timer.0 line by) self.old cpu.0) }
        ensures err { IfErr result (λ e. e ≡ lacks.Memory) }
    {
        let now = self.clock;
        if usize::from(cpu.0) >= self.cpus.len() {
            return Ok(());
        }
        self.cpus[usize::from(cpu.0)].cancel(now, timer, line, by)
    }

    /// The next due timer of a timer's class goes out.
    pub(crate) fn hand(&mut self, cpu: CpuId, timer: TimerId, by: CpuId) -> Result<(), Lack>
        ensures ok { OnOk result (self.new ≡ with_timers (λ bases. handed_of self.old.clock
            (class_in timer.0 bases) by bases) self.old cpu.0) }
        ensures past { IfErr result (λ e. e ≡ lacks.Range
            → HandFits self.old.clock timer.0 (cpu_of self.old cpu.0).bases → ⊥) }
    {
        let now = self.clock;
        if usize::from(cpu.0) >= self.cpus.len() {
            return Ok(());
        }
        self.cpus[usize::from(cpu.0)].hand(now, timer, by)
    }

    /// The next due timer of a class goes out, or the base counts as drained.
    pub(crate) fn drain(&mut self, cpu: CpuId, class: Class, by: CpuId) -> Result<(), Lack>
        ensures ok { OnOk result (self.new
            ≡ with_timers (handed_out self.old.clock class by) self.old cpu.0) }
        ensures past { IfErr result (λ e. e ≡ lacks.Range
            → NextFits self.old.clock class (cpu_of self.old cpu.0).bases → ⊥) }
    {
        let now = self.clock;
        if usize::from(cpu.0) >= self.cpus.len() {
            return Ok(());
        }
        self.cpus[usize::from(cpu.0)].hand_out(now, class, by)
    }

    /// The first timer of a class goes out of a CPU.
    fn give(&mut self, from: CpuId, to: CpuId, class: Class, item: Item) -> Result<(), Lack>
        requires { oldest_in (base_of class (cpu_of self.old from.0).bases).items ≡ Some item }
        ensures ok { OnOk result (self.new ≡ record self.old {
          cpus = slice_set self.old.cpus from.0 (giver self.old from.0 to.0 class);
        }) }
        ensures past { IfErr result (λ e. e ≡ lacks.Range → item.id < 2 ^ 16 → ⊥) }
    {
        let now = self.clock;
        if usize::from(from.0) >= self.cpus.len() {
            return Ok(());
        }
        self.cpus[usize::from(from.0)].move_out(now, class, item, to)
    }

    /// A timer comes to a CPU.
    fn receive(&mut self, to: CpuId, class: Class, item: Item) -> Result<(), Lack>
        ensures ok { OnOk result (self.new ≡ record self.old {
          cpus = slice_set self.old.cpus to.0 (taker self.old to.0 class item);
        }) }
        ensures past { IfErr result (λ e. e ≡ lacks.Range
            → MoveFits self.old.clock class item (cpu_of self.old to.0).bases → ⊥) }
    {
        let now = self.clock;
        if usize::from(to.0) >= self.cpus.len() {
            return Ok(());
        }
        self.cpus[usize::from(to.0)].move_in(now, class, item, to)
    }

    /// The first timer of a CPU moves to another one, where it has a timer. Where both are one CPU
    /// the timer is queued there once more, as the definition has it.
    pub(crate) fn move_first(&mut self, from: CpuId, to: CpuId) -> Result<(), Lack>
        ensures ok { OnOk result (self.new ≡ moved_with self.old from.0 to.0
            (first_moved (cpu_of self.old from.0).bases)) }
        ensures past { IfErr result (λ e. e ≡ lacks.Range
            → FirstFits self.old.clock (cpu_of self.old from.0).bases (cpu_of self.old to.0).bases
            → ⊥) }
    {
        let Some((class, item)) = self.first_to_move(from) else {
            return Ok(());
        };
        if from.0 == to.0 {
            return self.receive(to, class, item);
        }
        match self.give(from, to, class, item) {
            Ok(()) => self.receive(to, class, item),
            Err(lack) => Err(lack),
        }
    }
}
