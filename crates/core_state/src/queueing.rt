//! Steps that arm and take out timers.

ghost use Rattle.std.specs.Prelude.{◌≡◌, ◌<◌, IfOk, OnErr, OnOk, length, option_map};
ghost use Rattle.cpu_bases.specs.CpuBases.{IsConsistent, item_queued};
ghost use Rattle.core_parts.specs.core_world.declared.step.Step.TheVariants as steps;
ghost use Rattle.core_parts.specs.core_world.Enabled.{Enabled};
ghost use Rattle.core_parts.specs.core_world.Steps.{first_moved, stepped};
ghost use Rattle.core_parts.specs.core_world.World.{cpu_of};
ghost use Rattle.core_parts.specs.Moves.{wheel_moved};

use crate::machine::Core;
use core_parts::move_between;
use cpu_bases::law_bases;
use tm_base::{Class, CpuId, Jiffy, NoMemory, TimerId};
use wheel_core::TimerBase;

impl<B: TimerBase> Core<B> {
    /// Does nothing: its contract says what the timers of every CPU keep.
    pub fn timers_kept(&self, cpu: CpuId)
        requires { cpu.0 < length self.now.cpus }
        ensures { IsConsistent (cpu_of self.now cpu.0).bases }
    {
        self.cpus[usize::from(cpu.0)].kept();
    }

    /// A timer is armed on a CPU; answers its wheel expiry, in jiffies.
    pub fn arm(
        &mut self,
        cpu: CpuId,
        timer: TimerId,
        class: Class,
        expires: u64,
        job: u8,
        arg: u32,
        line: u32,
    ) -> Result<Jiffy, NoMemory>
        requires { Enabled self.old (steps.Arm cpu timer class expires job arg line) }
        ensures wheel { IfOk result (λ wheel. wheel ≡ (item_queued self.old.clock class timer.0
            expires job arg (cpu_of self.old cpu.0).bases).wheel) }
        ensures ok { OnOk result
            (self.new ≡ stepped self.old (steps.Arm cpu timer class expires job arg line)) }
        ensures err { OnErr result (self.new ≡ self.old) }
    {
        self.kept();
        self.timers_kept(cpu);
        let now = self.now();
        let wheel = self.cpus[usize::from(cpu.0)].arm(
            now, class, timer, expires, job, arg, line, cpu,
        )?;
        self.holders[usize::from(timer.0)] = Some(cpu);
        Ok(wheel)
    }

    /// A timer that is queued on a CPU is cancelled.
    pub fn cancel(
        &mut self,
        cpu: CpuId,
        timer: TimerId,
        by: CpuId,
        line: u32,
    ) -> Result<(), NoMemory>
        requires { Enabled self.old (steps.Cancel cpu timer by line) }
        ensures ok { OnOk result
            (self.new ≡ stepped self.old (steps.Cancel cpu timer by line)) }
        ensures err { OnErr result (self.new ≡ self.old) }
    {
        self.kept();
        self.timers_kept(cpu);
        let now = self.now();
        self.cpus[usize::from(cpu.0)].cancel(now, timer, line, by)?;
        self.holders[usize::from(timer.0)] = None;
        Ok(())
    }

    /// The next due timer of a CPU goes out, for its job to run on the runner.
    pub fn hand(&mut self, cpu: CpuId, timer: TimerId, runner: CpuId) -> Result<(), NoMemory>
        requires { Enabled self.old (steps.Hand cpu timer runner) }
        ensures ok { OnOk result (self.new ≡ stepped self.old (steps.Hand cpu timer runner)) }
        ensures err { OnErr result (self.new ≡ self.old) }
    {
        self.kept();
        self.timers_kept(cpu);
        let now = self.now();
        self.cpus[usize::from(cpu.0)].hand(now, timer, runner)?;
        self.holders[usize::from(timer.0)] = None;
        Ok(())
    }

    /// Nothing of a class is due any more.
    #[inline(always)]
    pub fn drained(&mut self, cpu: CpuId, class: Class, runner: CpuId) -> Result<(), NoMemory>
        requires { Enabled self.old (steps.Ticked cpu class runner) }
        ensures ok { OnOk result (self.new ≡ stepped self.old (steps.Ticked cpu class runner)) }
        ensures err { OnErr result (self.new ≡ self.old) }
    {
        self.kept();
        self.timers_kept(cpu);
        let now = self.now();
        self.cpus[usize::from(cpu.0)].drain_one(now, class, runner)?;
        Ok(())
    }

    /// The class of the first timer to move from a CPU.
    pub fn class_to_move(&self, cpu: CpuId) -> Option<Class>
        requires { cpu.0 < length self.now.cpus }
        ensures class { result
            ≡ option_map (λ first. first.0) (first_moved (cpu_of self.now cpu.0).bases) }
    {
        self.cpus[usize::from(cpu.0)].class_to_move()
    }

    /// The first timer of an offline CPU moves to another one; answers its wheel expiry there, in
    /// jiffies.
    pub fn move_timer(
        &mut self,
        from: CpuId,
        to: CpuId,
        timer: TimerId,
    ) -> Result<Option<Jiffy>, NoMemory>
        requires { Enabled self.old (steps.Move from to timer) }
        ensures wheel { IfOk result (λ wheel. wheel ≡ wheel_moved self.old from.0 to.0) }
        ensures ok { OnOk result (self.new ≡ stepped self.old (steps.Move from to timer)) }
        ensures err { OnErr result (self.new ≡ self.old) }
    {
        law_bases();
        self.kept();
        self.timers_kept(from);
        self.timers_kept(to);
        let now = self.now();
        let Some(class) = self.class_to_move(from) else {
            return Ok(None);
        };
        let wheel = move_between(&mut self.cpus, from, to, now, class)?;
        self.holders[usize::from(timer.0)] = Some(to);
        Ok(wheel)
    }
}
