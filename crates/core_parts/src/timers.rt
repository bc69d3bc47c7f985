//! The timers of one CPU of the core.

ghost use Rattle.std.specs.Prelude.{◌≡◌, ◌-◌, ◌<◌, None, IfOk, OnErr, OnOk};
ghost use Rattle.tm_base.specs.declared.names.TheConstants.{TIME_LIMIT};
ghost use Rattle.wheel_core.specs.PlainBase.{NoneBehind};
ghost use Rattle.core_world.specs.cpu_bases.CpuBases.{IsConsistent, armed, base_of, cancelled};
ghost use Rattle.core_world.specs.cpu_bases.CpuBases.{class_in};
ghost use Rattle.core_world.specs.cpu_bases.CpuBases.{handed_out, item_queued};
ghost use Rattle.core_world.specs.Steps.{handed_of, with_bases};

use crate::cpu::CoreCpu;
use tm_base::{Class, CpuId, Jiffy, NoMemory, TIME_LIMIT, TimerId};
use wheel_core::TimerBase;

impl<B: TimerBase> CoreCpu<B> {
    /// Does nothing: its contract says what every CPU keeps.
    pub fn kept(&self)
        ensures { IsConsistent self.now.bases }
    {
        self.bases.journal();
    }

    /// Arms a timer that isn't queued on it at `now`, in jiffies, and answers its wheel expiry, in
    /// jiffies. Want of memory leaves all as before.
    pub fn arm(
        &mut self,
        now: Jiffy,
        class: Class,
        timer: TimerId,
        expires: Jiffy,
        job: u8,
        arg: u32,
        line: u32,
        by: CpuId,
    ) -> Result<Jiffy, NoMemory>
        requires now_in_time { now < TIME_LIMIT - 1 }
        requires expires_in_time { expires < TIME_LIMIT }
        requires not_queued { class_in timer.0 self.old.bases ≡ None }
        requires none_behind { NoneBehind (base_of class self.old.bases) }
        ensures wheel { IfOk result (λ wheel.
            wheel ≡ (item_queued now class timer.0 expires job arg self.old.bases).wheel) }
        ensures ok { OnOk result (self.new ≡ with_bases self.old
            (armed now class timer.0 expires job arg line by self.old.bases)) }
        ensures err { OnErr result (self.new ≡ self.old) }
    {
        self.bases.journal();
        self.bases.reserve(1, 1)?;
        let wheel = self
            .bases
            .arm(now, class, timer, expires, job, arg, line, by);
        Ok(wheel)
    }

    /// Cancels a timer at `now`, in jiffies. Want of memory leaves all as before.
    pub fn cancel(
        &mut self,
        now: Jiffy,
        timer: TimerId,
        line: u32,
        by: CpuId,
    ) -> Result<(), NoMemory>
        requires now_in_time { now < TIME_LIMIT - 1 }
        ensures ok { OnOk result (self.new ≡ with_bases self.old
            (cancelled now timer.0 line by self.old.bases)) }
        ensures err { OnErr result (self.new ≡ self.old) }
    {
        self.bases.journal();
        self.bases.reserve(0, 1)?;
        self.bases.cancel(now, timer, line, by);
        Ok(())
    }

    /// Takes the next timer of a class that is due at `now`, in jiffies, or writes that none is.
    /// Want of memory leaves all as before.
    #[inline(always)]
    pub fn drain_one(&mut self, now: Jiffy, class: Class, runner: CpuId) -> Result<(), NoMemory>
        requires now_in_time { now < TIME_LIMIT - 1 }
        ensures ok { OnOk result (self.new ≡ with_bases self.old
            (handed_out now class runner self.old.bases)) }
        ensures err { OnErr result (self.new ≡ self.old) }
    {
        self.bases.journal();
        self.bases.reserve(0, 1)?;
        self.bases.take_due(now, class, runner);
        Ok(())
    }

    /// Takes the next timer of the class in which this one is queued. Want of memory leaves all as
    /// before.
    pub fn hand(&mut self, now: Jiffy, timer: TimerId, runner: CpuId) -> Result<(), NoMemory>
        requires now_in_time { now < TIME_LIMIT - 1 }
        ensures ok { OnOk result (self.new ≡ with_bases self.old
            (handed_of now (class_in timer.0 self.old.bases) runner self.old.bases)) }
        ensures err { OnErr result (self.new ≡ self.old) }
    {
        match self.bases.where_is(timer) {
            Some(class) => self.drain_one(now, class, runner),
            None => Ok(()),
        }
    }
}
