//! The machine's calls on a core.

use crate::player::{CoreFit, CorePlayer};
use crate::readings::{is_idle, sleeps};
use crate::walks::{carry, make, make_active, reevaluate};
use core_steps::law_step;
use core_world::Step;
use play_rules::{Answerer, Arming, Cancelling, Mover, PlayMachine, Queued};
use step_play::{law_comes, law_ends, law_idles, law_lets_go, law_offlines, law_wakes};
use tm_base::{Class, CpuId, CpuSet, Jiffy, NoMemory, TimerId};
use wheel_core::{Item, TimerBase};

impl<B: TimerBase, F: CoreFit> PlayMachine for CorePlayer<B, F> {
    ghost use Rattle.core_world.specs.World as core;
    ghost use Rattle.step_play.specs.Rules.StepRules.{step_rules};
    ghost use Rattle.core_machine.specs.Fitting.{CoreFits};

    ghost World = { core.World };

    ghost rules = { step_rules };

    ghost world = { λ w. w };

    ghost Fit = { CoreFits F.exact };

    fn clock(&self) -> Jiffy {
        self.core.now()
    }

    fn timers(&self) -> u16 {
        self.core.timers()
    }

    fn cpus(&self) -> u16 {
        self.core.tree().cpu_count()
    }

    fn levels(&self) -> u8 {
        self.core.tree().levels()
    }

    fn is_online(&self, cpu: CpuId) -> bool {
        crate::readings::is_online(&self.core, cpu)
    }

    fn is_idle(&self, cpu: CpuId) -> bool {
        is_idle(&self.core, cpu)
    }

    fn is_placed(&self, cpu: CpuId) -> bool {
        crate::readings::is_placed(&self.core, cpu)
    }

    fn wakeup(&self, cpu: CpuId) -> Jiffy {
        crate::readings::wakeup(&self.core, cpu)
    }

    fn holder(&self, timer: TimerId) -> Option<CpuId> {
        crate::readings::holder(&self.core, timer)
    }

    fn queued(&self, timer: TimerId) -> Option<Queued> {
        crate::readings::queued(&self.core, timer)
    }

    fn set_clock(&mut self, now: Jiffy) {
        law_step();
        make(&mut self.core, Step::Clock { now });
    }

    fn has_interrupt(&self, cpu: CpuId) -> bool {
        crate::readings::has_interrupt(&self.core, cpu)
    }

    fn next_interrupt(&self) -> Jiffy {
        crate::readings::next_interrupt(&self.core)
    }

    #[inline(always)]
    fn drain(&mut self, home: CpuId, class: Class, runner: CpuId) -> Result<Vec<Item>, NoMemory> {
        crate::timers::drain(&mut self.core, self.alloc, home, class, runner)
    }

    fn arm(&mut self, cpu: CpuId, arming: Arming) -> Result<Jiffy, NoMemory> {
        law_step();
        let Arming {
            timer,
            class,
            delay,
            job,
            arg,
            line,
        } = arming;
        let expires = self.core.now() + u64::from(delay);
        self.core.arm(cpu, timer, class, expires, job, arg, line)
    }

    fn cancel(&mut self, home: CpuId, cancelling: Cancelling) -> Result<(), NoMemory> {
        law_step();
        let Cancelling { timer, by, line } = cancelling;
        self.core.cancel(home, timer, by, line)
    }

    fn enter(&mut self, cpu: CpuId) {
        law_step();
        make(&mut self.core, Step::Enter { cpu });
    }

    fn looks_after(&self, cpu: CpuId, level: u8) -> bool {
        crate::readings::looks_after(&self.core, cpu, level)
    }

    fn named(&self, cpu: CpuId, level: u8, tried: &CpuSet) -> Option<CpuId> {
        crate::readings::named(&self.core, cpu, level, tried)
    }

    fn takes(&self, _cpu: CpuId, other: CpuId) -> bool {
        crate::readings::is_taken(&self.core, other)
    }

    fn take(&mut self, cpu: CpuId, other: CpuId) {
        law_step();
        make(
            &mut self.core,
            Step::Take {
                cpu: other,
                by: cpu,
            },
        );
    }

    fn let_go(&mut self, _cpu: CpuId, other: CpuId) {
        law_step();
        law_lets_go();
        if sleeps(&self.core, other) {
            carry(&mut self.core, other);
        } else {
            make(&mut self.core, Step::Release { cpu: other });
        }
    }

    fn end(&mut self, cpu: CpuId) {
        law_step();
        law_ends();
        if is_idle(&self.core, cpu) {
            reevaluate(&mut self.core, cpu);
        } else {
            make(&mut self.core, Step::Leave { cpu });
        }
    }

    fn first_event(&self, cpu: CpuId) -> Jiffy {
        crate::readings::first_event(&self.core, cpu)
    }

    fn idle(&mut self, cpu: CpuId) {
        law_step();
        law_idles();
        crate::walks::idle(&mut self.core, cpu);
    }

    fn wake(&mut self, cpu: CpuId) {
        law_step();
        law_wakes();
        crate::walks::wake(&mut self.core, cpu);
    }

    fn successor(&self, cpu: CpuId) -> Option<CpuId> {
        crate::readings::successor(&self.core, cpu)
    }

    fn go_offline(&mut self, cpu: CpuId) {
        law_step();
        law_offlines();
        crate::walks::go_offline(&mut self.core, cpu);
    }

    fn hands_on(&self, cpu: CpuId) -> bool {
        crate::readings::hands_on(&self.core, cpu)
    }

    fn hand_on(&mut self, cpu: CpuId, to: CpuId) {
        law_step();
        law_wakes();
        make_active(&mut self.core, to);
        make(&mut self.core, Step::HandOn { cpu, to });
    }

    fn come_online(&mut self, cpu: CpuId) {
        law_step();
        law_comes();
        crate::walks::come_online(&mut self.core, cpu);
    }

    fn count_queued(&self, cpu: CpuId) -> usize {
        crate::readings::count_queued(&self.core, cpu)
    }

    fn controller(&self) -> Option<CpuId> {
        crate::readings::controller(&self.core)
    }

    fn control(&mut self, cpu: CpuId) {
        law_step();
        law_wakes();
        make_active(&mut self.core, cpu);
    }

    fn move_first(&mut self, from: CpuId, to: CpuId) -> Result<Option<Mover>, NoMemory> {
        crate::timers::move_first(&mut self.core, from, to)
    }

    fn cover_of(&self, cpu: CpuId) -> Option<Answerer> {
        crate::answers::answerer_of(&self.core, cpu)
    }
}
