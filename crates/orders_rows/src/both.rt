//! The core and a plain world, on which the same steps are made.

ghost use Rattle.std.specs.Prelude.{◌≡◌, ◌<◌, ◌≤◌, length};
ghost use Rattle.tm_base.specs.declared.limits.TheConstants.{MOST_NODE_CPUS};

use core_world::Step;
use orders_world::{Answer, PlainWorld, answer_for};
use plain_world::make_step;
use std::alloc::Global;
use std::process::Abort;
use step_core::{Core, apply, one_node_core};
use tm_base::{Class, CpuId, CpuSet, NoMemory, TimerId};
use trace_check::{Reason, why};
use wheel_core::ListBase;

/// A core and a plain world.
#[derive(Drop)]
pub(crate) struct Both {
    core: Core<ListBase>,
    world: PlainWorld,
}

/// The steps of one CPU that are tried.
fn steps_of(cpu: CpuId) -> [Step; 10] {
    [
        Step::Enter { cpu },
        Step::Leave { cpu },
        Step::Idle { cpu },
        Step::Wake { cpu },
        Step::Offline { cpu },
        Step::Online { cpu },
        Step::Reeval { cpu },
        Step::Carry { cpu },
        Step::Release { cpu },
        Step::Walk { cpu },
    ]
}

/// The steps of a CPU with another one that are tried.
fn steps_with(cpu: CpuId, other: CpuId) -> [Step; 6] {
    let timer = TimerId(0);
    [
        Step::Take { cpu, by: other },
        Step::HandOn { cpu, to: other },
        Step::Hand {
            cpu,
            timer,
            runner: other,
        },
        Step::Ticked {
            cpu,
            class: Class::Global,
            runner: other,
        },
        Step::Move {
            from: cpu,
            to: other,
            timer,
        },
        Step::Cancel {
            cpu,
            timer,
            by: other,
            line: 0,
        },
    ]
}

/// An arm of a timer on a CPU.
pub(crate) fn arm(cpu: u16, class: Class, expires: u64) -> Step {
    Step::Arm {
        cpu: CpuId(cpu),
        timer: TimerId(0),
        class,
        expires,
        job: 0,
        arg: 0,
        line: 0,
    }
}

/// Whether the core's reason is the plain world's answer.
fn agree(reason: Reason, answer: Answer) -> bool {
    match reason {
        Reason::Held { group, cpu } => match answer {
            Answer::Held {
                level: _,
                group: there,
                cpu: runner,
            } => group == there && cpu == runner,
            _ => false,
        },
        Reason::Woken { cpu, at } => match answer {
            Answer::Woken {
                cpu: waker,
                at: time,
            } => cpu == waker && at == time,
            _ => false,
        },
        Reason::Carried { case: _ } => matches!(answer, Answer::UnderWay),
    }
}

impl Both {
    /// The start of one node of so many CPUs, with one timer.
    pub(crate) fn start(alloc: Global, cpus: u8) -> Result<Both, NoMemory>
        requires some { 1 ≤ cpus }
        requires few { cpus ≤ MOST_NODE_CPUS }
    {
        let core = one_node_core(alloc, cpus, 1)?;
        let world = PlainWorld::start(alloc, 1, cpus, &CpuSet::new(), 1)?;
        Ok(Both { core, world })
    }

    /// A step is enabled in both, or in none.
    fn check_step(&self, rt: &impl Abort, step: &Step) {
        let one = step_core::enabled(&self.core, step);
        assert_eq!(rt; orders_world::enabled(&self.world, step), one);
    }

    /// The steps of a CPU are enabled in both, or in none.
    fn check_cpu(&self, rt: &impl Abort, cpu: CpuId) {
        for step in steps_of(cpu).as_slice() {
            self.check_step(rt, step);
        }
        self.check_step(rt, &arm(cpu.0, Class::Global, 60));
        self.check_step(rt, &arm(cpu.0, Class::Pinned, 9));
        for other in 0..self.core.count() {
            for step in steps_with(cpu, CpuId(other)).as_slice() {
                self.check_step(rt, step);
            }
        }
    }

    /// Who answers for the timer on a CPU, is who answers in the core.
    fn check_answer(&self, rt: &impl Abort, cpu: CpuId) {
        assert!(rt; cpu.0 < self.core.count());
        let Some(reason) = why(&self.core, cpu, TimerId(0)) else {
            return;
        };
        let item = self.world.item_of(cpu, TimerId(0));
        let wheel = match item {
            Some(item) => item.wheel,
            None => 0,
        };
        assert_eq!(rt; agree(reason, answer_for(&self.world, cpu, wheel)), true);
    }

    /// Both say the same of every CPU, and one past the last.
    fn check(&self, rt: &impl Abort) {
        self.check_step(rt, &Step::Clock { now: 70 });
        self.check_step(rt, &Step::Clock { now: 9 });
        for cpu in 0..self.core.count() {
            self.check_cpu(rt, CpuId(cpu));
            self.check_answer(rt, CpuId(cpu));
        }
        self.check_step(rt, &Step::Wake { cpu: CpuId(600) });
    }

    /// Both say the same, and make a step, which has to be enabled.
    pub(crate) fn make(&mut self, rt: &impl Abort, step: Step) {
        self.check(rt);
        assert!(rt; step_core::enabled(&self.core, &step));
        assert_eq!(rt; apply(&mut self.core, step).is_ok(), true);
        assert_eq!(rt; make_step(&mut self.world, step).is_ok(), true);
    }

    /// So many steps of a CPU's walk.
    pub(crate) fn walks(&mut self, rt: &impl Abort, times: u8, cpu: u16) {
        for _walk in 0..times {
            self.make(rt, Step::Walk { cpu: CpuId(cpu) });
        }
    }

    /// Both say the same at the end, and of the timer on a CPU the plain world says this.
    pub(crate) fn end(&self, rt: &impl Abort, cpu: u16, wheel: u64, answer: Answer) {
        self.check(rt);
        assert_eq!(rt; answer_for(&self.world, CpuId(cpu), wheel), answer);
    }
}
