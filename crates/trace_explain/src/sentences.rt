//! What a step changes, in a sentence.

ghost use Rattle.std.specs.Prelude.{◌≡◌, ◌++◌, ◌<◌, codes, length, OnOk};
ghost use Rattle.tm_base.specs.Classes.{class_text};
ghost use Rattle.core_world.specs.Enabled.{Enabled};
ghost use Rattle.core_world.specs.World.{cpu_of};
ghost use Rattle.step_causes.specs.CauseTexts.{around, around_two};
ghost use Rattle.trace_explain.specs.Sentences.{step_text};
ghost use Rattle.trace_explain.specs.Walks.{walk_text};

use crate::pieces::{
    push_after, push_around, push_around_two, push_number_class, push_three, push_two,
    push_two_class,
};
use crate::walks::push_walk;
use core_world::Step;
use step_causes::Core;
use tm_base::{Class, CpuId, Jiffy, NoMemory, TimerId};
use wheel_core::TimerBase;

/// A CPU between two pieces.
fn push_cpu(text: &mut Vec<u8>, front: &[u8], cpu: CpuId, back: &[u8]) -> Result<(), NoMemory>
    ensures { OnOk result (text.new.items ≡ text.old.items ++ around front.now cpu.0 back.now) }
{
    push_around(text, front, u64::from(cpu.0), back)
}

/// A timer is armed.
#[tactic(auto, using(std::proofs::lemmas::List::append_assoc))]
fn push_arm(
    text: &mut Vec<u8>,
    cpu: CpuId,
    timer: TimerId,
    class: Class,
    expires: Jiffy,
) -> Result<(), NoMemory>
    ensures { OnOk result (text.new.items ≡ text.old.items
        ++ around_two (codes "CPU ") cpu.0 (codes " arms timer ") timer.0
        (around (codes " for jiffy ") expires (codes ", of class " ++ class_text class))) }
{
    push_two(
        text,
        b"CPU ",
        u64::from(cpu.0),
        b" arms timer ",
        u64::from(timer.0),
    )?;
    push_number_class(text, b" for jiffy ", expires, b", of class ", class)?;
    Ok(())
}

/// The next step of a CPU's walk.
#[tactic(auto, using(std::proofs::lemmas::List::append_assoc))]
fn push_walked<B: TimerBase>(text: &mut Vec<u8>, core: &Core<B>, cpu: CpuId) -> Result<(), NoMemory>
    requires { cpu.0 < length core.now.cpus }
    ensures { OnOk result (text.new.items ≡ text.old.items
        ++ around (codes "the walk of CPU ") cpu.0
        (walk_text core.now.tree cpu.0 (cpu_of core.now cpu.0).walk)) }
{
    push_after(text, b"the walk of CPU ", u64::from(cpu.0))?;
    push_walk(text, core, cpu)?;
    Ok(())
}

/// What a step changes that is enabled.
#[tactic(auto, unfolding(crate::specs::Sentences::step_text))]
pub(crate) fn push_step<B: TimerBase>(
    text: &mut Vec<u8>,
    core: &Core<B>,
    step: Step,
) -> Result<(), NoMemory>
    requires { Enabled core.now step }
    ensures { OnOk result (text.new.items ≡ text.old.items ++ step_text core.now step) }
{
    match step {
        Step::Clock { now } => push_around(text, b"it is jiffy ", now, b""),
        Step::Enter { cpu } => push_cpu(text, b"the interrupt of CPU ", cpu, b" begins"),
        Step::Leave { cpu } => push_cpu(text, b"the interrupt of CPU ", cpu, b" ends"),
        Step::Arm {
            cpu,
            timer,
            class,
            expires,
            job: _,
            arg: _,
            line: _,
        } => push_arm(text, cpu, timer, class, expires),
        Step::Cancel {
            cpu,
            timer,
            by,
            line: _,
        } => push_three(
            text,
            b"CPU ",
            u64::from(by.0),
            b" cancels timer ",
            u64::from(timer.0),
            b" of CPU ",
            u64::from(cpu.0),
        ),
        Step::Hand { cpu, timer, runner } => push_three(
            text,
            b"CPU ",
            u64::from(runner.0),
            b" runs timer ",
            u64::from(timer.0),
            b" of CPU ",
            u64::from(cpu.0),
        ),
        Step::Ticked { cpu, class, runner } => push_two_class(
            text,
            b"CPU ",
            u64::from(runner.0),
            b" has run what is due on CPU ",
            u64::from(cpu.0),
            b", of class ",
            class,
        ),
        Step::Move { from, to, timer } => push_three(
            text,
            b"timer ",
            u64::from(timer.0),
            b" moves from CPU ",
            u64::from(from.0),
            b" to CPU ",
            u64::from(to.0),
        ),
        Step::Idle { cpu } => push_cpu(text, b"CPU ", cpu, b" goes idle"),
        Step::Wake { cpu } => push_cpu(text, b"CPU ", cpu, b" wakes"),
        Step::Offline { cpu } => push_cpu(text, b"CPU ", cpu, b" goes offline"),
        Step::Online { cpu } => push_cpu(text, b"CPU ", cpu, b" comes online"),
        Step::Reeval { cpu } => push_cpu(text, b"CPU ", cpu, b" tells its first event anew"),
        Step::Take { cpu, by } => push_around_two(
            text,
            b"CPU ",
            u64::from(by.0),
            b" marks CPU ",
            u64::from(cpu.0),
            b", to run its timers",
        ),
        Step::Carry { cpu } => push_cpu(
            text,
            b"the next event of CPU ",
            cpu,
            b" is carried upwards",
        ),
        Step::Release { cpu } => push_cpu(text, b"CPU ", cpu, b" is marked no more"),
        Step::Walk { cpu } => push_walked(text, core, cpu),
        Step::HandOn { cpu, to } => push_around_two(
            text,
            b"CPU ",
            u64::from(cpu.0),
            b" hands its duty on to CPU ",
            u64::from(to.0),
            b"",
        ),
    }
}
