//! A CPU marks another one, takes its mark back, or begins to carry the other one's next event
//! upwards (`tmigr_handle_remote_cpu`): steps of the part of the CPU that is marked, with the pass
//! of the CPU that marks it.

ghost use Rattle.std.specs.Prelude.{◌≡◌};
ghost use Rattle.shared_rule.specs.declared.parts.PassView.{PassView};
ghost use Rattle.shared_rule.specs.Turns.{carried_box, carried_pass, released_box, released_pass};
ghost use Rattle.shared_rule.specs.Turns.{taken_box, taken_pass};
ghost use Rattle.shared_cpus.specs.Conditions.{CanCarry, CanRelease, CanTake};
ghost use Rattle.shared_cpus.specs.Pairs.{by_pair};

use crate::status::{begun, count_walk, guest_cpu, status_word};
use shared_rule::{
    BoxPart, Carries, CpuStatus, Releases, Run, RunName, Takes, law_carry, law_take,
};
use shared_words::SharedWord;
use walk_rules::{Stage, WalkKind};
use wheel_core::TimerBase;

/// The CPU of the pass that is brought stores the word of an idle CPU that is due in its leaf, and
/// so marks it, to run its timers.
pub fn take_step<N: RunName, B: TimerBase>(run: &Run<N, B>, part: &mut BoxPart<N, B>)
    requires { (p : PassView) × CanTake part.old p }
    ensures { part.new ≡ by_pair taken_box taken_pass part.old }
{
    law_take();
    let by = guest_cpu(&part.guest);
    let status = CpuStatus {
        mark: Some(by.0),
        ..part.status
    };
    let word = status_word(status);
    let place = run.layout.index(SharedWord::Cpu(part.cpu));
    run.words.shared.store::<Takes>(&mut part.seat, place, word);
    part.status = status;
}

/// The CPU of the pass that is brought stores the word of a CPU that it has marked and that is
/// awake or offline by now, and so takes its mark back.
pub fn release_step<N: RunName, B: TimerBase>(run: &Run<N, B>, part: &mut BoxPart<N, B>)
    requires { CanRelease part.old }
    ensures { part.new ≡ by_pair released_box released_pass part.old }
{
    law_take();
    let status = CpuStatus {
        mark: None,
        ..part.status
    };
    let word = status_word(status);
    let place = run.layout.index(SharedWord::Cpu(part.cpu));
    run.words
        .shared
        .store::<Releases>(&mut part.seat, place, word);
    part.status = status;
}

/// The CPU of the pass that is brought begins to carry the next event of a CPU that it has marked,
/// and that is still idle, upwards.
pub fn carry_step<N: RunName, B: TimerBase>(run: &Run<N, B>, part: &mut BoxPart<N, B>)
    requires { CanCarry part.old }
    ensures { part.new ≡ by_pair carried_box carried_pass part.old }
{
    law_carry();
    let by = guest_cpu(&part.guest);
    let walk = begun(run, part, WalkKind::Remote { by }, Stage::LockGroup);
    let place = run.layout.index(SharedWord::Cpu(part.cpu));
    run.words.shared.load::<Carries>(&mut part.seat, place);
    part.status = CpuStatus {
        walk,
        ..part.status
    };
    count_walk(&mut part.guest);
}
