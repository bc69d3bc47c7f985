//! The ends of walks: a CPU's word is stored with what the walk has found.

ghost use Rattle.std.specs.Prelude.{◌≡◌, ◌≤◌, min};
ghost use Rattle.walk_rules.specs.declared.walk.WalkKind.TheVariants as kinds;
ghost use Rattle.shared_rule.specs.Turns.{carry_ended_box, carry_ended_pass, finished_box};
ghost use Rattle.shared_rule.specs.Turns.{reevaluated_pass, rested_pass};
ghost use Rattle.shared_cpus.specs.Conditions.{CanEndCarry, EndsAs};
ghost use Rattle.shared_cpus.specs.Pairs.{HasOwn, by_pair, of_box};

use crate::status::status_word;
use shared_rule::{
    BoxPart, CarryEnds, CpuStatus, Reevaluates, Rests, Run, RunName, law_carry, law_finish,
};
use shared_words::SharedWord;
use tm_base::Jiffy;
use walk_rules::Walk;
use wheel_core::TimerBase;

/// What a walk found its CPU to be woken for, in jiffies, or `NEVER`.
fn wakeup_of(walk: Walk) -> Jiffy
    ensures wakeup { result ≡ min walk.pin walk.first }
    ensures least { result ≤ walk.pin }
{
    walk.pin.min(walk.first)
}

/// A CPU's walk out of the active sets ends with the CPU's wakeup (`tmigr_cpu_deactivate`).
pub fn rest_step<N: RunName, B: TimerBase>(run: &Run<N, B>, part: &mut BoxPart<N, B>, walk: Walk)
    requires own { HasOwn part.old }
    requires ends { EndsAs part.old walk kinds.Deactivate }
    ensures { part.new ≡ by_pair (of_box (finished_box kinds.Deactivate)) rested_pass part.old }
{
    law_finish();
    let wakeup = wakeup_of(walk);
    let status = CpuStatus {
        wakeup,
        walk: None,
        ..part.status
    };
    let word = status_word(status);
    let place = run.layout.index(SharedWord::Cpu(part.cpu));
    run.words.shared.store::<Rests>(&mut part.seat, place, word);
    part.status = status;
}

/// A CPU's re-evaluation ends with the CPU's wakeup, and its interrupt with it
/// (`tmigr_cpu_new_timer`).
pub fn reevaluated_step<N: RunName, B: TimerBase>(
    run: &Run<N, B>,
    part: &mut BoxPart<N, B>,
    walk: Walk,
)
    requires own { HasOwn part.old }
    requires ends { EndsAs part.old walk kinds.Reeval }
    ensures { part.new ≡ by_pair (of_box (finished_box kinds.Reeval)) reevaluated_pass part.old }
{
    law_finish();
    let wakeup = wakeup_of(walk);
    let status = CpuStatus {
        wakeup,
        inside: false,
        walk: None,
        ..part.status
    };
    let word = status_word(status);
    let place = run.layout.index(SharedWord::Cpu(part.cpu));
    run.words
        .shared
        .store::<Reevaluates>(&mut part.seat, place, word);
    part.status = status;
}

/// The walk that carried the next event of a marked CPU upwards ends, and the mark is gone
/// (`tmigr_handle_remote_cpu`).
pub fn carried_step<N: RunName, B: TimerBase>(run: &Run<N, B>, part: &mut BoxPart<N, B>)
    requires { CanEndCarry part.old }
    ensures { part.new ≡ by_pair carry_ended_box carry_ended_pass part.old }
{
    law_carry();
    let status = CpuStatus {
        mark: None,
        walk: None,
        ..part.status
    };
    let word = status_word(status);
    let place = run.layout.index(SharedWord::Cpu(part.cpu));
    run.words
        .shared
        .store::<CarryEnds>(&mut part.seat, place, word);
    part.status = status;
}
