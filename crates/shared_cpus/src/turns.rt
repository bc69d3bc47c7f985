//! A CPU's own turns, with its own pass: it wakes and goes idle, its interrupt begins and ends, and
//! it tells its first event anew.

ghost use Rattle.std.specs.Prelude.{◌≡◌};
ghost use Rattle.shared_rule.specs.Plays.{woken_box, woken_pass};
ghost use Rattle.shared_rule.specs.Turns.{entered_box, entered_pass, idled_box, idled_pass};
ghost use Rattle.shared_rule.specs.Turns.{outside_box, outside_pass, retold_box, retold_pass};
ghost use Rattle.shared_cpus.specs.Conditions.{CanEnter, CanIdle, CanLeave, CanRetell, CanWake};
ghost use Rattle.shared_cpus.specs.Pairs.{by_pair, of_box};

use crate::status::{begun, count_walk, status_word};
use shared_rule::{
    BoxPart, CpuStatus, Enters, Exits, Idles, Retells, Run, RunName, Wakes, law_turn, law_wake,
};
use shared_words::SharedWord;
use tm_base::NEVER;
use walk_rules::{Stage, WalkKind};
use wheel_core::TimerBase;

/// An idle CPU stores its word and wakes, and its activation begins (`tmigr_cpu_activate`). Where
/// it has no group, no walk begins.
pub fn wake_step<N: RunName, B: TimerBase>(run: &Run<N, B>, part: &mut BoxPart<N, B>)
    requires { CanWake part.old }
    ensures { part.new ≡ by_pair (of_box woken_box) woken_pass part.old }
{
    law_wake();
    let walk = begun(run, part, WalkKind::Activate, Stage::Own);
    let status = CpuStatus {
        idle: false,
        wakeup: NEVER,
        walk,
        ..part.status
    };
    let word = status_word(status);
    let place = run.layout.index(SharedWord::Cpu(part.cpu));
    run.words.shared.store::<Wakes>(&mut part.seat, place, word);
    part.status = status;
    count_walk(&mut part.guest);
}

/// An active CPU stores its word and goes idle, and its walk out of the active sets begins
/// (`timer_base_try_to_set_idle`, `tmigr_cpu_deactivate`).
pub fn idle_step<N: RunName, B: TimerBase>(run: &Run<N, B>, part: &mut BoxPart<N, B>)
    requires { CanIdle part.old }
    ensures { part.new ≡ by_pair (of_box idled_box) idled_pass part.old }
{
    law_turn();
    let walk = begun(run, part, WalkKind::Deactivate, Stage::Read);
    let status = CpuStatus {
        idle: true,
        walk,
        ..part.status
    };
    let word = status_word(status);
    let place = run.layout.index(SharedWord::Cpu(part.cpu));
    run.words.shared.store::<Idles>(&mut part.seat, place, word);
    part.status = status;
    count_walk(&mut part.guest);
}

/// An idle CPU inside its interrupt begins to tell its first event anew (`tmigr_cpu_new_timer`).
pub fn retell_step<N: RunName, B: TimerBase>(run: &Run<N, B>, part: &mut BoxPart<N, B>)
    requires { CanRetell part.old }
    ensures { part.new ≡ by_pair (of_box retold_box) retold_pass part.old }
{
    law_turn();
    let walk = begun(run, part, WalkKind::Reeval, Stage::LockGroup);
    let place = run.layout.index(SharedWord::Cpu(part.cpu));
    run.words.shared.load::<Retells>(&mut part.seat, place);
    part.status = CpuStatus {
        walk,
        ..part.status
    };
    count_walk(&mut part.guest);
}

/// A CPU stores its word, and its interrupt begins (`run_timer_softirq`).
pub fn enter_step<N: RunName, B: TimerBase>(run: &Run<N, B>, part: &mut BoxPart<N, B>)
    requires { CanEnter part.old }
    ensures { part.new ≡ by_pair (of_box entered_box) entered_pass part.old }
{
    law_turn();
    let status = CpuStatus {
        inside: true,
        ..part.status
    };
    let word = status_word(status);
    let place = run.layout.index(SharedWord::Cpu(part.cpu));
    run.words
        .shared
        .store::<Enters>(&mut part.seat, place, word);
    part.status = status;
}

/// A CPU that is awake and marks nobody stores its word, and its interrupt ends
/// (`run_timer_softirq`).
pub fn leave_step<N: RunName, B: TimerBase>(run: &Run<N, B>, part: &mut BoxPart<N, B>)
    requires { CanLeave part.old }
    ensures { part.new ≡ by_pair (of_box outside_box) outside_pass part.old }
{
    law_turn();
    let status = CpuStatus {
        inside: false,
        ..part.status
    };
    let word = status_word(status);
    let place = run.layout.index(SharedWord::Cpu(part.cpu));
    run.words.shared.store::<Exits>(&mut part.seat, place, word);
    part.status = status;
}
