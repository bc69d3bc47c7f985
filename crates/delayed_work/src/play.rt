//! Playing a script of works.

ghost use Rattle.std.specs.Prelude.{◌≡◌, ◌≤◌, [], length, IfOk, IfErr, OnOk};
ghost use Rattle.tm_base.specs.declared.limits.TheConstants.{MOST_TIMERS};
ghost use Rattle.work_script.specs.Grammar.{IsWorkScript};
ghost use Rattle.wheel_base.specs.Wheels.{no_base};
ghost use Rattle.cpu_bases.specs.CpuBases.{empty_bases};
ghost use Rattle.delayed_work.specs.Play.{CanPlayWorks, Finished, PlaysEnd, WhyNotPlayed};
ghost use Rattle.delayed_work.specs.Play.{unknown_in, unknown_in_work_ops, work_moments_after};
ghost use Rattle.delayed_work.specs.Play.{work_ops_at};
ghost use Rattle.delayed_work.specs.Play.{unknown_of};
ghost use Rattle.delayed_work.specs.Play.{works_played, works_text};
ghost use Rattle.delayed_work.specs.Playable.{BreaksOffPlay};
ghost use Rattle.delayed_work.specs.Works.{new_works};

use crate::faults::{UnknownWorkJob, WorksFault};
use crate::player::Player;
use crate::works::Works;
use cpu_bases::Bases;
use job_table::Jobs;
use std::alloc::Global;
use tm_base::{Jiffy, NoMemory, WORK_LIMIT_V1};
use wheel_base::WheelBase;
use work_script::{WorkMoment, WorkOp, WorkScript};

/// The lines of the script for the time now, and its moments that are still to come after it.
fn turn(now: Jiffy, moments: &[WorkMoment]) -> (&[WorkOp], &[WorkMoment])
    ensures ops { result.0.now ≡ work_ops_at now moments.now }
    ensures behind { result.1.now ≡ work_moments_after now moments.now }
{
    match moments {
        [moment, behind @ ..] => {
            if moment.at == now {
                (moment.ops.as_slice(), behind)
            } else {
                (&[], moments)
            }
        }
        [] => (&[], moments),
    }
}

/// The job of an operation that a table of so many hasn't.
fn unknown_of(table: usize, op: &WorkOp) -> Option<UnknownWorkJob>
    ensures { result ≡ unknown_of table op.now }
{
    match *op {
        WorkOp::Queue { line, job, .. } if usize::from(job) >= table => {
            Some(UnknownWorkJob { line, job })
        }
        _ => None,
    }
}

/// The first of these operations whose job a table of so many hasn't.
fn unknown_in_ops(table: usize, ops: &[WorkOp]) -> Option<UnknownWorkJob>
    ensures { result ≡ unknown_in_work_ops table ops.now }
{
    for op in ops {
        if let Some(unknown) = unknown_of(table, op) {
            return Some(unknown);
        }
    }
    None
}

/// The first of these moments' operations whose job a table of so many hasn't.
fn unknown_in(table: usize, moments: &[WorkMoment]) -> Option<UnknownWorkJob>
    ensures { result ≡ unknown_in table moments.now }
{
    for moment in moments {
        if let Some(unknown) = unknown_in_ops(table, moment.ops.as_slice()) {
            return Some(unknown);
        }
    }
    None
}

/// So many free works over wheels, and nothing told.
fn start(alloc: Global, count: u16) -> Result<Player<WheelBase>, NoMemory>
    requires { count ≤ MOST_TIMERS }
    ensures { IfOk result (λ player. player ≡ (record {
      works = new_works empty_bases count;
      text = [];
    })) }
{
    let bases = wheels(alloc)?;
    let works = Works::new(alloc, bases, count)?;
    Ok(Player {
        works,
        text: Vec::new(alloc),
    })
}

/// Three empty wheels.
fn wheels(alloc: Global) -> Result<Bases<WheelBase>, NoMemory>
    ensures { IfOk result (λ bases. bases.plain ≡ empty_bases) }
{
    let pinned = wheel(alloc)?;
    let global = match wheel(alloc) {
        Ok(global) => global,
        Err(fault) => {
            drop(pinned);
            return Err(fault);
        }
    };
    let deferrable = match wheel(alloc) {
        Ok(deferrable) => deferrable,
        Err(fault) => {
            drop(pinned);
            drop(global);
            return Err(fault);
        }
    };
    Ok(Bases::with(alloc, pinned, global, deferrable))
}

/// An empty wheel.
fn wheel(alloc: Global) -> Result<WheelBase, NoMemory>
    ensures { IfOk result (λ base. base ≡ no_base) }
{
    match WheelBase::new(alloc) {
        Ok(base) => Ok(base),
        Err(_) => Err(NoMemory),
    }
}

/// The moments of a script over works that are all free.
fn all_moments<J: Jobs>(
    player: &mut Player<WheelBase>,
    script: &WorkScript,
    jobs: &J,
) -> Result<(), WorksFault>
    requires script { IsWorkScript script.now }
    requires start { player.old ≡ (record {
      works = new_works empty_bases script.now.count;
      text = [];
    }) }
    ensures ok { OnOk result
        (works_played (J.replies jobs.now) script.now ≡ Finished player.new) }
    ensures len { OnOk result
        (length player.new.works.ledger.standings ≡ script.now.count) }
    ensures err { IfErr result (BreaksOffPlay script.now.end script.now.count
        (works_played (J.replies jobs.now) script.now)) }
{
    let mut moments = script.moments.as_slice();
    let mut now = 0;
    let mut count = 0;
    while count < WORK_LIMIT_V1 {
        let (ops, behind) = turn(now, moments);
        let work = player.moment(now, ops, jobs)?;
        if now >= script.end {
            return Ok(());
        }
        count += work as u32;
        now = player.next_moment(now, script.end, behind);
        moments = behind;
    }
    Err(WorksFault::WorkSpent { count })
}

/// The works at the end of a script's play.
fn play_moments<J: Jobs>(
    alloc: Global,
    script: &WorkScript,
    jobs: &J,
) -> Result<Player<WheelBase>, WorksFault>
    requires { IsWorkScript script.now }
    ensures ok { IfOk result (λ player.
        works_played (J.replies jobs.now) script.now ≡ Finished player) }
    ensures len { IfOk result
        (λ player. length player.works.ledger.standings ≡ script.now.count) }
    ensures err { IfErr result (BreaksOffPlay script.now.end script.now.count
        (works_played (J.replies jobs.now) script.now)) }
{
    let mut player = start(alloc, script.count)?;
    match all_moments(&mut player, script, jobs) {
        Ok(()) => Ok(player),
        Err(fault) => {
            drop(player);
            Err(fault)
        }
    }
}

/// Plays a script of works with these jobs, and answers the output.
///
/// `BadJob` tells the first queueing whose job the table hasn't; nothing is played then.
/// `WorkSpent` tells the count of moments and runs, which is 1,000,000 or more after a moment that
/// isn't the last.
pub fn play_works<J: Jobs>(
    alloc: Global,
    script: &WorkScript,
    jobs: &J,
) -> Result<Vec<u8>, WorksFault>
    requires { IsWorkScript script.now }
    ensures text { IfOk result
        (λ text. text.items ≡ works_text (J.replies jobs.now) script.now) }
    ensures can { IfOk result
        (λ text. CanPlayWorks (J.replies jobs.now) (J.count jobs.now) script.now) }
    ensures why { IfErr result
        (WhyNotPlayed (J.replies jobs.now) (J.count jobs.now) script.now) }
{
    if let Some(UnknownWorkJob { line, job }) = unknown_in(jobs.len(), script.moments.as_slice()) {
        return Err(WorksFault::BadJob { line, job });
    }
    let player = play_moments(alloc, script, jobs)?;
    Ok(player.close(script.count, script.end)?)
}

/// The law of plays of works: each comes to its end, or its work is spent.
pub fn law_plays_end()
    ensures { PlaysEnd }
{}
