//! Works in play, and what is told of them.

ghost use Rattle.std.specs.Prelude.{◌≡◌, ◌+◌, ◌-◌, ◌^◌, ◌<◌, ◌≤◌, ◌++◌, length, IfOk, OnOk};
ghost use Rattle.tm_base.specs.declared.names.TheConstants.{TIME_LIMIT};
ghost use Rattle.delayed_work.specs.Playable.{AreInRange, StaysPlayable, NamesWork};
ghost use Rattle.delayed_work.specs.Play.{all_done, closing_lines, work_op_done};
ghost use Rattle.delayed_work.specs.Play.{left_lines, next_works_moment, run_all, works_moment};
ghost use Rattle.delayed_work.specs.Play.{moment_work, run_one};

use crate::printing::{tell_cancelled, tell_end, tell_left, tell_queued, tell_ran};
use crate::works::Works;
use job_table::Jobs;
use std::marker::Model;
use tm_base::{Jiffy, NoMemory};
use wheel_core::TimerBase;
use work_script::{WorkMoment, WorkOp};

/// Works in play, and the lines that were told so far.
#[derive(Drop)]
pub(crate) struct Player<B: TimerBase> {
    pub(crate) works: Works<B>,
    pub(crate) text: Vec<u8>,
}

impl<B: TimerBase> Model for Player<B> {
    ghost use Rattle.delayed_work.specs.Play.{Playing};

    ghost Value = { Playing };

    ghost view = { λ p. record { works = p.works; text = p.text.items } };
}

impl<B: TimerBase> Player<B> {
    /// Does one line of a script.
    fn do_one(&mut self, now: Jiffy, op: &WorkOp) -> Result<(), NoMemory>
        requires now_in_time { now ≤ TIME_LIMIT - 2 ^ 32 }
        requires times { self.old.works.time ≤ now }
        requires work { NamesWork (length self.old.works.ledger.standings) op.now }
        ensures after { OnOk result (self.new ≡ work_op_done now op.now self.old) }
        ensures keeps { OnOk result (StaysPlayable now self.old self.new) }
    {
        match *op {
            WorkOp::Queue {
                line,
                work,
                delay,
                job,
                arg,
            } => {
                let placed = self.works.queue(now, work, delay, job, arg, line)?;
                tell_queued(&mut self.text, now, work, placed)
            }
            WorkOp::Cancel { line, work } => {
                let was_pending = self.works.cancel(now, work, line)?;
                tell_cancelled(&mut self.text, now, work, was_pending)
            }
        }
    }

    /// Does lines of a script, in order.
    fn do_all(&mut self, now: Jiffy, ops: &[WorkOp]) -> Result<(), NoMemory>
        requires now_in_time { now ≤ TIME_LIMIT - 2 ^ 32 }
        requires times { self.old.works.time ≤ now }
        requires works { AreInRange (length self.old.works.ledger.standings) ops.now }
        ensures after { OnOk result (self.new ≡ all_done now ops.now self.old) }
        ensures keeps { OnOk result (StaysPlayable now self.old self.new) }
    {
        for op in ops {
            self.do_one(now, op)?;
        }
        Ok(())
    }

    /// Runs the next ready work.
    fn run_one<J: Jobs>(&mut self, now: Jiffy, jobs: &J) -> Result<(), NoMemory>
        requires now_in_time { now ≤ TIME_LIMIT - 2 ^ 32 }
        requires times { self.old.works.time ≤ now }
        ensures after { OnOk result (self.new ≡ run_one (J.replies jobs.now) now self.old) }
        ensures keeps { OnOk result (StaysPlayable now self.old self.new) }
    {
        let Some((work, reply, placed)) = self.works.run_next(now, jobs)? else {
            return Ok(());
        };
        tell_ran(&mut self.text, now, work, reply, placed)
    }

    /// Runs so many works, one after the other.
    fn run_all<J: Jobs>(&mut self, n: usize, now: Jiffy, jobs: &J) -> Result<(), NoMemory>
        requires now_in_time { now ≤ TIME_LIMIT - 2 ^ 32 }
        requires times { self.old.works.time ≤ now }
        ensures after { OnOk result (self.new ≡ run_all (J.replies jobs.now) n now self.old) }
        ensures keeps { OnOk result (StaysPlayable now self.old self.new) }
    {
        for _ in 0..n {
            self.run_one(now, jobs)?;
        }
        Ok(())
    }

    /// Plays one moment, and answers how much work it was: the moment, and the works that it runs.
    pub(crate) fn moment<J: Jobs>(
        &mut self,
        now: Jiffy,
        ops: &[WorkOp],
        jobs: &J,
    ) -> Result<usize, NoMemory>
        requires now_in_time { now ≤ TIME_LIMIT - 2 ^ 32 }
        requires times { self.old.works.time ≤ now }
        requires works { AreInRange (length self.old.works.ledger.standings) ops.now }
        ensures after { OnOk result
            (self.new ≡ works_moment (J.replies jobs.now) now ops.now self.old) }
        ensures work { IfOk result (λ n. n ≡ moment_work now ops.now self.old) }
        ensures few { IfOk result (λ n. n ≤ 1 + length self.old.works.ledger.standings) }
        ensures keeps { OnOk result (StaysPlayable now self.old self.new) }
    {
        self.works.expire(now)?;
        self.do_all(now, ops)?;
        let ready = self.works.ready_len();
        let _works = self.works.len();
        self.run_all(ready, now, jobs)?;
        Ok(1 + ready)
    }

    /// The time of the next moment.
    pub(crate) fn next_moment(&self, now: Jiffy, end: Jiffy, moments: &[WorkMoment]) -> Jiffy
        requires { now < end }
        ensures next { result ≡ next_works_moment now end moments.now self.now.works }
        ensures later { now < result }
        ensures not_past { result ≤ end }
    {
        if self.works.ready_len() > 0 {
            return now + 1;
        }
        let mut next = end;
        if let [moment, ..] = moments {
            next = next.min(moment.at);
        }
        if let Some(first) = self.works.first() {
            next = next.min(first);
        }
        next.max(now + 1)
    }

    /// Where works from this one on are left.
    fn tell_works(&mut self, count: u16) -> Result<(), NoMemory>
        requires { count ≤ length self.old.works.ledger.standings }
        ensures text { OnOk result
            (self.new.text ≡ self.old.text ++ left_lines count 0 self.old.works) }
        ensures works { self.new.works ≡ self.old.works }
    {
        for work in 0..count {
            let left = self.works.left(work);
            tell_left(&mut self.text, work, left)?;
        }
        Ok(())
    }

    /// The lines at the end of a play.
    fn tell_closing(&mut self, count: u16, end: Jiffy) -> Result<(), NoMemory>
        requires { count ≤ length self.old.works.ledger.standings }
        ensures { OnOk result
            (self.new.text ≡ self.old.text ++ closing_lines count end self.old.works) }
    {
        self.tell_works(count)?;
        tell_end(&mut self.text, end)
    }

    /// The output of a play that is at its end.
    pub(crate) fn close(self, count: u16, end: Jiffy) -> Result<Vec<u8>, NoMemory>
        requires { count ≤ length self.works.ledger.standings }
        ensures { IfOk result
            (λ text. text.items ≡ self.text ++ closing_lines count end self.works) }
    {
        let mut player = self;
        let told = player.tell_closing(count, end);
        let Player { works, text } = player;
        drop(works);
        match told {
            Ok(()) => Ok(text),
            Err(fault) => Err(fault),
        }
    }
}
