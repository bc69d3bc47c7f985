//! Works.

ghost use Rattle.std.specs.Prelude.{◌≡◌, ◌+◌, ◌-◌, ◌^◌, ◌<◌, ◌≤◌, ◌==◌, not, length, All};
ghost use Rattle.std.specs.Prelude.{None, IfOk, OnOk, OnErr};
ghost use Rattle.tm_base.specs.declared.names.TheConstants.{TIME_LIMIT};
ghost use Rattle.tm_base.specs.declared.limits.TheConstants.{MOST_TIMERS};
ghost use Rattle.tm_base.specs.declared.names.Class.{Class};
ghost use Rattle.wheel_core.specs.PlainBase.{NoneBehind, NoneDue, item_of, least};
ghost use Rattle.cpu_bases.specs.CpuBases.{base_of, class_in, drained, empty_bases};
ghost use Rattle.delayed_work.specs.Ledger.{is_free, standing_of};
ghost use Rattle.delayed_work.specs.Works.{AreLawfulWorks, all_ready, bases_queued, cancelled_work};
ghost use Rattle.delayed_work.specs.Works.{expired, first_cpu, items_out, ledger_queued, new_works};
ghost use Rattle.delayed_work.specs.Works.{due_with, queue_answer, queue_answer_free, work_left};
ghost use Rattle.delayed_work.specs.Works.{work_queued};
ghost use Rattle.delayed_work.specs.Works.{work_ran};
ghost use Rattle.delayed_work.specs.Works.{told_run};
ghost use Rattle.delayed_work.specs.declared.standing.Standing.{Standing};

use crate::ledger::Ledger;
use crate::standing::{End, Placed, Standing};
use crate::stories::Stories;
use cpu_bases::Bases;
use job_table::{JobCall, JobReply, Jobs};
use std::alloc::Global;
use std::marker::Model;
use tm_base::{Class, CpuId, Jiffy, MOST_TIMERS, NoMemory, TIME_LIMIT, TimerId};
use wheel_core::TimerBase;

/// The CPU whose timers the works wait for, and that runs their jobs.
const FIRST_CPU: CpuId = CpuId(0);

/// Works over the global timers of one CPU (the kernel's `struct delayed_work` on a workqueue of
/// one worker). A work is free, waiting (its timer is queued) or ready; where it isn't free it is
/// pending. The times that its calls are given, in jiffies, don't fall, and are at most
/// [`TIME_LIMIT`] - 2^32.
///
/// A call takes time by what it changes, besides what the bases take. Each takes its room first:
/// want of memory leaves all as it was.
#[derive(Drop)]
pub struct Works<B: TimerBase> {
    bases: Bases<B>,
    ledger: Ledger,
    time: Jiffy,
}

impl<B: TimerBase> Model for Works<B> {
    ghost use Rattle.delayed_work.specs.Works.{AreLawfulWorks, WorksState};

    ghost Value = { WorksState };

    ghost view = { λ w. record { bases = w.bases.plain; ledger = w.ledger.plain; time = w.time } };

    ghost invariant = { (λ w. AreLawfulWorks
        (record { bases = w.bases.plain; ledger = w.ledger.plain; time = w.time })) };
}

/// Accepts a queueing of a free work, for which there is room.
fn accept<B: TimerBase>(
    bases: &mut Bases<B>,
    ledger: &mut Ledger,
    now: Jiffy,
    work: u16,
    delay: u32,
    job: u8,
    arg: u32,
    line: u32,
) -> Placed
    requires now_in_time { now ≤ TIME_LIMIT - 2 ^ 32 }
    requires work { work < length ledger.old.plain.standings }
    requires free { standing_of work ledger.old.plain ≡ Standing.Free }
    requires story_room { length ledger.old.plain.story < ledger.old.capacity }
    requires room { length (base_of Class.Global bases.old.plain).items < bases.old.room.timers }
    requires entry_room { length bases.old.plain.journal < bases.old.room.entries }
    requires not_queued { class_in work bases.old.plain ≡ None }
    requires none_behind { NoneBehind (base_of Class.Global bases.old.plain) }
    ensures answer { result ≡ queue_answer_free now work delay job arg bases.old.plain }
    ensures bases { bases.new.plain
        ≡ bases_queued now work delay job arg line bases.old.plain }
    ensures ledger { ledger.new.plain ≡ ledger_queued work delay job arg ledger.old.plain }
    ensures in_range { delay < 2 ^ 32 }
{
    if delay == 0 {
        ledger.accept_ready(work, job, arg);
        return Placed::Ready;
    }
    let expires = now + u64::from(delay);
    let timer = TimerId(work);
    let wheel = bases.arm(
        now,
        Class::Global,
        timer,
        expires,
        job,
        arg,
        line,
        FIRST_CPU,
    );
    ledger.accept_waiting(work);
    Placed::Waiting(wheel)
}

/// Makes the works of all due timers ready, in the order of hand-out.
fn hand_out<B: TimerBase>(bases: &mut Bases<B>, ledger: &mut Ledger, now: Jiffy)
    requires now_in_time { now < TIME_LIMIT - 1 }
    requires entry_room { length bases.old.plain.journal
        + length (base_of Class.Global bases.old.plain).items < bases.old.room.entries }
    requires works { All (λ item. item.id < length ledger.old.plain.standings)
        (base_of Class.Global bases.old.plain).items }
    requires few { length ledger.old.plain.standings ≤ MOST_TIMERS }
    ensures bases { bases.new.plain
        ≡ drained (length (base_of Class.Global bases.old.plain).items) now Class.Global first_cpu
        bases.old.plain }
    ensures ledger { ledger.new.plain
        ≡ all_ready (items_out (length (base_of Class.Global bases.old.plain).items) now
        bases.old.plain) ledger.old.plain }
{
    while let Some(item) = bases.take_due(now, Class::Global, FIRST_CPU) {
        ledger.come_ready(item.id as u16, item.job, item.arg);
    }
}

impl<B: TimerBase> Works<B> {
    /// So many works, at most 4,096, all free, over bases that are empty and whose clocks are 0.
    /// After want of memory the bases are gone.
    pub fn new(alloc: Global, bases: Bases<B>, count: u16) -> Result<Works<B>, NoMemory>
        requires empty { bases.plain.bases ≡ empty_bases.bases }
        requires few { count ≤ MOST_TIMERS }
        ensures { IfOk result (λ works. works ≡ new_works bases.plain count) }
    {
        let _journal = bases.journal();
        let ledger = Ledger::new(alloc, count)?;
        Ok(Works {
            bases,
            ledger,
            time: 0,
        })
    }

    /// How many works there are.
    pub fn len(&self) -> usize
        ensures len { result ≡ length self.now.ledger.standings }
        ensures lawful { AreLawfulWorks self.now }
    {
        self.ledger.len()
    }

    /// Queues a work, to be ready after a delay in jiffies (the kernel's `queue_delayed_work`).
    /// `Pending` is answered exactly where the work is pending already, and nothing is changed
    /// then. `line` is the line that the journal of the bases names.
    pub fn queue(
        &mut self,
        now: Jiffy,
        work: u16,
        delay: u32,
        job: u8,
        arg: u32,
        line: u32,
    ) -> Result<Placed, NoMemory>
        requires now_in_time { now ≤ TIME_LIMIT - 2 ^ 32 }
        requires times { self.old.time ≤ now }
        requires work { work < length self.old.ledger.standings }
        ensures answer { IfOk result
            (λ answer. answer ≡ queue_answer now work delay job arg self.old) }
        ensures after { OnOk result (self.new ≡ work_queued now work delay job arg line self.old) }
        ensures err { OnErr result (self.new ≡ self.old) }
    {
        let standing = self.ledger.standing(work);
        let Standing::Free = standing else {
            return Ok(Placed::Pending);
        };
        self.ledger.reserve()?;
        self.bases.reserve(1, 1)?;
        let placed = accept(
            &mut self.bases,
            &mut self.ledger,
            now,
            work,
            delay,
            job,
            arg,
            line,
        );
        self.time = now;
        Ok(placed)
    }

    /// Cancels a work (the kernel's `cancel_delayed_work`): true exactly where it was pending. It
    /// is free then.
    pub fn cancel(&mut self, now: Jiffy, work: u16, line: u32) -> Result<bool, NoMemory>
        requires now_in_time { now ≤ TIME_LIMIT - 2 ^ 32 }
        requires times { self.old.time ≤ now }
        requires work { work < length self.old.ledger.standings }
        ensures answer { IfOk result
            (λ was. was ≡ not (is_free (standing_of work self.old.ledger))) }
        ensures after { OnOk result (self.new ≡ cancelled_work now work line self.old) }
        ensures err { OnErr result (self.new ≡ self.old) }
    {
        let standing = self.ledger.standing(work);
        match standing {
            Standing::Free => Ok(false),
            Standing::Waiting { .. } => {
                self.bases.reserve(0, 1)?;
                self.bases.cancel(now, TimerId(work), line, FIRST_CPU);
                self.ledger.end(work, End::Cancelled);
                self.time = now;
                Ok(true)
            }
            Standing::Ready { .. } => {
                self.ledger.end(work, End::Cancelled);
                self.time = now;
                Ok(true)
            }
        }
    }

    /// Moves the works of all due timers to the end of the ready list, in the order of hand-out
    /// (the kernel's `delayed_work_timer_fn`).
    pub fn expire(&mut self, now: Jiffy) -> Result<(), NoMemory>
        requires now_in_time { now ≤ TIME_LIMIT - 2 ^ 32 }
        requires times { self.old.time ≤ now }
        ensures after { OnOk result (self.new ≡ expired now self.old) }
        ensures none_due { OnOk result (NoneDue now (base_of Class.Global self.new.bases).items) }
        ensures err { OnErr result (self.new ≡ self.old) }
    {
        let queued = self.bases.base(Class::Global).len();
        self.bases.reserve(0, queued + 1)?;
        hand_out(&mut self.bases, &mut self.ledger, now);
        self.time = now;
        Ok(())
    }

    /// Takes the first ready work, makes it free and runs its job; where the job answers `Again`
    /// the work is queued again, and the class that it names is set aside. The answer is the work,
    /// the job's reply, and where the work was queued again; None exactly where none is ready.
    pub fn run_next<J: Jobs>(
        &mut self,
        now: Jiffy,
        jobs: &J,
    ) -> Result<Option<(u16, JobReply, Option<Placed>)>, NoMemory>
        requires now_in_time { now ≤ TIME_LIMIT - 2 ^ 32 }
        requires times { self.old.time ≤ now }
        ensures answer { IfOk result
            (λ run. run ≡ told_run (J.replies jobs.now) now self.old) }
        ensures after { OnOk result (self.new ≡ work_ran (J.replies jobs.now) now self.old) }
        ensures err { OnErr result (self.new ≡ self.old) }
    {
        let Some(work) = self.ledger.first_ready() else {
            return Ok(None);
        };
        let standing = self.ledger.standing(work);
        let Standing::Ready { job, arg, .. } = standing else {
            return Ok(None);
        };
        self.ledger.reserve()?;
        self.bases.reserve(1, 1)?;
        let call = JobCall {
            timer: TimerId(work),
            arg,
            now,
            runner: FIRST_CPU,
        };
        let reply = jobs.run(job, &call);
        self.ledger.end(work, End::Ran);
        self.time = now;
        let JobReply::Again { delay, .. } = reply else {
            return Ok(Some((work, reply, None)));
        };
        let placed = accept(
            &mut self.bases,
            &mut self.ledger,
            now,
            work,
            delay,
            job,
            arg,
            0,
        );
        Ok(Some((work, reply, Some(placed))))
    }

    /// The last time at which a call changed something, in jiffies.
    pub fn time(&self) -> Jiffy
        ensures { result ≡ self.now.time }
    {
        self.time
    }

    /// How many works are ready.
    pub fn ready_len(&self) -> usize
        ensures { result ≡ length self.now.ledger.ready }
    {
        self.ledger.ready_len()
    }

    /// The least wheel expiry of a waiting work, in jiffies; None exactly where none waits.
    pub fn first(&self) -> Option<Jiffy>
        ensures { result ≡ least (base_of Class.Global self.now.bases).items }
    {
        self.bases.base(Class::Global).first()
    }

    /// Where a pending work stands: ready, or waiting for a timer of this wheel expiry in jiffies;
    /// None where it is free.
    pub fn left(&self, work: u16) -> Option<Placed>
        requires { work < length self.now.ledger.standings }
        ensures { result ≡ work_left work self.now }
    {
        let standing = self.ledger.standing(work);
        match standing {
            Standing::Free => None,
            Standing::Waiting { .. } => self.due_of(work),
            Standing::Ready { .. } => Some(Placed::Ready),
        }
    }

    /// Where a work that waits stands, by its timer.
    fn due_of(&self, work: u16) -> Option<Placed>
        ensures { result ≡ due_with (item_of work (base_of Class.Global self.now.bases).items) }
    {
        match self.bases.base(Class::Global).get(u32::from(work)) {
            None => None,
            Some(item) => Some(Placed::Waiting(item.wheel)),
        }
    }

    /// What became of each queueing so far.
    pub fn story(&self) -> &Stories
        ensures { result.now.entries ≡ self.now.ledger.story }
    {
        self.ledger.story()
    }
}
