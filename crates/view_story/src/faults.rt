//! What may be wrong with a line of a report.

ghost use Rattle.std.specs.Prelude.{◌≡◌};
ghost use Rattle.view_story.specs.Faults.{clause_of};

/// The clauses of what a story is.
#[derive(Clone, Copy)]
pub enum Clause {
    /// The times of lines are those of moments, and ascend.
    Moments,
    /// Wheel expiries are those of the timer wheel, and timers go out in its order.
    Journals,
    /// A timer runs where it was queued, by a CPU that may run it, and none that is due is left
    /// out.
    Runs,
    /// Each operation has one line, which tells what came of it.
    Operations,
    /// An operation is refused exactly where the state of its CPU says so.
    Refusals,
    /// Who goes idle has a wakeup in time, and idle CPUs are covered.
    Idle,
    /// Timers of a CPU that went offline are moved, and what is left is told at the end.
    Close,
    /// The lines of a moment stand by ascending CPU.
    Order,
}

/// What is wrong with a line.
#[derive(Clone, Copy)]
pub enum Fault {
    /// The line is none of a run.
    Foreign,
    /// Its time is before that of the line above it.
    BackInTime,
    /// There is no moment at its time.
    NoMoment,
    /// It stands behind the end, or the end is at another time.
    NotTheEnd,
    /// The report ends before the run does.
    Unended,
    /// An operation of the script is unanswered before it.
    Skipped,
    /// No operation of the script is answered by it.
    NoOperation,
    /// The timer was queued.
    StillQueued,
    /// The timer wasn't queued there.
    NotQueuedThere,
    /// The CPU's state refuses the operation.
    MustRefuse,
    /// The CPU's state doesn't refuse the operation, or not so.
    MayNotRefuse,
    /// A wheel expiry isn't that of the timer wheel.
    Wheel,
    /// Another timer of its base goes out before.
    Turn,
    /// The timer wasn't queued so.
    NotQueuedSo,
    /// The timer isn't due.
    Early,
    /// The CPU that runs it has no interrupt.
    NoInterrupt,
    /// The CPU may not run this timer.
    NotForRunner,
    /// The job replies otherwise.
    Reply,
    /// A timer that was due has not run before it.
    Missed,
    /// The CPU's first event is another one.
    First,
    /// The CPU has an event within a jiffy, and so doesn't go idle.
    Soon,
    /// The CPU's first event is more than a jiffy ahead, and so it doesn't stay.
    Late,
    /// The wakeup isn't in time.
    Wakeup,
    /// An idle CPU has no cover before it.
    Uncovered,
    /// The CPU needs no cover here.
    NoCover,
    /// Who is named doesn't answer for the timer.
    Answer,
    /// The CPU to which timers or events are handed is another one.
    Control,
    /// No timer is moved so.
    Moved,
    /// A timer of a CPU that went offline has not moved before it.
    Unmoved,
    /// No timer is left so.
    Left,
    /// A timer is left that isn't told.
    Untold,
    /// It doesn't stand there in its moment.
    Order,
}

impl Fault {
    /// The clause that fails.
    pub fn clause(self) -> Clause
        ensures { result ≡ clause_of self }
    {
        match self {
            Fault::Foreign
            | Fault::BackInTime
            | Fault::NoMoment
            | Fault::NotTheEnd
            | Fault::Unended => Clause::Moments,
            Fault::Skipped | Fault::NoOperation | Fault::StillQueued | Fault::NotQueuedThere => {
                Clause::Operations
            }
            Fault::MustRefuse | Fault::MayNotRefuse => Clause::Refusals,
            Fault::Wheel | Fault::Turn => Clause::Journals,
            Fault::NotQueuedSo
            | Fault::Early
            | Fault::NoInterrupt
            | Fault::NotForRunner
            | Fault::Reply
            | Fault::Missed => Clause::Runs,
            Fault::First
            | Fault::Soon
            | Fault::Late
            | Fault::Wakeup
            | Fault::Uncovered
            | Fault::NoCover
            | Fault::Answer => Clause::Idle,
            Fault::Control | Fault::Moved | Fault::Unmoved | Fault::Left | Fault::Untold => {
                Clause::Close
            }
            Fault::Order => Clause::Order,
        }
    }
}
