//! Of the lines that a report shows, against the machine that is played: what they tell is so. Each
//! of these functions does nothing; its contract is the law.

ghost use Rattle.play_laws.specs.Told.Covers.{CoversAreTrue};
ghost use Rattle.play_laws.specs.Told.Journals.{EachTimerIsTold, RunsAreHandOuts};
ghost use Rattle.play_laws.specs.Told.Left.{LeftAreQueued};
ghost use Rattle.play_laws.specs.Told.Runners.{RunnersMayRun};
ghost use Rattle.play_laws.specs.Told.Runs.{EachHasItsRun};

/// The `run` lines of a report are, CPU by CPU, one to one and in order the hand-outs of the
/// journals. And what the lines tell of a timer on a CPU, by `arm`, `run`, `again`, `cancel` and
/// `moved`, is what that CPU's journal tells of it. Both hold after each moment of every script's
/// play. The runner of each `run` line is online and due an interrupt as its moment begins.
pub fn law_lines()
    ensures runs { RunsAreHandOuts }
    ensures timers { EachTimerIsTold }
    ensures runners { RunnersMayRun }
{}

/// The `left` lines of every script's play are the timers that are queued after its last moment,
/// each once, in ascending order: timer, CPU, class and wheel expiry.
pub fn law_left()
    ensures { LeftAreQueued }
{}

/// The `cover` lines of each moment of a script tell who answers in the state after it, by the
/// definitions of `coverage`, for the first global timer of an idle CPU. Each online idle CPU that
/// has one has one such line, and other moments have none.
pub fn law_covers()
    ensures { CoversAreTrue }
{}

/// What the lines of every script's play tell of a timer on a CPU are armings, each followed by its
/// end. So an arming (`arm`, `again`, `moved`) of a pinned or global timer whose wheel expiry comes
/// by the end of the play has one `run` line, in that jiffy, unless a `cancel` or `moved` line
/// comes before it; a deferrable one runs no sooner. Each `run` line ends an arming.
pub fn law_each_runs()
    ensures { EachHasItsRun }
{}
