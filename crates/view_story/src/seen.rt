//! What the lines of a report told so far of timers and CPUs.

ghost use Rattle.std.specs.Prelude.{◌≡◌};
ghost use Rattle.view_story.specs.Seen.{absent_cpu, cpu_at, down, fresh_timer, opening_of};
ghost use Rattle.view_story.specs.Seen.{timer_at, up, with_cpu, with_timer};

use std::marker::Model;
use tm_base::{Class, CpuId, Jiffy, NEVER, TimerId};

/// A timer as it is queued.
#[derive(Clone, Copy)]
pub struct Queued {
    /// The CPU in whose base it is.
    pub home: CpuId,
    pub class: Class,
    /// The asked expiry, in jiffies.
    pub expires: Jiffy,
    /// The wheel expiry, in jiffies.
    pub wheel: Jiffy,
    /// The level of the wheel, 0 to 8.
    pub level: u8,
    pub job: u8,
    pub arg: u32,
    /// The number of the line that told of it; the arming order of a base.
    pub turn: u64,
}

/// Which CPUs changed a timer within a moment.
#[derive(Clone, Copy)]
pub enum Touch {
    Nobody,
    One(CpuId),
    Several,
}

/// What was told of a timer.
#[derive(Clone, Copy)]
pub struct TimerSeen {
    pub timer: TimerId,
    /// Where it is queued, as the lines tell in their order.
    pub place: Option<Queued>,
    /// Whether the order of lines is the order of what happened to it. Where CPUs meet over a timer
    /// in one moment it may not be; a later line of it settles that.
    pub clear: bool,
    /// Who changed it in the moment `touched`.
    pub touch: Touch,
    /// The last moment in which a CPU changed it.
    pub touched: Jiffy,
}

/// Whether a CPU is online, and idle.
#[derive(Clone, Copy)]
pub struct State {
    pub online: bool,
    pub idle: bool,
}

/// The times before which the bases of a CPU have handed all out.
#[derive(Clone, Copy)]
pub struct Clocks {
    pub pinned: Jiffy,
    pub global: Jiffy,
    pub deferrable: Jiffy,
}

/// The timer that a CPU's bases handed out last.
#[derive(Clone, Copy)]
pub struct Out {
    /// The moment in which they did.
    pub at: Jiffy,
    pub class: Class,
    pub wheel: Jiffy,
    pub level: u8,
    pub turn: u64,
}

/// What was told of a CPU.
#[derive(Clone, Copy)]
pub struct CpuSeen {
    pub cpu: CpuId,
    pub state: State,
    /// The moment in which the state changed last.
    pub changed: Jiffy,
    /// The state with which that moment began.
    pub before: State,
    /// While it is idle it has no interrupt before this jiffy.
    pub quiet: Jiffy,
    pub clocks: Clocks,
    pub out: Option<Out>,
    /// How many global timers are queued on it.
    pub globals: u64,
    /// How many timers are.
    pub timers: u64,
}

/// Which lines may still come in a moment.
#[derive(Clone, Copy)]
pub enum Stage {
    /// Lines of interrupts and operations, and all others.
    Tellers,
    /// Moved timers, and covers.
    Moves,
    /// Covers.
    Covers,
    /// What is left at the end.
    Lefts,
    /// Nothing.
    Over,
}

/// Where the lines stand.
#[derive(Clone, Copy)]
pub struct Point {
    /// Whether the lines stand in the order of `play`.
    pub play: bool,
    /// The time of the moment, in jiffies.
    pub time: Jiffy,
    /// Whether the script has a moment at this time.
    pub listed: bool,
    /// Which of the script's moments comes next.
    pub next: usize,
    pub stage: Stage,
    /// The CPU of the operation that was answered last.
    pub answered_cpu: CpuId,
    /// The line of that operation in the script, or 0.
    pub answered: u32,
    /// The CPU whose run was told last in the moment.
    pub runner: Option<CpuId>,
    /// Whose timers it runs by now: 0 its own pinned ones, 1 global, 2 deferrable, 3 of others.
    pub rank: u8,
    /// The CPU of the line before, where that is `offline`.
    pub leaving: Option<CpuId>,
    /// The CPU that went offline in the moment.
    pub dead: Option<CpuId>,
    /// The CPU to which the first event was handed.
    pub handed: Option<CpuId>,
    /// The CPU to which timers move.
    pub control: Option<CpuId>,
    /// Of which class the last one was that moved: 0 pinned, 1 global, 2 deferrable.
    pub moved_rank: u8,
    /// Its turn.
    pub moved_turn: u64,
    /// The CPU from which on covers may come.
    pub covered: u16,
    /// The timer from which on timers may be left.
    pub left: u16,
    /// How many timers aren't clear.
    pub unclear: u64,
    /// How many timers ran.
    pub runs: u64,
}

/// What was told so far.
#[derive(Drop)]
pub struct Seen {
    timers: Vec<TimerSeen>,
    cpus: Vec<CpuSeen>,
    point: Point,
}

impl Model for Seen {
    ghost use Rattle.view_story.specs.Sight.{StorySight};

    ghost Value = { StorySight };

    ghost view = { λ s. record { timers = s.timers.items; cpus = s.cpus.items; point = s.point } };
}

/// A timer of which nothing was told.
pub fn fresh_timer(timer: TimerId) -> TimerSeen
    ensures { result ≡ fresh_timer timer }
{
    TimerSeen {
        timer,
        place: None,
        clear: true,
        touch: Touch::Nobody,
        touched: NEVER,
    }
}

/// A CPU that isn't there.
pub fn absent_cpu(cpu: CpuId) -> CpuSeen
    ensures { result ≡ absent_cpu cpu }
{
    let state = State {
        online: false,
        idle: false,
    };
    CpuSeen {
        cpu,
        state,
        changed: NEVER,
        before: state,
        quiet: NEVER,
        clocks: Clocks {
            pinned: 0,
            global: 0,
            deferrable: 0,
        },
        out: None,
        globals: 0,
        timers: 0,
    }
}

/// One more, or the same at the end of the type.
pub fn up(n: u64) -> u64
    ensures { result ≡ up n }
{
    if n < u64::MAX { n + 1 } else { n }
}

/// One less, or none.
pub fn down(n: u64) -> u64
    ensures { result ≡ down n }
{
    if n > 0 { n - 1 } else { 0 }
}

/// The state with which a CPU began a moment.
pub fn opening_of(cpu: &CpuSeen, now: Jiffy) -> State
    ensures { result ≡ opening_of cpu.now now }
{
    if cpu.changed == now {
        cpu.before
    } else {
        cpu.state
    }
}

impl Seen {
    /// All that was told.
    pub fn new(timers: Vec<TimerSeen>, cpus: Vec<CpuSeen>, point: Point) -> Seen
        ensures { result ≡ record { timers = timers.items; cpus = cpus.items; point = point } }
    {
        Seen {
            timers,
            cpus,
            point,
        }
    }

    /// The timers, by number.
    pub fn timers(&self) -> &[TimerSeen]
        ensures { result.now ≡ self.now.timers }
    {
        self.timers.as_slice()
    }

    /// The CPUs, by number.
    pub fn cpus(&self) -> &[CpuSeen]
        ensures { result.now ≡ self.now.cpus }
    {
        self.cpus.as_slice()
    }

    /// Where the lines stand.
    pub fn point(&self) -> Point
        ensures { result ≡ self.now.point }
    {
        self.point
    }

    /// Moves on to there.
    pub fn set_point(&mut self, point: Point)
        ensures { self.new ≡ record self.old { point = point } }
    {
        self.point = point;
    }

    /// A timer; one that the script hasn't is queued nowhere.
    pub fn timer(&self, timer: TimerId) -> TimerSeen
        ensures { result ≡ timer_at self.now timer }
    {
        match self.timers.get(timer.0 as usize) {
            Some(found) => *found,
            None => fresh_timer(timer),
        }
    }

    /// A CPU; one that the script hasn't is offline.
    pub fn cpu(&self, cpu: CpuId) -> CpuSeen
        ensures { result ≡ cpu_at self.now cpu }
    {
        match self.cpus.get(cpu.0 as usize) {
            Some(found) => *found,
            None => absent_cpu(cpu),
        }
    }

    /// Keeps what was told of a timer.
    #[tactic(auto, unfolding(crate::specs::Seen::with_timer))]
    pub fn put_timer(&mut self, timer: TimerSeen)
        ensures { self.new ≡ with_timer self.old timer }
    {
        let at = timer.timer.0 as usize;
        if at < self.timers.len() {
            self.timers[at] = timer;
        }
    }

    /// Keeps what was told of a CPU.
    #[tactic(auto, unfolding(crate::specs::Seen::with_cpu))]
    pub fn put_cpu(&mut self, cpu: CpuSeen)
        ensures { self.new ≡ with_cpu self.old cpu }
    {
        let at = cpu.cpu.0 as usize;
        if at < self.cpus.len() {
            self.cpus[at] = cpu;
        }
    }
}
