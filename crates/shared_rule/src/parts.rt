//! What the seats of a run's table know. No value of these is made: they stand in contracts alone.

use core_state::{Core, CoreCpu};
use cpu_bases::Entry;
use event_queue::Event;
use std::collections::LinkedList;
use tm_base::{Class, CpuId, Jiffy, TimerId};
use wheel_core::ListBase;

/// A load of a word, and what it found.
#[derive(Clone, Copy)]
pub struct Look {
    /// The index of the word.
    pub word: u64,
    /// The word as it was.
    pub found: u64,
}

/// What a walk has found out by its loads and exchanges.
pub struct Looked {
    /// What it looked at, in order: the group and the slots of the top.
    pub seen: LinkedList<Look>,
    /// What it found as it tried the step of the stage where it stands, in order: the word of a
    /// lock that another walk had; where it joins a group the word that it loaded, and the one that
    /// its exchange found in place of that.
    pub tried: LinkedList<Look>,
}

/// What lies behind a CPU's lock, with the word of a group that its walk read last and what its
/// present or last walk has found out.
pub struct BoxView {
    /// The core with which the run began.
    pub opening: Core<ListBase>,
    /// The CPU, below the number of CPUs.
    pub cpu: u16,
    /// The CPU itself; its walk is shown as not fresh, since no box can know whether it is.
    pub own: CoreCpu<ListBase>,
    /// The CPU's slot in its leaf, None where it is empty or the CPU has no group.
    pub leaf: Option<Event>,
    /// The word of a group that the CPU's walk read last.
    pub read: u64,
    /// What the walk has found out.
    pub looked: Looked,
}

/// An entry of a journal that a pass wrote.
#[derive(Clone, Copy)]
pub struct Receipt {
    /// The line of the script, 0 where none asked for it.
    pub line: u32,
    /// The CPU in whose journal the entry stands.
    pub cpu: CpuId,
    /// Which entry of that journal it is, from 0.
    pub place: usize,
    /// The entry itself.
    pub entry: Entry,
}

/// What a pass may do besides its receipts.
#[derive(Clone, Copy)]
pub enum Deed {
    /// It loaded a word, or tried to exchange it and found another.
    Saw { word: u64, found: u64 },
    /// It set the mark of a CPU.
    Took { cpu: u16 },
    /// It carried the next event of a marked CPU upwards, and the mark is gone.
    Carried { cpu: u16, next: Jiffy },
    /// It took the mark of a CPU back.
    Released { cpu: u16 },
}

/// One deed of a pass, and how many receipts the pass had then.
#[derive(Clone, Copy)]
pub struct Did {
    pub held: u64,
    pub deed: Deed,
}

/// What a CPU's thread knows.
pub struct PassView {
    /// The core with which the run began.
    pub opening: Core<ListBase>,
    /// The CPU, below the number of CPUs.
    pub cpu: u16,
    /// The number of walks begun with the pass.
    pub walks: u32,
    /// The entries that it wrote, in order.
    pub receipts: LinkedList<Receipt>,
    /// What it saw and did, in order.
    pub did: LinkedList<Did>,
    /// Whether its CPU is idle.
    pub idle: bool,
    /// Whether its CPU is inside an interrupt.
    pub inside: bool,
    /// Whether its CPU makes a re-evaluation.
    pub reeval: bool,
    /// When its CPU is woken, in jiffies.
    pub wakeup: Jiffy,
    /// The journal of its CPU as it was when the pass was parted from the CPU's box, or at the
    /// opening.
    pub journal: LinkedList<Entry>,
    /// The CPUs whose mark it has set.
    pub marks: LinkedList<u16>,
}

/// What a seat knows: of each CPU there is one part of either kind over all seats.
pub struct View {
    pub boxes: LinkedList<BoxView>,
    pub passes: LinkedList<PassView>,
}

/// What a step announces that doesn't stand in its words.
#[derive(Clone, Copy)]
pub enum Said {
    /// A timer is armed.
    Arm {
        timer: TimerId,
        class: Class,
        expires: Jiffy,
        job: u8,
        arg: u32,
        line: u32,
    },
    /// A timer is taken out.
    Cancel {
        timer: TimerId,
        line: u32,
    },
    /// The next due timer of a class is handed out.
    Hand {
        class: Class,
    },
}
