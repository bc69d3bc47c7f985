//! What a script says.

use crate::lists::{Moments, Ops};
use tm_base::{Class, CpuId, CpuSet, Jiffy, TimerId};

/// A run: the machine, and what happens in it up to the end.
///
/// Its text begins with `tmig 1` or `tmig 2` and the three numbers of the machine, each behind its
/// word; in version 2 a line of the isolated CPUs follows.
#[derive(Debug, Drop)]
pub struct Script {
    /// The version of the grammar, 1 or 2.
    pub version: u8,
    /// How many nodes the machine has.
    pub nodes: u8,
    /// How many CPUs each node has.
    pub cpus: u8,
    /// How many timers there are; they are numbered from 0.
    pub timers: u16,
    /// The CPUs that stand outside the hierarchy; there are none in version 1.
    pub isolated: CpuSet,
    /// What happens, by ascending time.
    pub moments: Moments,
    /// The last jiffy of the run, from 0; not before the last moment.
    pub end: Jiffy,
}

/// The operations of one jiffy, in the order in which they are done. The text is a line `at A` and
/// a line for each operation.
#[derive(Debug, Drop)]
pub struct Moment {
    /// The jiffy, counted from 0.
    pub at: Jiffy,
    /// The operations; there may be none.
    pub ops: Ops,
}

/// One operation on a CPU.
#[derive(Clone, Copy, Debug, PartialEq, Eq)]
pub struct Op {
    /// The number of its line in the text, from 1.
    pub line: u32,
    /// The CPU that does it.
    pub cpu: CpuId,
    /// What the CPU does.
    pub what: What,
}

/// What an operation does.
#[derive(Clone, Copy, Debug, PartialEq, Eq)]
pub enum What {
    /// The CPU arms the timer: `arm C T CLASS DELAY JOB ARG`. The asked expiry is `delay` jiffies
    /// ahead; the job, by its number, is given the argument when the timer runs.
    Arm {
        timer: TimerId,
        class: Class,
        delay: u32,
        job: u8,
        arg: u32,
    },
    /// The CPU cancels the timer, wherever it is queued: `cancel C T`.
    Cancel {
        timer: TimerId,
    },
    /// The CPU tries to go idle: `idle C`.
    Idle,
    /// The CPU leaves idle: `wake C`.
    Wake,
    /// The CPU goes offline: `offline C`.
    Offline,
    /// The CPU comes online: `online C`.
    Online,
}
