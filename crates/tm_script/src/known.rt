//! What the lines of a script say, and what is known of it before a line.

use crate::syntax::What;
use tm_base::{CpuId, CpuSet, Jiffy};

/// Which line comes next.
#[derive(Clone, Copy)]
pub enum Place {
    /// The first: `tmig 1` or `tmig 2`.
    VersionLine,
    /// The second: `nodes N`.
    NodesLine,
    /// The third: `cpus P`.
    CpusLine,
    /// The fourth: `timers T`.
    TimersLine,
    /// The fifth in version 2: `isolated` and numbers of CPUs.
    IsolatedLine,
    /// A moment's, an operation's, or `end E`.
    Body,
    /// None: the line `end E` was read.
    Over,
}

/// The first word of a line.
#[derive(Clone, Copy)]
pub enum Command {
    Tmig,
    Nodes,
    Cpus,
    Timers,
    Isolated,
    At,
    End,
    Arm,
    Cancel,
    Idle,
    Wake,
    Offline,
    Online,
}

/// What the lines before a line said.
#[derive(Clone, Copy)]
pub struct Known {
    /// The number of the line, from 1.
    pub line: u32,
    /// Which line it has to be.
    pub place: Place,
    /// The version, from the second line on.
    pub version: u8,
    /// How many nodes there are, from the third line on.
    pub nodes: u8,
    /// How many CPUs a node has, from the fourth line on.
    pub cpus: u8,
    /// How many timers there are, from the fifth line on.
    pub timers: u16,
    /// The time of the last moment, where there was one.
    pub last: Option<Jiffy>,
    /// How many operations that moment has so far.
    pub ops: u32,
    /// Whether the moment's last operation was `offline` or `online`, behind which none may follow.
    pub closed: bool,
}

/// What a line says.
#[derive(Drop)]
pub enum Said {
    /// The version.
    Version(u8),
    /// How many nodes there are.
    NodeCount(u8),
    /// How many CPUs each node has.
    CpuCount(u8),
    /// How many timers there are.
    TimerCount(u16),
    /// The isolated CPUs.
    IsolatedCpus(CpuSet),
    /// A moment begins at this time.
    Opening(Jiffy),
    /// The CPU does this.
    Operation(CpuId, What),
    /// The run ends at this time.
    Ending(Jiffy),
}
