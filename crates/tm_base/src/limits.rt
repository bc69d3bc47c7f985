//! The limits of scripts, of the machines that they name, and of the work that they call for.

use crate::{Jiffy, NEVER, TIME_LIMIT};

/// The most nodes that a script may have.
pub const MOST_NODES: u8 = 8;

/// The most CPUs that a node may have.
pub const MOST_NODE_CPUS: u8 = 64;

/// The most CPUs, of all nodes together, in version 1.
pub const MOST_CPUS_V1: u16 = 64;

/// The most CPUs, of all nodes together, in version 2.
pub const MOST_CPUS_V2: u16 = 512;

const _: () = prove!(MOST_CPUS_V2 == MOST_NODES as u16 * MOST_NODE_CPUS as u16);

/// How many numbers of CPUs a `CpuSet` can hold: 0 to 511.
pub const CPU_SET_SIZE: u16 = 512;

const _: () = prove!(CPU_SET_SIZE == MOST_CPUS_V2);

/// The most timers that a script may have: 2^12.
pub const MOST_TIMERS: u16 = 4_096;

const _: () = prove!(MOST_TIMERS == 1 << 12);

/// Each time of a script, in jiffies, is below it: 2^40.
pub const SCRIPT_TIME_LIMIT: Jiffy = 1_099_511_627_776;

const _: () = prove!(SCRIPT_TIME_LIMIT == 1 << 40);

const _: () = prove!(SCRIPT_TIME_LIMIT < TIME_LIMIT);

const _: () = prove!(TIME_LIMIT < NEVER);

/// The most lines that a script may have: 2^16.
pub const MOST_LINES: u32 = 65_536;

const _: () = prove!(MOST_LINES == 1 << 16);

/// The most operations that a moment of a script may have: 2^12.
pub const MOST_OPS: u32 = 4_096;

const _: () = prove!(MOST_OPS == 1 << 12);

/// The most bytes that a script may have: 2^22.
pub const MOST_BYTES: usize = 4_194_304;

const _: () = prove!(MOST_BYTES == 1 << 22);

/// Where moments, interrupts and hand-outs together come to this number, the work of a script of
/// version 1 is spent.
pub const WORK_LIMIT_V1: u32 = 1_000_000;

/// Where moments, interrupts and hand-outs together come to this number, the work of a script of
/// version 2 is spent.
pub const WORK_LIMIT_V2: u32 = 4_000_000;

const _: () = prove!(WORK_LIMIT_V2 == 4 * WORK_LIMIT_V1);

/// The most children that a group may have (the kernel's `TMIGR_CHILDREN_PER_GROUP`).
pub const GROUP_SIZE: u8 = 8;
