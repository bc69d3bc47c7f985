//! What stands in the lines of a script of works, and what is known of it before a line.

use crate::syntax::WorkOp;
use tm_base::Jiffy;

/// The bound below which the number of a job is.
pub const JOB_LIMIT: u64 = 256;

/// The bound below which a delay is, in jiffies: 2^32.
pub const DELAY_LIMIT: u64 = 4_294_967_296;

/// The bound below which the argument of a job is: 2^32.
pub const ARG_LIMIT: u64 = 4_294_967_296;

/// The place of a number: at least `least`, and below `bound`.
#[derive(Clone, Copy)]
pub struct NumberSlot {
    /// The least number that may stand here.
    pub least: u64,
    /// The bound below which the number is.
    pub bound: u64,
}

/// The first word of a line behind the first two.
#[derive(Clone, Copy)]
pub enum WorkCommand {
    At,
    Queue,
    Cancel,
    End,
}

/// What the lines before a line said.
#[derive(Clone, Copy)]
pub struct WorkKnown {
    /// The number of the line, from 1.
    pub line: u32,
    /// How many works there are.
    pub count: u16,
    /// The time of the last moment, where there was one.
    pub last: Option<Jiffy>,
    /// How many operations that moment has so far.
    pub ops: u32,
}

/// What a line says.
#[derive(Clone, Copy)]
pub enum WorkSaid {
    /// A moment begins at this time.
    Opening(Jiffy),
    /// This is done.
    Operation(WorkOp),
    /// The script ends at this time.
    Ending(Jiffy),
}
