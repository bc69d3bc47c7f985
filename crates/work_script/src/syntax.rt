//! What a script of works says.

use crate::lists::{WorkMoments, WorkOps};
use tm_base::Jiffy;

/// Delayed works, and what happens to them up to the end.
#[derive(Debug, Drop)]
pub struct WorkScript {
    /// How many works there are, 1 to 4,096; they are numbered from 0.
    pub count: u16,
    /// What happens, by ascending time.
    pub moments: WorkMoments,
    /// The last jiffy, from 0; not before the last moment.
    pub end: Jiffy,
}

/// The operations of one jiffy, in the order in which they are done.
#[derive(Debug, Drop)]
pub struct WorkMoment {
    /// The jiffy, counted from 0.
    pub at: Jiffy,
    /// The operations; there may be none.
    pub ops: WorkOps,
}

/// One operation on a work. `line` is the number of its line in the text, from 1.
#[derive(Clone, Copy, Debug, PartialEq, Eq)]
pub enum WorkOp {
    /// The work is queued, to be ready `delay` jiffies from now (the kernel's
    /// `queue_delayed_work`): `queue W DELAY JOB ARG`. The job, by its number, is given the
    /// argument when the work runs.
    Queue {
        line: u32,
        work: u16,
        delay: u32,
        job: u8,
        arg: u32,
    },
    /// The work is cancelled (the kernel's `cancel_delayed_work`): `cancel W`.
    Cancel {
        line: u32,
        work: u16,
    },
}
