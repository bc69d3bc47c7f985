//! The share of a CPU in a round, and what all shares leave.

ghost use Rattle.std.specs.Prelude.{IfOk};
ghost use Rattle.run_shares.specs.Tasks.{AreGathered};

use idle_wakeup::Pass;
use std::alloc::Global;
use tm_base::NoMemory;
use tm_report::Line;

/// What a CPU's thread gives back: its pass, the lines that it tells, and whether memory was
/// enough.
#[derive(Drop)]
pub struct Share {
    pub pass: Pass,
    pub lines: Vec<Line>,
    pub ended: Result<(), NoMemory>,
}

/// The passes and the lines of all shares, in the order of their CPUs, where memory was enough for
/// each of them.
pub fn gather(alloc: Global, shares: Vec<Share>) -> Result<(Vec<Pass>, Vec<Line>), NoMemory>
    ensures { IfOk result (λ r. AreGathered shares.items r.0.items r.1.items) }
{
    let mut passes = Vec::with_capacity(alloc, shares.len())?;
    let mut lines = Vec::new(alloc);
    for share in shares {
        let Share {
            pass,
            lines: mut told,
            ended,
        } = share;
        ended?;
        passes.push(pass)?;
        lines.append(&mut told)?;
    }
    Ok((passes, lines))
}
