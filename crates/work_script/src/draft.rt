//! A script of works as far as it was read.

ghost use Rattle.std.specs.Prelude.{◌≡◌, ◌+◌, ◌-◌, ◌<◌, ◌^◌, [], IfOk, OnOk};
ghost use Rattle.work_script.specs.Faults.{known_first};
ghost use Rattle.work_script.specs.Steps.{work_closed_with, work_draft_after};
ghost use Rattle.work_script.specs.declared.words.WorkSaid.{WorkSaid};

use crate::lists::{WorkMoments, WorkOps};
use crate::syntax::{WorkMoment, WorkOp, WorkScript};
use crate::words::WorkKnown;
use std::alloc::Global;
use std::mem;
use tm_base::{Jiffy, NoMemory};

/// The number of the first line behind the first two.
pub(crate) const FIRST_LINE: u32 = 3;

/// What was read, the last moment open for further operations.
#[derive(Drop)]
pub(crate) struct Draft {
    /// What the lines so far said.
    pub(crate) known: WorkKnown,
    /// The closed moments.
    pub(crate) moments: WorkMoments,
    /// The operations of the open moment.
    pub(crate) ops: WorkOps,
}

impl Draft {
    /// No moments of so many works.
    pub(crate) fn new(alloc: Global, count: u16) -> Draft
        ensures { result ≡ record { known = known_first count; moments = []; ops = [] } }
    {
        Draft {
            known: WorkKnown {
                line: FIRST_LINE,
                count,
                last: None,
                ops: 0,
            },
            moments: WorkMoments::new(alloc),
            ops: WorkOps::new(alloc),
        }
    }

    /// Puts the open moment, where there is one, behind the closed ones.
    fn close(&mut self, alloc: Global) -> Result<(), NoMemory>
        ensures { OnOk result (self.new ≡ record self.old {
          moments = work_closed_with self.old.moments self.old.known.last self.old.ops;
          ops = [];
        }) }
    {
        let ops = mem::replace(&mut self.ops, WorkOps::new(alloc));
        if let Some(at) = self.known.last {
            self.moments.push(WorkMoment { at, ops })?;
        }
        Ok(())
    }

    /// A moment begins at this time.
    pub(crate) fn open(&mut self, alloc: Global, at: Jiffy) -> Result<(), NoMemory>
        requires { self.old.known.line < 2 ^ 32 - 1 }
        ensures { OnOk result (self.new ≡ work_draft_after self.old (WorkSaid.Opening at)) }
    {
        self.close(alloc)?;
        self.known.last = Some(at);
        self.known.ops = 0;
        self.known.line += 1;
        Ok(())
    }

    /// Takes in an operation.
    pub(crate) fn add(&mut self, op: WorkOp) -> Result<(), NoMemory>
        requires lines { self.old.known.line < 2 ^ 32 - 1 }
        requires ops { self.old.known.ops < 2 ^ 32 - 1 }
        ensures { OnOk result (self.new ≡ work_draft_after self.old (WorkSaid.Operation op)) }
    {
        self.ops.push(op)?;
        self.known.ops += 1;
        self.known.line += 1;
        Ok(())
    }

    /// The script of the draft, up to this end.
    pub(crate) fn script(self, alloc: Global, end: Jiffy) -> Result<WorkScript, NoMemory>
        ensures { IfOk result (λ s. s ≡ record {
          count = self.known.count;
          moments = work_closed_with self.moments self.known.last self.ops;
          end = end;
        }) }
    {
        let mut draft = self;
        draft.close(alloc)?;
        let Draft {
            known,
            moments,
            ops: _,
        } = draft;
        Ok(WorkScript {
            count: known.count,
            moments,
            end,
        })
    }
}
