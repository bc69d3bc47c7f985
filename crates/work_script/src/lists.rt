//! The lists of a script of works: its moments, and the operations of one of them.

ghost use Rattle.std.specs.Prelude.{◌≡◌, ◌≤◌, ◌==◌, ◌↔◌, [], ◌∷◌, ◌++◌, length, slice_get, IsNone};
ghost use Rattle.std.specs.Prelude.{OnOk, OnErr};
ghost use Rattle.std.specs.Option.{option_copied};

use crate::syntax::{WorkMoment, WorkOp};
use std::alloc::Global;
use std::marker::Model;
use tm_base::NoMemory;

/// The moments of a script of works, in order.
#[derive(Debug, Drop)]
pub struct WorkMoments {
    moments: Vec<WorkMoment>,
}

impl Model for WorkMoments {
    ghost use Rattle.std.specs.Prelude.{List};
    ghost use Rattle.work_script.specs.declared.syntax.WorkMoment.{WorkMoment};

    ghost Value = { List WorkMoment };

    ghost view = { λ m. m.moments.items };
}

impl WorkMoments {
    /// No moments; takes no memory.
    pub fn new(alloc: Global) -> WorkMoments
        ensures { result ≡ [] }
    {
        WorkMoments {
            moments: Vec::new(alloc),
        }
    }

    /// Adds a moment at the end. After want of memory the list is as it was.
    pub fn push(&mut self, moment: WorkMoment) -> Result<(), NoMemory>
        ensures ok { OnOk result (self.new ≡ self.old ++ moment ∷ []) }
        ensures err { OnErr result (self.new ≡ self.old) }
    {
        self.moments.push(moment)?;
        Ok(())
    }

    /// How many moments there are.
    pub fn len(&self) -> usize
        ensures { result ≡ length self.now }
    {
        self.moments.len()
    }

    /// Whether there are none.
    pub fn is_empty(&self) -> bool
        ensures { result ≡ (length self.now == 0) }
    {
        self.moments.is_empty()
    }

    /// The moment at a place, from 0.
    pub fn get(&self, i: usize) -> Option<&WorkMoment>
        ensures found { option_copied result ≡ slice_get self.now i }
        ensures none { IsNone result ↔ (length self.now ≤ i) }
    {
        self.moments.get(i)
    }

    /// All moments, in order.
    pub fn as_slice(&self) -> &[WorkMoment]
        ensures { result.now ≡ self.now }
    {
        self.moments.as_slice()
    }
}

/// The operations of a moment, in order.
#[derive(Debug, Drop)]
pub struct WorkOps {
    ops: Vec<WorkOp>,
}

impl Model for WorkOps {
    ghost use Rattle.std.specs.Prelude.{List};
    ghost use Rattle.work_script.specs.declared.syntax.WorkOp.{WorkOp};

    ghost Value = { List WorkOp };

    ghost view = { λ o. o.ops.items };
}

impl WorkOps {
    /// No operations; takes no memory.
    pub fn new(alloc: Global) -> WorkOps
        ensures { result ≡ [] }
    {
        WorkOps {
            ops: Vec::new(alloc),
        }
    }

    /// Adds an operation at the end. After want of memory the list is as it was.
    pub fn push(&mut self, op: WorkOp) -> Result<(), NoMemory>
        ensures ok { OnOk result (self.new ≡ self.old ++ op ∷ []) }
        ensures err { OnErr result (self.new ≡ self.old) }
    {
        self.ops.push(op)?;
        Ok(())
    }

    /// How many operations there are.
    pub fn len(&self) -> usize
        ensures { result ≡ length self.now }
    {
        self.ops.len()
    }

    /// Whether there are none.
    pub fn is_empty(&self) -> bool
        ensures { result ≡ (length self.now == 0) }
    {
        self.ops.is_empty()
    }

    /// The operation at a place, from 0.
    pub fn get(&self, i: usize) -> Option<&WorkOp>
        ensures found { option_copied result ≡ slice_get self.now i }
        ensures none { IsNone result ↔ (length self.now ≤ i) }
    {
        self.ops.get(i)
    }

    /// All operations, in order.
    pub fn as_slice(&self) -> &[WorkOp]
        ensures { result.now ≡ self.now }
    {
        self.ops.as_slice()
    }
}
