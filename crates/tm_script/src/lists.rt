//! The lists of a script: its moments, and the operations of one of them.

ghost use Rattle.std.specs.Prelude.{◌≡◌, ◌≤◌, ◌==◌, ◌↔◌, [], ◌∷◌, ◌++◌, length, slice_get, IsNone};
ghost use Rattle.std.specs.Prelude.{OnOk, OnErr};
ghost use Rattle.std.specs.Option.{option_copied};

use crate::syntax::{Moment, Op};
use std::alloc::Global;
use std::marker::Model;
use tm_base::NoMemory;

/// The moments of a script, in order.
#[derive(Debug, Drop)]
pub struct Moments {
    moments: Vec<Moment>,
}

impl Model for Moments {
    ghost use Rattle.std.specs.Prelude.{List};
    ghost use Rattle.tm_script.specs.declared.syntax.Moment.{Moment};

    ghost Value = { List Moment };

    ghost view = { λ m. m.moments.items };
}

impl Moments {
    /// No moments; takes no memory.
    pub fn new(alloc: Global) -> Moments
        ensures { result ≡ [] }
    {
        Moments {
            moments: Vec::new(alloc),
        }
    }

    /// Adds a moment at the end. After want of memory the list is as it was.
    pub fn push(&mut self, moment: Moment) -> Result<(), NoMemory>
        ensures ok { OnOk result (self.new ≡ self.old ++ moment ∷ []) }
        ensures err { OnErr result (self.new ≡ self.old) }
    {
        self.moments.push(moment)?;
        Ok(())
    }

    /// How many moments there are.
    pub fn len(&self) -> usize
        ensures { result ≡ length self.now }
    {
        self.moments.len()
    }

    /// Whether there are none.
    pub fn is_empty(&self) -> bool
        ensures { result ≡ (length self.now == 0) }
    {
        self.moments.is_empty()
    }

    /// The moment at a place, from 0.
    pub fn get(&self, i: usize) -> Option<&Moment>
        ensures found { option_copied result ≡ slice_get self.now i }
        ensures none { IsNone result ↔ (length self.now ≤ i) }
    {
        self.moments.get(i)
    }

    /// All moments, in order.
    pub fn as_slice(&self) -> &[Moment]
        ensures { result.now ≡ self.now }
    {
        self.moments.as_slice()
    }
}

/// The operations of a moment, in order.
#[derive(Debug, Drop)]
pub struct Ops {
    ops: Vec<Op>,
}

impl Model for Ops {
    ghost use Rattle.std.specs.Prelude.{List};
    ghost use Rattle.tm_script.specs.declared.syntax.Op.{Op};

    ghost Value = { List Op };

    ghost view = { λ o. o.ops.items };
}

impl Ops {
    /// No operations; takes no memory.
    pub fn new(alloc: Global) -> Ops
        ensures { result ≡ [] }
    {
        Ops {
            ops: Vec::new(alloc),
        }
    }

    /// Adds an operation at the end. After want of memory the list is as it was.
    pub fn push(&mut self, op: Op) -> Result<(), NoMemory>
        ensures ok { OnOk result (self.new ≡ self.old ++ op ∷ []) }
        ensures err { OnErr result (self.new ≡ self.old) }
    {
        self.ops.push(op)?;
        Ok(())
    }

    /// How many operations there are.
    pub fn len(&self) -> usize
        ensures { result ≡ length self.now }
    {
        self.ops.len()
    }

    /// Whether there are none.
    pub fn is_empty(&self) -> bool
        ensures { result ≡ (length self.now == 0) }
    {
        self.ops.is_empty()
    }

    /// The operation at a place, from 0.
    pub fn get(&self, i: usize) -> Option<&Op>
        ensures found { option_copied result ≡ slice_get self.now i }
        ensures none { IsNone result ↔ (length self.now ≤ i) }
    {
        self.ops.get(i)
    }

    /// All operations, in order.
    pub fn as_slice(&self) -> &[Op]
        ensures { result.now ≡ self.now }
    {
        self.ops.as_slice()
    }
}
