//! Why an operation was refused.

ghost use Rattle.std.specs.Prelude.{◌≡◌};
ghost use Rattle.tm_base.specs.Faults.{fault_number};
ghost use Rattle.tm_base.specs.declared.faults.OpFault.TheVariants as faults;

use crate::CpuId;
use std::alloc::{AllocError, AllocFailed};

/// Want of memory. The call that answers it has changed nothing, unless its entry says otherwise.
#[derive(Clone, Copy, Debug, PartialEq, Eq)]
pub struct NoMemory;

impl From<AllocError> for NoMemory {
    fn from(_e: AllocError) -> NoMemory {
        NoMemory
    }
}

impl<T: Drop> From<AllocFailed<T>> for NoMemory {
    fn from(_e: AllocFailed<T>) -> NoMemory {
        NoMemory
    }
}

/// Why an operation on a CPU was refused. All but `NoMemory` leave everything as it was.
#[derive(Clone, Copy, Debug, PartialEq, Eq)]
pub enum OpFault {
    /// Number 1: the CPU is idle and would have to be active.
    NotActive,
    /// Number 2: the CPU is active and would have to be idle.
    NotIdle,
    /// Number 3: the CPU is offline.
    Offline,
    /// Number 4: the CPU is online already.
    AlreadyOnline,
    /// Number 5: the CPU isn't isolated, and no other CPU that isn't isolated is online.
    LastOnline,
    /// Number 6: the timer is queued, on this CPU.
    Queued { cpu: CpuId },
    /// Number 7: too many walks were begun; `made` of them.
    Spent { made: u32 },
    /// Want of memory; it has no number.
    NoMemory,
}

impl OpFault {
    /// The number by which a report names the refusal: 1 to 7 in the order of the variants, None
    /// for want of memory.
    pub fn number(&self) -> Option<u8>
        ensures { result ≡ fault_number self.now }
    {
        match self {
            OpFault::NotActive => Some(1),
            OpFault::NotIdle => Some(2),
            OpFault::Offline => Some(3),
            OpFault::AlreadyOnline => Some(4),
            OpFault::LastOnline => Some(5),
            OpFault::Queued { .. } => Some(6),
            OpFault::Spent { .. } => Some(7),
            OpFault::NoMemory => None,
        }
    }
}

impl From<NoMemory> for OpFault {
    ghost from_gives = { λ _ e. e ≡ faults.NoMemory };

    fn from(_e: NoMemory) -> OpFault {
        Self::NoMemory
    }
}
