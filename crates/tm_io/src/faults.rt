//! Why a call on a source or a sink failed.

ghost use Rattle.std.specs.Prelude.{◌≡◌};
ghost use Rattle.tm_io.specs.declared.faults.IoFault.TheVariants as faults;

use std::alloc::AllocError;

/// Why a source gave nothing, or a sink took nothing, in a call. What they tell stays the same.
#[derive(Clone, Copy, Debug, PartialEq, Eq)]
pub enum IoFault {
    /// The source or the sink failed, and its count of faults rose.
    Failed,
    /// Want of memory.
    NoMemory,
}

impl From<AllocError> for IoFault {
    ghost from_gives = { λ _ e. e ≡ faults.NoMemory };

    fn from(_e: AllocError) -> IoFault {
        IoFault::NoMemory
    }
}
