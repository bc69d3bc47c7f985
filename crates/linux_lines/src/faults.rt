//! Why a line is no line of a trace.

/// Why a line is no line of a trace.
#[derive(Clone, Copy, Debug, PartialEq, Eq)]
pub enum LineFault {
    /// There is no number in square brackets with a time behind it.
    NoEvent,
    /// The CPU's number is 512 or above.
    BadCpu,
    /// A field of the event isn't there.
    FieldMissing,
    /// A field is no number, or one of more than 64 bits.
    BadNumber,
    /// A field is outside its range.
    OutOfRange,
    /// Pointers stand as `(____ptrval____)`, so that groups can't be told apart: the kernel had no
    /// random numbers yet. The boot word `no_hash_pointers` helps.
    HiddenPointer,
}
