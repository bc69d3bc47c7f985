//! The names of timers.

ghost use Rattle.std.specs.Prelude.{◌≡◌};

/// The name of one timer of one queue: the slot that has it, and how many were put in before it.
/// No two timers of a queue are ever named alike, so the key of a timer that is gone names none.
#[derive(Clone, Copy, Debug, PartialEq, Eq)]
pub struct Key {
    pub(crate) slot: u32,
    pub(crate) number: u64,
}

impl Key {
    /// The key of these two numbers, as `slot` and `number` answer them. One that no queue gave out
    /// names no timer.
    pub fn from_parts(slot: u32, number: u64) -> Key
        ensures slot { result.slot ≡ slot }
        ensures number { result.number ≡ number }
    {
        Key { slot, number }
    }

    /// The slot, which later timers have too.
    pub fn slot(self) -> u32
        ensures { result ≡ self.slot }
    {
        self.slot
    }

    /// How many timers were put into the queue before this one: 0 for its first.
    pub fn number(self) -> u64
        ensures { result ≡ self.number }
    {
        self.number
    }
}
