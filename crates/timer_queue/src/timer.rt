//! A timer of the queue.

/// The last tick for which a timer may ask, and the last at which one may be put in: 2^47 - 2. In
/// milliseconds that is 4,459 years.
pub const LAST_TICK: u64 = (1 << 47) - 2;

/// A timer that asks for at most so many ticks past the clock goes out in the very tick: 63.
pub const EXACT_TICKS: u64 = 63;

/// For how many timers memory may be taken: 2^32.
pub const MOST_TIMERS: usize = 1 << 32;

const _: () = prove!(LAST_TICK == 140_737_488_355_326);

const _: () = prove!(MOST_TIMERS == 4_294_967_296);

/// A timer in its slot.
#[derive(Drop)]
pub(crate) struct Timer<T> {
    /// How many timers were put into the queue before it.
    pub(crate) number: u64,
    /// The tick for which it asks.
    pub(crate) expires: u64,
    /// The queue's clock as it was put in or reset.
    pub(crate) armed: u64,
    /// The tick from which on it goes out, or is looked at again where it asks for a far later one.
    pub(crate) moment: u64,
    /// What the caller gave.
    pub(crate) value: T,
}
