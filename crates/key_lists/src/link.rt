//! A link of a ring.

/// What stands before and after a place of a ring, by numbers below [`MOST_PLACES`].
#[derive(Clone, Copy)]
pub(crate) struct Link {
    pub(crate) older: u32,
    pub(crate) newer: u32,
}

/// The most places, since a link has 32 bits for each.
pub const MOST_PLACES: usize = 1 << 32;

const _: () = prove!(MOST_PLACES == 4_294_967_296);
