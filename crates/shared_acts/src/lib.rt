//! What the interrupt of a CPU does with a CPU's part alone, whose lock the thread has: room for a
//! drain, all that is due goes out, a mark is set or taken back, and an awake CPU leaves; and the
//! list of what an interrupt ran.
#![tactic(auto)]

mod draining;
mod interrupting;
mod marking;
mod runs;
mod serving;

pub use draining::{hand_all, room_for};
pub use interrupting::leave_part;
pub use marking::{mark, take_back};
pub use runs::{Ran, RanReply, Runs};
pub use serving::take_part;
pub use shared_looks::{Look, look, may_take};
