//! What a seat learns of its boxes: that they are of different CPUs.

ghost use Rattle.std.specs.Prelude.{◌≡◌};
ghost use Rattle.shared_table.specs.Ended as ended;

use atomic_table::Play;
use shared_rule::{Run, RunName, Said, Seat, View};
use wheel_core::TimerBase;

/// The number of a word that each table has.
const A_WORD: usize = 0;

/// A load that changes nothing, and tells that the boxes of a seat are of different CPUs of the
/// run.
pub struct FindsApart;

impl Play<Said, View> for FindsApart {
    ghost then = { ended.FindsApart };
}

/// The seat learns that its boxes are of different CPUs of the run: each CPU has one box in all
/// seats.
pub(crate) fn find_apart<N: RunName, B: TimerBase>(run: &Run<N, B>, seat: &mut Seat)
    requires { seat.old.table_id ≡ N.table }
    ensures table { seat.new.table_id ≡ N.table }
    ensures same { seat.new.me ≡ seat.old.me }
    ensures apart { ended.AreApart seat.old.me.0.boxes }
{
    run.words.shared.load::<FindsApart>(seat, A_WORD);
}
