//! Whoever has the table of a run and a seat knows that its timers are answered for.

ghost use Rattle.std.specs.Prelude.{◌≡◌};
ghost use Rattle.shared_words.specs.Layout.{IsWordOf, index_of};
ghost use Rattle.shared_rule.specs.Running as running;
ghost use Rattle.shared_rule.specs.Running.{IsOfOpening, IsRunning};
ghost use Rattle.shared_rule.specs.Whole.{layout_of};

use crate::run::{Run, RunName};
use crate::{Said, Seat, View, core_laws};
use atomic_table::Play;
use core_state::law_answered;
use shared_words::SharedWord;
use wheel_core::TimerBase;

/// A load that changes nothing, and tells what the run is at that moment.
pub struct FindsRunning;

impl Play<Said, View> for FindsRunning {
    ghost then = { running.FindsRunning };
}

/// THE HEADLINE OF A RUN, at any moment, whatever the threads do: the word that a seat loads and
/// the seat's parts are those of a core to which steps lead from the opening, each enabled where it
/// stands. In that core each global timer that is queued on an online idle CPU is held, woken for,
/// or carried by a walk or an interrupt under way; and where none is under way, held or woken for.
/// The load changes nothing.
pub fn law_running<N: RunName, B: TimerBase>(
    run: &Run<N, B>,
    seat: &mut Seat,
    word: SharedWord,
) -> u64
    requires table { seat.old.table_id ≡ N.table }
    requires opening { IsOfOpening N.opening seat.old.me.0.boxes seat.old.me.0.passes }
    requires word { IsWordOf (layout_of N.opening) word }
    ensures table { seat.new.table_id ≡ N.table }
    ensures same { seat.new.me ≡ seat.old.me }
    ensures running { IsRunning N.opening seat.old.me (index_of (layout_of N.opening) word) result }
{
    core_laws();
    law_answered();
    let place = run.layout.index(word);
    run.words.shared.load::<FindsRunning>(seat, place)
}
