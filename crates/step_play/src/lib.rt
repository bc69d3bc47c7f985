//! A play made of steps is Play: what Play sees of the core is Play's state, moment by moment. The
//! function does nothing; what it says is its contract.
#![tactic(auto)]

mod activation_laws;
mod queue_laws;
mod run_laws;
mod telling_laws;

ghost use Rattle.step_play.specs.SamePlay.{StepsArePlay};

pub use activation_laws::{law_comes, law_wakes};
pub use core_facts::{law_each_settled, law_rest};
use core_facts::{law_start, law_step};
pub use play_laws::law_work;
pub use queue_laws::{
    law_active_below, law_any_first, law_at_rest, law_covers_alike, law_each_slot, law_each_top,
    law_found_is_duty, law_named_can_be_taken, law_names_alike, law_quiet_first,
};
pub use run_laws::law_play_is_a_run;
pub use telling_laws::{law_ends, law_idles, law_lets_go, law_offlines};

/// The play of every script by the rules of steps, whose walks are the core's, is its Play: the
/// same moments, lines and text, the same count of work, the same last state; after each moment the
/// core is in play, with no walk and no interrupt; and the play goes by runs of enabled steps.
pub fn law_steps_are_play()
    ensures { StepsArePlay }
{
    law_step();
    law_start();
    law_wakes();
    law_comes();
    law_idles();
    law_offlines();
    law_ends();
    law_lets_go();
    law_play_is_a_run();
}
