//! A play made of steps is a run: each of its steps is enabled where it stands. The function does
//! nothing; what it says is its contract.

ghost use Rattle.step_play.specs.SamePlay.{PlayIsARun};

use crate::activation_laws::{law_comes, law_wakes};
use crate::telling_laws::{law_ends, law_idles, law_lets_go, law_offlines};
use core_facts::{law_always_answered, law_start, law_step};
use core_world::law_sizes;

/// The play of every script by the rules of steps goes by runs: each rule's steps are enabled where
/// they stand, and from the start of the script's machine they lead to the core after each moment,
/// with the headline after each step.
pub fn law_play_is_a_run()
    ensures { PlayIsARun }
{
    law_step();
    law_start();
    law_sizes();
    law_always_answered();
    law_wakes();
    law_comes();
    law_idles();
    law_offlines();
    law_ends();
    law_lets_go();
}
