//! What an activation leaves when it is made alone, from its start to its end: a core in play, and
//! in it Play's state after the rule of Play that the walk stands for. The other walks stand in
//! `telling_laws`.

ghost use Rattle.step_play.specs.Rules.Alike.{ComesAlike, WakesAlike};

use core_facts::law_step;
use tree_plan::{law_below, law_paths};

/// A CPU that wakes, with its walk made to its end, is woken as Play has it.
pub fn law_wakes()
    ensures { WakesAlike }
{
    law_step();
    law_paths();
    law_below();
}

/// A CPU that comes online, with its walk made to its end, has come online as Play has it.
pub fn law_comes()
    ensures { ComesAlike }
{
    law_step();
    law_paths();
    law_below();
}
