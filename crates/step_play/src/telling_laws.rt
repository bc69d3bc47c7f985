//! The four walks that tell, each begun by a step of a play and made alone to its end, leave a core
//! in play, and in it Play's state after the rule of Play that the walk stands for: a CPU goes
//! idle, goes offline, ends its interrupt, or is let go by the CPU that took it. The functions do
//! nothing; their contracts are the laws.

ghost use Rattle.step_play.specs.Rules.Alike.{EndsAlike, IdlesAlike, LetsGoAlike, OfflinesAlike};

use core_facts::law_step;

/// A CPU that goes idle, with its walk made to its end, is idle as Play has it.
pub fn law_idles()
    ensures { IdlesAlike }
{
    law_step();
}

/// One that goes offline has gone as Play has it, and its walk waits to hand on exactly where
/// Play's CPU has a duty to hand on.
pub fn law_offlines()
    ensures { OfflinesAlike }
{
    law_step();
}

/// An interrupt ends as Play has it: an idle CPU re-evaluates, and one that is active leaves.
pub fn law_ends()
    ensures { EndsAlike }
{
    law_step();
}

/// A CPU that was taken, and is online and idle, has told its leaf its first event again when it
/// is let go.
pub fn law_lets_go()
    ensures { LetsGoAlike }
{
    law_step();
}
