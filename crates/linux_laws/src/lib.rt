//! No false alarm against the rules: what a trace could show of the core, whatever order its steps
//! fall in, breaks no rule on words, exchanges and bits at rest. The functions do nothing: what
//! they say are their contracts.
#![tactic(auto)]

ghost use Rattle.linux_laws.specs.Alarms.{RestsFit, RunsFit};

use core_facts::{law_frame, law_place, law_rest, law_step};

/// Of every list of steps each of which is enabled where it stands, in a world that was lawful: the
/// words of groups are lawful after each step, the line of each exchange follows from the word
/// before it, and nothing else changes a word.
pub fn law_alarms()
    ensures { RunsFit }
{
    law_step();
    law_place();
    law_frame();
}

/// In a lawful world where no walk and no interrupt is under way, bits fit whatever was seen of it.
pub fn law_rest_alarms()
    ensures { RestsFit }
{
    law_rest();
}
