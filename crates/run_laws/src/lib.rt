//! Of the work of a run by threads, which is bounded as that of a play is. The function does
//! nothing; its contract is the law.
#![tactic(auto)]

ghost use Rattle.run_laws.specs.Work.{BrokenWorkIsBounded, MomentWorkIsBounded, StoryIsUnspent};

use core_facts::law_start;

/// In a moment of a story each CPU has one interrupt at most, and as long as the end isn't past the
/// greatest timeout each timer is handed out once at most, whichever CPU's thread hands it out. So
/// a story that is broken off before its end has done at most so much work in each jiffy, and one
/// whose moments can't come to the limit isn't broken off. What is said is of stories whose core is
/// at rest after each moment, as it is in each run.
pub fn law_story_work()
    ensures moments { MomentWorkIsBounded }
    ensures broken_off { BrokenWorkIsBounded }
    ensures unspent { StoryIsUnspent }
{
    law_start();
}
