//! Where timers are queued, read off the words.

ghost use Rattle.std.specs.Prelude.{◌≡◌, length, option_map};
ghost use Rattle.shared_rule.specs.core_state.Kept.{IsHeld};
ghost use Rattle.core_world.specs.World.{World};
ghost use Rattle.shared_words.specs.Words.{spot_of};
ghost use Rattle.shared_table.specs.Endings.{SpellsAtRest, cpu_of_spot, word_in};
ghost use Rattle.shared_rule.specs.Whole.{timer_at};
ghost use Rattle.std.specs.Prelude.{◌<◌};

use crate::last_words::LastWords;
use shared_rule::core_laws;
use shared_words::{SharedWord, law_ways_back, unpack_spot};
use tm_base::{CpuId, TimerId};

/// Writes for each timer the CPU on which it is queued, if it is; what stood there isn't read.
pub(crate) fn read_holders(words: &LastWords, holders: &mut Vec<Option<CpuId>>)
    requires count { length holders.old.items ≡ words.now.layout.timers }
    requires rest { (w : World) × SpellsAtRest words.now w }
    ensures count { length holders.new.items ≡ length holders.old.items }
    ensures held { (w : World) → SpellsAtRest words.now w → IsHeld w holders.new.items }
{
    core_laws();
    law_ways_back();
    for timer in 0..words.layout().timers {
        holders[usize::from(timer)] = read_holder(words, TimerId(timer));
    }
}

/// The CPU that the word of a timer names.
fn read_holder(words: &LastWords, timer: TimerId) -> Option<CpuId>
    requires { timer.0 < words.now.layout.timers }
    ensures { result ≡ option_map cpu_of_spot (spot_of (word_in words.now (timer_at timer.0))) }
{
    let spot = unpack_spot(words.get(SharedWord::Timer(timer)))?;
    Some(spot.cpu)
}
