//! The core at the end of a run.

ghost use Rattle.std.specs.Prelude.{◌≡◌, length};
ghost use Rattle.core_world.specs.World.{World};
ghost use Rattle.shared_words.specs.Layout.{count_of};
ghost use Rattle.shared_rule.specs.Whole.{layout_of};
ghost use Rattle.shared_table.specs.Endings.{HasAllParts, IsEnd, RebuildsAs};

use crate::groups::read_groups;
use crate::holders::read_holders;
use crate::last_words::LastWords;
use shared_rule::{Core, CoreParts, Seat, Words};
use shared_words::Layout;
use wheel_core::TimerBase;

/// The core that the table of a run shows at the run's end, settled, where one seat has all parts
/// again. Of `parts` the tree, the clock and the CPUs are read, which come from the boxes; groups
/// and the places of timers are read off the words, and need no memory.
pub fn ended<B: TimerBase>(
    table: Words<B>,
    seat: Seat,
    layout: Layout,
    parts: CoreParts<B>,
) -> Core<B>
    requires seat { seat.table_id ≡ table.shared.table_id }
    requires count { table.shared.table_id.words ≡ count_of layout }
    requires slots { table.shared.table_id.slots ≡ 0 }
    requires opened { layout ≡ layout_of table.shared.key.core }
    requires tree { parts.tree ≡ table.shared.key.core.tree }
    requires clock { parts.clock ≡ table.shared.key.core.clock }
    requires groups { length parts.groups.items ≡ layout.groups }
    requires holders { length parts.holders.items ≡ layout.timers }
    requires tally { length parts.tally.marks ≡ length parts.cpus.items }
    requires all { HasAllParts table.shared.key.core seat.me.0 parts.cpus.items }
    ensures end { IsEnd table.shared.key.core result seat.me.0.passes }
    ensures cpus { result.cpus ≡ parts.cpus.items }
{
    let words = LastWords::close(table, seat, layout);
    rebuilt(words, parts)
}

/// The core at rest that the words spell, of the tree, clock and CPUs of `parts`.
fn rebuilt<B: TimerBase>(words: LastWords, mut parts: CoreParts<B>) -> Core<B>
    requires groups { length parts.groups.items ≡ words.layout.groups }
    requires holders { length parts.holders.items ≡ words.layout.timers }
    requires tally { length parts.tally.marks ≡ length parts.cpus.items }
    requires rest { (w : World) × RebuildsAs words parts.tree parts.clock parts.cpus.items w }
    ensures { (w : World) → RebuildsAs words parts.tree parts.clock parts.cpus.items w
        → result ≡ w }
{
    read_groups(&words, &mut parts.groups);
    read_holders(&words, &mut parts.holders);
    words.free();
    Core::from_parts(parts)
}
