//! A world begins lawful, whatever machine its tree is planned for.

ghost use Rattle.core_laws.specs.Start.Layer.{StartsLawful};

use tree_plan::{law_cuts, law_edges};
use walk_rules::law_hierarchy;

/// With all CPUs online and active and nothing queued, every part of the invariant holds.
pub fn law_start()
    ensures { StartsLawful }
{
    law_hierarchy();
    law_edges();
    law_cuts();
}
