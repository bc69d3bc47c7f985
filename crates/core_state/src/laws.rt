//! What holds of every world that a core shows. Each of these functions does nothing; its contract
//! is the law.

ghost use Rattle.core_state.specs.Kept.{WorldsStayFit};

use core_facts::{law_height, law_replay, law_step};
use core_parts::law_sizes;

/// No step leaves what a core relies on.
pub(crate) fn law_fits()
    ensures { WorldsStayFit }
{
    law_sizes();
    law_step();
    law_replay();
    law_height();
}
