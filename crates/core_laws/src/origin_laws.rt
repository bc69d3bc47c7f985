//! Every step keeps where times and events come from: each is the wheel expiry of an arming in some
//! journal, and an event's CPU is below the child in whose slot it stands.

ghost use Rattle.core_laws.specs.Origins.Layer.{OriginsStayFit};

/// Every step keeps where times and events come from.
pub fn law_origins()
    ensures { OriginsStayFit }
{}
