//! Every step keeps the events on their way upwards.

ghost use Rattle.core_laws.specs.Events.Layer.{EventsStayFit};

/// Events upwards are no later than what they stand for, a walk's first event so far is the first,
/// and a group found active has a walk on the way as soon as it isn't: every step keeps it so.
pub fn law_events()
    ensures { EventsStayFit }
{}
