//! Every step keeps wakeups and leaf events with the timers that they stand for.

ghost use Rattle.core_laws.specs.Wakeups.Layer.{WakeupsStayFit};

/// A CPU that keeps its wakeup is woken in time, or has told its leaf; and every step keeps it so.
pub fn law_wakeups()
    ensures { WakeupsStayFit }
{}
