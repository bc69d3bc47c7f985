//! A law of Play: each timer is handed out in its jiffy. Each of these functions does
//! nothing; its contract is the law.

ghost use Rattle.play_laws.specs.Jiffies.Jiffies.{EachHasEndedAfterEach, InFirstDrain};
ghost use Rattle.play_laws.specs.Jiffies.Jiffies.{InItsJiffyAfterEach, RunnersAreOnline};
ghost use Rattle.play_laws.specs.Jiffies.Looks.{LooksAreWhole};

/// After each moment of every script's play each pinned or global timer that was handed out was so
/// in the jiffy of its wheel expiry, none that is queued on an online CPU is due, and the next
/// interrupt comes no later than its wheel expiry. Nothing is queued on an offline CPU. Each CPU's
/// journal is legal and agrees with its bases, and no timer is queued twice.
pub fn law_in_its_jiffy()
    ensures { InItsJiffyAfterEach }
{}

/// Each arming of a pinned or global timer whose wheel expiry has come has its end: handed out in
/// that jiffy, cancelled, or moved. As long as a timer has no end each drain of its base is before
/// its wheel expiry, so a deferrable one goes out in the first interrupt of its CPU from then on.
pub fn law_ends()
    ensures each_has_ended { EachHasEndedAfterEach }
    ensures in_first_drain { InFirstDrain }
{}

/// Each interrupt of a moment, in which timers are handed out, is of a CPU that is online as it
/// begins and as it ends.
pub fn law_runners()
    ensures { RunnersAreOnline }
{}

/// Where a CPU has looked after its group at a level, in its interrupt in a moment of any script's
/// play, no CPU below an inactive child of that group has told a time that has come. So as many
/// tries as there are CPUs are enough.
pub fn law_looks()
    ensures { LooksAreWhole }
{}
