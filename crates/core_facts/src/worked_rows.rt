//! Worked rows: lists of steps from the start of a core, each enabled where it stands, and what
//! they leave. They are run through the definitions themselves, by computation.

ghost use Rattle.core_facts.specs.Worked.Rows.{CarriedAlone, EarlyReadBreaks, ForgottenEvent};
ghost use Rattle.core_facts.specs.Worked.Rows.{LostExchange, SettledCover, StaleExchangeBreaks};
ghost use Rattle.core_facts.specs.Worked.Rows.{StaleRun, WakeRefused};

/// A CPU wakes beside a deactivation that has read the top's word: the deactivation's exchange
/// fails.
pub fn row_stale_run()
    ensures run { StaleRun }
    ensures refused { WakeRefused }
{}

/// Were that exchange made with the stale word, the top would lose a group with an active CPU, and
/// the invariant would not hold.
pub fn row_stale_exchange_breaks()
    ensures { StaleExchangeBreaks }
{}

/// Nor would it hold had the CPU read its leaf before the word: the word says nothing of the leaf
/// that woke between the two.
pub fn row_early_read_breaks()
    ensures { EarlyReadBreaks }
{}

/// Two CPUs of a leaf go idle at once: who exchanges second has to read again, and is a step behind
/// where it would be had its exchange been made.
pub fn row_lost_exchange()
    ensures { LostExchange }
{}

/// A CPU goes idle with a global timer, and tells it to the other CPU of its group.
pub fn row_settled_cover()
    ensures { SettledCover }
{}

/// Were the event of that CPU lost, nobody would answer for its timer: not by a migrator, a wakeup,
/// a walk or an interrupt.
pub fn row_forgotten_event()
    ensures { ForgottenEvent }
{}

/// While the walk of a CPU that goes idle has told nothing yet, the walk alone answers for its
/// timer.
pub fn row_carried_alone()
    ensures { CarriedAlone }
{}
