//! What the queues of a core at rest choose is what Play chooses: whom a look names, what a walk
//! finds at the top, and who covers a timer. The functions do nothing: what they say are their
//! contracts.

ghost use Rattle.step_play.specs.Queues.AtRest.{PlayRests};
ghost use Rattle.step_play.specs.Queues.Choices.{AnyFirst, CoversAlike, EachActiveBelow, EachSlot};
ghost use Rattle.step_play.specs.Queues.Choices.{EachTop, FoundIsDuty, NamedCanBeTaken, NamesAlike};
ghost use Rattle.step_play.specs.Queues.Choices.{QuietFirst};

/// A core in play whose tree was planned is at rest.
pub fn law_at_rest()
    ensures { PlayRests }
{}

/// What is active is what Play sees as active: a group has a migrator exactly where an active CPU
/// is below it.
pub fn law_active_below()
    ensures { EachActiveBelow }
{}

/// The first event of a group without a migrator names the leftmost of the CPUs below it that told
/// the least.
pub fn law_quiet_first()
    ensures { QuietFirst }
{}

/// The event of each slot names the leftmost of the CPUs below its child that told the least, where
/// that child is inactive.
pub fn law_each_slot()
    ensures { EachSlot }
{}

/// The first event of any group names the leftmost of the CPUs below its inactive children that
/// told the least.
pub fn law_any_first()
    ensures { AnyFirst }
{}

/// A look names whom Play names, whichever CPUs were tried that have nothing due.
pub fn law_names_alike()
    ensures { NamesAlike }
{}

/// Whoever a look names can be taken where it has no walk and no mark.
pub fn law_named_can_be_taken()
    ensures { NamedCanBeTaken }
{}

/// The top is active exactly where a placed CPU is; else its first event is the least of all that
/// was told.
pub fn law_each_top()
    ensures { EachTop }
{}

/// What a walk finds at the top is the duty that all CPUs with a group have in common.
pub fn law_found_is_duty()
    ensures { FoundIsDuty }
{}

/// The queue answers who covers a timer as Play does.
pub fn law_covers_alike()
    ensures { CoversAlike }
{}
