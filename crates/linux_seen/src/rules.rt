//! The rules that a line may break.

/// The rules that a line may break, in the order in which they are asked.
#[derive(Clone, Copy, Debug, PartialEq, Eq)]
pub enum Rule {
    /// A group's migrator is one of its active children, and there is none exactly where no child
    /// is active.
    Group,
    /// A parent is one level above its child; a group keeps level, node and parent; no two children
    /// have one number; there are at most eight.
    Tree,
    /// A group of a node has children of that node alone.
    Node,
    /// A walk begins at its CPU's leaf, goes on exactly where it has to, and ends before its CPU
    /// does something else.
    Walk,
    /// Each exchange follows from the state before it.
    Exchange,
    /// The order of a group's exchanges between CPUs is found among no more than so many of them;
    /// where it isn't, the check gives up, and there may be such an order.
    Order,
    /// A CPU wakes where it sleeps and falls asleep where it is awake; only a sleeping CPU's timers
    /// are run by others.
    Cpu,
    /// An event is stored for a sleeping child alone; it is the child's first, at a leaf what the
    /// CPU tells, and no earlier than the group's.
    Event,
    /// A group's cached first event is no later than one that another child has there.
    First,
    /// A CPU's timers are run by another one when its event in its leaf is due.
    Remote,
    /// An idle CPU keeps the first event of a sleeping top to which its walk has come, or none.
    Wakeup,
    /// While no walk is under way, a group's bit in its parent says whether it is active, and a
    /// CPU's bit in its leaf whether it is.
    Rest,
    /// While no walk is under way, each idle CPU's told expiry that is to come is answered for.
    Told,
    /// An armed timer's bucket is the wheel's; a timer runs once its base has come to that, on its
    /// own CPU, or in a run for that if it is global, and it is armed.
    Timer,
}
