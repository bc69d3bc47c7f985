//! The rules.

/// A rule of walks.
#[derive(Clone, Copy, Debug, PartialEq, Eq)]
pub enum Rule {
    /// tmig's own: a walk goes on upwards by what was read under the locks.
    Tmig,
    /// A walk of a CPU that goes idle or offline goes on upwards where its own exchange took the
    /// migrator out and left none; what was read under the locks counts at the top alone
    /// (`tmigr_inactive_up`, 6.12 to 7.3.4).
    Linux,
    /// The same; where the exchange says 'end' and the event update says 'go on', the group's word
    /// is read once more, behind the locks.
    LinuxMended,
    /// A walk never ends at a group for being awake.
    GoesOn,
    /// An exchange holds where the group's set and migrator are as they were read, whatever
    /// happened between.
    NoSequence,
    /// After a failed exchange the child isn't read again.
    NoSecondRead,
    /// An event update reads the two words before it takes the locks.
    EarlyRead,
    /// A walk of a CPU that goes idle or offline reads the child before the group.
    ChildFirst,
}
