//! Every step keeps locks with the walks that hold them.

ghost use Rattle.core_laws.specs.Locks.Layer.{LocksStay};

/// A lock names a CPU exactly where that CPU's walk holds it, and every step keeps it so.
pub fn law_locks()
    ensures { LocksStay }
{}
