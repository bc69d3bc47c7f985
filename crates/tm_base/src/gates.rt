//! Gates: places where a test holds a walk.

use crate::CpuId;

/// A place within a walk or a look at which the CPU stands.
#[derive(Clone, Copy, Debug, PartialEq, Eq)]
pub enum Point {
    /// An activation is about to join its child to a group.
    BeforeUp,
    /// An activation is about to mark the group's event in the parent as ignored.
    BeforeMark,
    /// A deactivation is about to read the child's word.
    BeforeChildRead,
    /// A deactivation is about to exchange the group's word.
    BeforeSwap,
    /// An event update is about to take its first lock.
    BeforeLock,
    /// An event update is about to store an event.
    BeforeStore,
    /// A look has marked a CPU and is about to take its due timers out.
    BeforeRemoteRun,
    /// A look has run a CPU's timers and is about to carry what is left upwards.
    BeforeRemoteCarry,
}

/// What a CPU passes on its way at each `Point`. A gate answers nothing and changes nothing that a
/// walk sees. It may wait; a type that does has the bound `Wait` on a parameter of its own, where
/// it keeps the runtime.
pub trait Gate {
    /// Called by the CPU whose walk it is, for the last two points by the one that looks, at this
    /// level of its path.
    fn at(&self, cpu: CpuId, level: u8, point: Point);
}

/// The gate that stands open: it returns at once.
#[derive(Clone, Copy, Debug, PartialEq, Eq)]
pub struct FreeGate;

impl Gate for FreeGate {
    fn at(&self, _cpu: CpuId, _level: u8, _point: Point) {}
}
