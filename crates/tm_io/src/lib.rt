//! The ends of tmig: sources of bytes and sinks for them, which may fail at any call.
//!
//! A source tells, where it can, which bytes are left, and a sink which bytes it holds. Each counts
//! its faults, and a sink also counts the calls in which it took nothing, so that an answer other
//! than Ok has a cause outside the caller, and no such cause goes untold.
#![tactic(auto)]

mod faults;
mod full;
mod memory;
mod plain;
mod sinks;
mod sources;
mod standard;

pub use faults::IoFault;
pub use full::FullSink;
pub use memory::{MemorySink, MemorySource};
pub use plain::{PlainSink, PlainSource};
pub use sinks::{Sink, WriteCause, WriteFault, write_all};
pub use sources::{ReadFault, Source, read_all};
pub use standard::{StdSink, StdSource};
