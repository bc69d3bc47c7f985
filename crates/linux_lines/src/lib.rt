//! The lines of a kernel's trace: what the tracing file system's file `trace` gives, or the text of
//! `trace-cmd report`. A line is a remark, a loss, an event of another name, or one of the events
//! of timer migration (`include/trace/events/timer_migration.h`), of timers (`timer.h`) and of
//! softirqs (`irq.h`).
#![tactic(auto)]

mod events;
mod faults;
mod fields;
mod happenings;
mod lines;
mod numbers;
mod parts;
mod timers;
mod times;

pub use events::{
    Arming, CpuEvent, CpuKind, Exchange, Expiries, Expiry, Happening, Joining, Line, NO_EXPIRY,
    Place, TimerEvent, Update,
};
pub use faults::LineFault;
pub use lines::{is_mark, read_line};
