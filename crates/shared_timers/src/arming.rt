//! What a timer is armed with.

use tm_base::{Class, Jiffy, TimerId};

/// A timer as it is to be armed.
#[derive(Clone, Copy)]
pub struct Arming {
    /// The timer.
    pub timer: TimerId,
    /// Which base of the CPU it goes to.
    pub class: Class,
    /// The asked expiry, in jiffies.
    pub expires: Jiffy,
    /// The number of the timer's job.
    pub job: u8,
    /// What the job is handed.
    pub arg: u32,
    /// The line of the script that asks for it; 0 where a job does.
    pub line: u32,
}
