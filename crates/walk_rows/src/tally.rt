//! What CPUs were answered, counted.

use tm_base::{Jiffy, NEVER};

/// How often CPUs were answered what.
#[derive(Clone, Copy, Debug, PartialEq, Eq)]
pub struct Tally {
    /// How often one went idle.
    pub rested: u64,
    /// How often one had to stay.
    pub stayed: u64,
    /// How often one woke.
    pub woken: u64,
    /// How often one was refused.
    pub refused: u64,
    /// The soonest wakeup with which one went idle, in jiffies, or `NEVER`.
    pub soonest: Jiffy,
    /// The latest one, in jiffies, 0 where none went idle.
    pub latest: Jiffy,
}

impl Tally {
    /// Nothing was answered yet.
    pub fn new() -> Tally {
        Tally {
            rested: 0,
            stayed: 0,
            woken: 0,
            refused: 0,
            soonest: NEVER,
            latest: 0,
        }
    }

    /// A CPU went idle with this wakeup, in jiffies.
    pub fn rest(&mut self, until: Jiffy) {
        self.rested = self.rested.saturating_add(1);
        self.soonest = self.soonest.min(until);
        self.latest = self.latest.max(until);
    }

    /// A CPU had to stay.
    pub fn stay(&mut self) {
        self.stayed = self.stayed.saturating_add(1);
    }

    /// A CPU woke.
    pub fn wake(&mut self) {
        self.woken = self.woken.saturating_add(1);
    }

    /// A CPU was refused.
    pub fn refuse(&mut self) {
        self.refused = self.refused.saturating_add(1);
    }

    /// What is counted here and there.
    pub fn with(self, other: Tally) -> Tally {
        Tally {
            rested: self.rested.saturating_add(other.rested),
            stayed: self.stayed.saturating_add(other.stayed),
            woken: self.woken.saturating_add(other.woken),
            refused: self.refused.saturating_add(other.refused),
            soonest: self.soonest.min(other.soonest),
            latest: self.latest.max(other.latest),
        }
    }
}
