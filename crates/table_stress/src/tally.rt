//! What CPUs were answered, counted.

use idle_wakeup::IdleAnswer;
use tm_base::{CpuId, Jiffy, NEVER, OpFault};

/// How often CPUs were answered what.
#[derive(Clone, Copy, Debug, PartialEq, Eq)]
pub struct Tally {
    /// How often a timer was armed.
    pub armed: u64,
    /// How often one was to be armed that was queued.
    pub queued: u64,
    /// How often one was cancelled.
    pub cancelled: u64,
    /// How often one was to be cancelled that wasn't queued.
    pub nowhere: u64,
    /// How often a CPU went idle.
    pub rested: u64,
    /// How often one had to stay.
    pub stayed: u64,
    /// How often one woke.
    pub woken: u64,
    /// How often one had an interrupt.
    pub interrupted: u64,
    /// How many timers these interrupts ran.
    pub ran: u64,
    /// How often a CPU was refused because it was idle, or wasn't.
    pub refused: u64,
    /// How often one was refused because of the walks that were begun with its pass.
    pub spent: u64,
    /// How many walks were begun with the pass of the last one refused so; 0 for none.
    pub made: u32,
    /// How often memory was wanting.
    pub short: u64,
    /// The soonest wakeup with which one went idle, in jiffies, or `NEVER`.
    pub soonest: Jiffy,
}

/// One more.
fn count(number: &mut u64) {
    *number = number.saturating_add(1);
}

impl Tally {
    /// Nothing was answered yet.
    pub fn new() -> Tally {
        Tally {
            armed: 0,
            queued: 0,
            cancelled: 0,
            nowhere: 0,
            rested: 0,
            stayed: 0,
            woken: 0,
            interrupted: 0,
            ran: 0,
            refused: 0,
            spent: 0,
            made: 0,
            short: 0,
            soonest: NEVER,
        }
    }

    /// What a CPU was answered that was to arm a timer.
    pub(crate) fn count_arm(&mut self, answer: Result<Jiffy, OpFault>) {
        match answer {
            Ok(_) => count(&mut self.armed),
            Err(fault) => self.refuse(fault),
        }
    }

    /// What one was answered that was to cancel a timer.
    pub(crate) fn count_cancel(&mut self, answer: Result<Option<CpuId>, OpFault>) {
        match answer {
            Ok(Some(_)) => count(&mut self.cancelled),
            Ok(None) => count(&mut self.nowhere),
            Err(fault) => self.refuse(fault),
        }
    }

    /// What one was answered that was to go idle.
    pub(crate) fn count_rest(&mut self, answer: Result<IdleAnswer, OpFault>) {
        match answer {
            Ok(IdleAnswer::Until(at)) => {
                count(&mut self.rested);
                self.soonest = self.soonest.min(at);
            },
            Ok(IdleAnswer::Stay(_)) => count(&mut self.stayed),
            Err(fault) => self.refuse(fault),
        }
    }

    /// What one was answered that was to wake.
    pub(crate) fn count_wake(&mut self, answer: Result<(), OpFault>) {
        match answer {
            Ok(()) => count(&mut self.woken),
            Err(fault) => self.refuse(fault),
        }
    }

    /// What one was answered that had an interrupt, which ran so many timers.
    pub(crate) fn count_interrupt(&mut self, answer: (Result<(), OpFault>, usize)) {
        let (answer, ran) = answer;
        match answer {
            Ok(()) => count(&mut self.interrupted),
            Err(fault) => self.refuse(fault),
        }
        self.ran = self.ran.saturating_add(ran as u64);
    }

    /// A CPU was refused.
    fn refuse(&mut self, fault: OpFault) {
        match fault {
            OpFault::Queued { .. } => count(&mut self.queued),
            OpFault::Spent { made } => {
                count(&mut self.spent);
                self.made = made;
            },
            OpFault::NoMemory => count(&mut self.short),
            _ => count(&mut self.refused),
        }
    }

    /// What is counted here and there.
    pub fn with(self, other: Tally) -> Tally {
        Tally {
            armed: self.armed.saturating_add(other.armed),
            queued: self.queued.saturating_add(other.queued),
            cancelled: self.cancelled.saturating_add(other.cancelled),
            nowhere: self.nowhere.saturating_add(other.nowhere),
            rested: self.rested.saturating_add(other.rested),
            stayed: self.stayed.saturating_add(other.stayed),
            woken: self.woken.saturating_add(other.woken),
            interrupted: self.interrupted.saturating_add(other.interrupted),
            ran: self.ran.saturating_add(other.ran),
            refused: self.refused.saturating_add(other.refused),
            spent: self.spent.saturating_add(other.spent),
            made: self.made.max(other.made),
            short: self.short.saturating_add(other.short),
            soonest: self.soonest.min(other.soonest),
        }
    }
}
