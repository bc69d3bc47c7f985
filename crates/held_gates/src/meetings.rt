//! A gate at which two CPUs meet.

use crate::calls::wait_for_either;
use std::sync::atomic::{AtomicU64, Ordering};
use tm_base::{CpuId, Gate, Point};

/// Holds each of two CPUs at a point of level 0 until the other one stands there too, for a number
/// of looks that is limited.
#[derive(Drop)]
pub struct Meeting {
    pub one: CpuId,
    pub other: CpuId,
    pub point: Point,
    /// How often each of the two came there.
    pub ones: AtomicU64,
    pub others: AtomicU64,
    /// How often all looks were made in vain.
    pub late: AtomicU64,
}

impl Meeting {
    /// Neither of the two has come yet.
    pub fn new(one: CpuId, other: CpuId, point: Point) -> Meeting {
        Meeting {
            one,
            other,
            point,
            ones: AtomicU64::new(0),
            others: AtomicU64::new(0),
            late: AtomicU64::new(0),
        }
    }

    /// One of the two has come, and waits for the other.
    fn wait(&self, own: &AtomicU64, others: &AtomicU64) {
        own.fetch_add(1, Ordering::SeqCst);
        if !wait_for_either(others, others) {
            self.late.fetch_add(1, Ordering::SeqCst);
        }
    }

    /// Whether both came, and neither waited in vain.
    pub fn met(&self) -> bool {
        self.ones.load(Ordering::SeqCst) != 0
            && self.others.load(Ordering::SeqCst) != 0
            && self.late.load(Ordering::SeqCst) == 0
    }
}

impl Gate for Meeting {
    fn at(&self, cpu: CpuId, level: u8, point: Point) {
        if level == 0 && point == self.point {
            if cpu == self.one {
                self.wait(&self.ones, &self.others);
            } else if cpu == self.other {
                self.wait(&self.others, &self.ones);
            }
        }
    }
}
