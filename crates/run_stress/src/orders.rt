//! A gate at which the walks of CPUs take turns.

use std::sync::atomic::{AtomicU64, Ordering};
use std::thread;
use tm_base::{CpuId, Gate, Point};

/// How often a thread looks whether it is its turn, before it goes on all the same.
const PATIENCE: u32 = 12;

/// A gate at which CPUs pass by turns, each turn being that of the CPU that a list names. Who comes
/// to the end of its patience passes the turn on: the walk whose turn it is may wait for a lock
/// that the other one has. At the end of the list it stands open.
#[derive(Drop)]
pub(crate) struct Turns {
    /// Whose turns these are, by the numbers of the CPUs.
    pub(crate) order: Vec<u8>,
    /// How many turns are over.
    pub(crate) over: AtomicU64,
}

impl Turns {
    /// Whether a walk of this CPU may pass: it is its turn, or there are none left.
    fn is_open(&self, cpu: CpuId) -> bool {
        let over = self.over.load(Ordering::SeqCst);
        match self.order.as_slice().get(over as usize) {
            Some(turn) => u16::from(*turn) == cpu.0,
            None => true,
        }
    }
}

impl Gate for Turns {
    fn at(&self, cpu: CpuId, _level: u8, _point: Point) {
        for _ in 0..PATIENCE {
            if self.is_open(cpu) {
                break;
            }
            thread::yield_now();
        }
        self.over.fetch_add(1, Ordering::SeqCst);
    }
}
