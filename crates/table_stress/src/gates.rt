//! Gates that CPUs pass before each of their turns and after it too.

use crate::turns::Turn;
use std::sync::atomic::{AtomicU64, Ordering};
use std::thread;
use tm_base::{CpuId, FreeGate, Gate, Point};

/// What a thread calls before each of its turns and after it. It may wait there as at a gate.
pub trait Watch: Gate {
    /// A turn is about to begin.
    fn before(&self, turn: Turn);

    /// A turn is over.
    fn after(&self, turn: Turn);
}

impl Watch for FreeGate {
    fn before(&self, _turn: Turn) {}

    fn after(&self, _turn: Turn) {}
}

/// How often a thread looks whether it is its turn, before it goes on all the same.
const PATIENCE: u32 = 12;

/// A gate at which threads pass in the order of a list. Who comes to the end of its patience passes
/// the turn on: the thread whose turn it is may wait for a lock that this one has. At the end of
/// the list it stands open.
#[derive(Drop)]
pub struct Order {
    /// The thread of each CPU, by its number; other CPUs pass freely.
    pub threads: Vec<u8>,
    /// Which thread passes next, one after the other.
    pub order: Vec<u8>,
    /// How many have passed.
    pub over: AtomicU64,
}

impl Order {
    /// Whether this thread may pass: it is its turn, or the list is at its end.
    fn is_open(&self, thread: u8) -> bool {
        let over = self.over.load(Ordering::SeqCst);
        match self.order.as_slice().get(over as usize) {
            Some(next) => *next == thread,
            None => true,
        }
    }

    /// This thread passes when it may, or has no patience left.
    fn pass(&self, thread: u8) {
        for _ in 0..PATIENCE {
            if self.is_open(thread) {
                break;
            }
            thread::yield_now();
        }
        self.over.fetch_add(1, Ordering::SeqCst);
    }

    /// The thread of a CPU passes.
    fn pass_by(&self, cpu: CpuId) {
        if let Some(thread) = self.threads.as_slice().get(usize::from(cpu.0)) {
            self.pass(*thread);
        }
    }
}

impl Gate for Order {
    fn at(&self, cpu: CpuId, _level: u8, _point: Point) {
        self.pass_by(cpu);
    }
}

impl Watch for Order {
    fn before(&self, turn: Turn) {
        self.pass_by(turn.cpu);
    }

    fn after(&self, _turn: Turn) {}
}

/// How often a CPU that is held looks whether it may go on.
const MOST_LOOKS: u64 = 10_000_000;

/// Waits for as long as a word is 0; false where it was so until all looks were made.
fn wait_for(word: &AtomicU64) -> bool {
    for _ in 0..MOST_LOOKS {
        if word.load(Ordering::SeqCst) != 0 {
            return true;
        }
        thread::yield_now();
    }
    false
}

/// A gate that forces this order: a turn; then another one, up to a place where its walk is held as
/// it first comes there; then a third one, whole; and then the rest of the second.
#[derive(Drop)]
pub struct Hold {
    pub first: Turn,
    pub held: Turn,
    /// Where the walk of the second turn is held: its CPU, level and point.
    pub place: (CpuId, u8, Point),
    pub through: Turn,
    /// How often the first turn was made, the place was come to, and the third turn was made.
    pub made: AtomicU64,
    pub came: AtomicU64,
    pub went: AtomicU64,
    /// How often all looks were made in vain.
    pub late: AtomicU64,
}

impl Hold {
    /// Holds whoever calls it, for as long as a word is 0.
    fn hold(&self, word: &AtomicU64) {
        if !wait_for(word) {
            self.late.fetch_add(1, Ordering::SeqCst);
        }
    }
}

impl Gate for Hold {
    fn at(&self, cpu: CpuId, level: u8, point: Point) {
        let (held, there, then) = self.place;
        if cpu == held && level == there && point == then {
            if self.came.fetch_add(1, Ordering::SeqCst) == 0 {
                self.hold(&self.went);
            }
        }
    }
}

impl Watch for Hold {
    fn before(&self, turn: Turn) {
        if turn == self.held {
            self.hold(&self.made);
        } else if turn == self.through {
            self.hold(&self.came);
        }
    }

    fn after(&self, turn: Turn) {
        if turn == self.first {
            self.made.fetch_add(1, Ordering::SeqCst);
        } else if turn == self.through {
            self.went.fetch_add(1, Ordering::SeqCst);
        }
    }
}
