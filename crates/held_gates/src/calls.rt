//! Gates that hold one CPU's call at a place until another CPU's call has answered.

use std::sync::atomic::{AtomicU64, Ordering};
use std::thread;
use tm_base::{CpuId, Gate, Point};

/// How often a thread that waits looks whether it may go on, with a yield after each look.
pub const MOST_LOOKS: u64 = 10_000_000;

/// Waits for as long as both words are 0; false where that was so at every look.
pub(crate) fn wait_for_either(one: &AtomicU64, other: &AtomicU64) -> bool {
    for _ in 0..MOST_LOOKS {
        if one.load(Ordering::SeqCst) != 0 || other.load(Ordering::SeqCst) != 0 {
            return true;
        }
        thread::yield_now();
    }
    false
}

/// Where a CPU is held: the CPU, the level of its walk, and the point.
#[derive(Clone, Copy, Debug, PartialEq, Eq)]
pub struct Place {
    pub cpu: CpuId,
    pub level: u8,
    pub point: Point,
}

/// A call that is held at a place until another CPU's call has answered; that one waits until the
/// place was come to. Either wait ends at the limit of looks too, which is noted.
#[derive(Drop)]
pub struct HeldCall {
    pub place: Place,
    /// How often the place was come to.
    pub came: AtomicU64,
    /// Whether the held call has returned.
    pub returned: AtomicU64,
    /// Whether the other call has answered.
    pub answered: AtomicU64,
    /// How often all looks were made in vain.
    pub late: AtomicU64,
}

impl HeldCall {
    /// Nothing has come to the place yet.
    pub fn new(place: Place) -> HeldCall {
        HeldCall {
            place,
            came: AtomicU64::new(0),
            returned: AtomicU64::new(0),
            answered: AtomicU64::new(0),
            late: AtomicU64::new(0),
        }
    }

    /// The call is at a place: where that is the one, it is held as it first comes there.
    pub fn come_to(&self, place: Place) {
        if place == self.place && self.came.fetch_add(1, Ordering::SeqCst) == 0 {
            if !wait_for_either(&self.answered, &self.answered) {
                self.late.fetch_add(1, Ordering::SeqCst);
            }
        }
    }

    /// The other call begins once the held one has come to its place, or returned.
    pub fn begin(&self) {
        if !wait_for_either(&self.came, &self.returned) {
            self.late.fetch_add(1, Ordering::SeqCst);
        }
    }

    /// The other call has answered.
    pub fn answer(&self) {
        self.answered.fetch_add(1, Ordering::SeqCst);
    }

    /// The held call has returned.
    pub fn give_back(&self) {
        self.returned.fetch_add(1, Ordering::SeqCst);
    }

    /// Whether the place was come to, the other call answered meanwhile, and no limit was reached.
    pub fn met(&self) -> bool {
        self.came.load(Ordering::SeqCst) != 0
            && self.answered.load(Ordering::SeqCst) != 0
            && self.late.load(Ordering::SeqCst) == 0
    }
}

/// Holds a CPU of a script's run in its interrupt until another CPU has woken. Each of the two goes
/// idle as its next operation, so that its first point in there says that the call before it has
/// returned.
#[derive(Drop)]
pub struct ByPoints {
    /// The CPU that wakes.
    pub through: CpuId,
    /// How often it came to wake.
    pub woke: AtomicU64,
    pub call: HeldCall,
}

impl ByPoints {
    /// Nothing has come to the place yet, and the other CPU hasn't woken.
    pub fn new(through: CpuId, place: Place) -> ByPoints {
        ByPoints {
            through,
            woke: AtomicU64::new(0),
            call: HeldCall::new(place),
        }
    }

    /// The other CPU is at a point: it wakes, or has woken and goes idle.
    fn pass_through(&self, point: Point) {
        if point == Point::BeforeUp {
            self.call.begin();
            self.woke.fetch_add(1, Ordering::SeqCst);
        } else if point == Point::BeforeChildRead && self.woke.load(Ordering::SeqCst) != 0 {
            self.call.answer();
        }
    }
}

impl Gate for ByPoints {
    fn at(&self, cpu: CpuId, level: u8, point: Point) {
        if cpu == self.through {
            self.pass_through(point);
        } else if cpu == self.call.place.cpu && point == Point::BeforeChildRead {
            self.call.give_back();
        }
        self.call.come_to(Place { cpu, level, point });
    }
}
