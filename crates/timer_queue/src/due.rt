//! What is due, timer by timer.

ghost use Rattle.std.specs.Prelude.{◌≡◌};
ghost use Rattle.timer_queue.specs.Due.{DueKeepsAlong, due_lender, due_queue, due_tick};

use crate::{Key, TimerQueue};
use std::fmt::{self, Debug, Formatter};

/// Takes what is due at a tick out of a queue. Each item is what
/// [`pop_due`](TimerQueue::pop_due) answers, and what isn't asked for stays in the queue.
#[derive(Drop)]
pub struct Due<'a, T> {
    queue: &'a mut TimerQueue<T>,
    tick: u64,
}

impl<T> TimerQueue<T> {
    /// What is due at a tick, as an iterator that takes it out: it gives what calls of `pop_due`
    /// give until None.
    pub fn due(&mut self, now: u64) -> Due<'_, T>
        ensures queue { due_queue result ≡ self.old }
        ensures tick { due_tick result ≡ now }
        ensures same_reference { due_lender result ≡ self.entry.ghost_name }
        ensures stays { DueKeepsAlong result }
    {
        Due {
            queue: self,
            tick: now,
        }
    }
}

impl<'a, T> Iterator for Due<'a, T> {
    ghost use Rattle.std.specs.Iterator.{at_most};
    ghost use Rattle.timer_queue.specs.Due.{DueSteps, due_queue};
    ghost use Rattle.timer_queue.specs.Queues.{count};

    type Item = (Key, u64, T);

    ghost next_gives = { DueSteps };

    ghost remaining = { λ due. at_most (count (due_queue due)) };

    fn next(&mut self) -> Option<(Key, u64, T)> {
        let (key, expires, value) = self.queue.pop_due(self.tick)?;
        Some((key, expires, value))
    }
}

impl<'a, T> Debug for Due<'a, T> {
    fn fmt<W: fmt::Write>(&self, f: &mut Formatter<W>) -> fmt::Result {
        write!(f, "Due {{ tick: {} }}", self.tick)
    }
}
