//! The queue over the wheel, with the wheel's work.

use crate::{JIFFIES, START, Work, delay_of, id_of, tell};
use std::time::Instant;
use timer_queue::{Key, TimerQueue};

/// What the lines call the queue.
const NAME: &str = "TimerQueue";

/// A queue of timers' numbers, and their keys by their numbers.
#[derive(Drop)]
struct Desk {
    queue: TimerQueue<u32>,
    keys: Vec<Key>,
}

/// Puts a timer in, and writes its key down.
fn put(desk: &mut Desk, id: u32, expires: u64) {
    let Ok(key) = desk.queue.insert(expires, id) else {
        return;
    };
    if (id as usize) < desk.keys.len() {
        desk.keys[id as usize] = key;
    }
}

/// Puts timer i in with delay i, for each delay.
fn arm(desk: &mut Desk, delays: &[u32]) {
    for i in 0..delays.len() {
        put(desk, (i & 0xffff_ffff) as u32, START + u64::from(delays[i]));
    }
}

/// The key of a timer.
fn key_of(desk: &Desk, id: u32) -> Key {
    match desk.keys.get(id as usize) {
        Some(key) => *key,
        None => Key::from_parts(0, 0),
    }
}

/// Cancels timers in an order.
fn cancel_all(desk: &mut Desk, order: &[u32]) -> u64 {
    let mut found = 0u64;
    for id in order {
        let key = key_of(desk, *id);
        if desk.queue.cancel(key).is_some() {
            found = found.wrapping_add(1);
        }
    }
    found
}

/// Takes out what is due at a time.
fn drain(desk: &mut Desk, now: u64) -> u64 {
    let mut ran = 0u64;
    for _out in desk.queue.due(now) {
        ran = ran.wrapping_add(1);
    }
    ran
}

/// Goes on jiffy by jiffy.
fn expire_all(desk: &mut Desk, jiffies: u32) -> u64 {
    let mut ran = 0u64;
    for tick in 0..jiffies {
        ran = ran.wrapping_add(drain(desk, START + u64::from(tick)));
    }
    ran
}

/// Takes out what is due at a time, and puts the timers' numbers down.
fn collect(desk: &mut Desk, out: &mut Vec<u32>, now: u64) -> anyhow::Result<()> {
    out.clear();
    for (_key, _expires, id) in desk.queue.due(now) {
        out.push(id)?;
    }
    Ok(())
}

/// Puts timers in again.
fn arm_out(desk: &mut Desk, out: &[u32], delays: &[u32], now: u64, ran: u64) {
    let mut turn = ran;
    for id in out {
        put(desk, *id, now.saturating_add(delay_of(delays, turn)));
        turn = turn.wrapping_add(1);
    }
}

/// Goes on jiffy by jiffy; what goes out at a jiffy is put in again after it.
fn steady(
    desk: &mut Desk,
    delays: &[u32],
    out: &mut Vec<u32>,
    from: u32,
    until: u32,
) -> anyhow::Result<u64> {
    let mut ran = 0u64;
    for tick in from..until {
        let now = START + u64::from(tick);
        collect(desk, out, now)?;
        arm_out(desk, out, delays, now, ran);
        ran = ran.wrapping_add(out.len() as u64);
    }
    Ok(ran)
}

/// Puts timers off in turn, far off, as network timeouts are.
fn timeouts(desk: &mut Desk, work: &Work, turns: u32) -> u64 {
    let mut done = 0u64;
    for count in 0..turns {
        let turn = u64::from(count);
        let now = START + (turn >> 6);
        if turn & 63 == 0 {
            desk.queue.pop_due(now);
        }
        let expires = now + 1_000_000 + delay_of(&work.delays, turn);
        let key = key_of(desk, id_of(&work.order, turn));
        if desk.queue.reset(key, expires).is_ok() {
            done = done.wrapping_add(1);
        }
    }
    done
}

/// An empty queue at the start that was used once, so that its memory is there.
fn warm(rt: &HostRuntime, work: &Work) -> anyhow::Result<Desk> {
    let size = work.delays.len();
    let mut desk = Desk {
        queue: TimerQueue::with_capacity(rt.alloc(), size)?,
        keys: Vec::from_elem(rt.alloc(), Key::from_parts(0, 0), size)?,
    };
    desk.queue.pop_due(START);
    arm(&mut desk, &work.delays);
    desk.queue.clear();
    Ok(desk)
}

/// Puts timers in and cancels them.
fn arms_and_cancels(rt: &HostRuntime, work: &Work) -> anyhow::Result<()> {
    let size = work.delays.len();
    let mut desk = warm(rt, work)?;
    let from = Instant::now(rt)?;
    arm(&mut desk, &work.delays);
    tell(
        rt,
        NAME,
        size,
        "arm",
        from.elapsed(rt)?.as_nanos(),
        size as u64,
    )?;
    let from = Instant::now(rt)?;
    let cancelled = cancel_all(&mut desk, &work.order);
    tell(
        rt,
        NAME,
        size,
        "cancel",
        from.elapsed(rt)?.as_nanos(),
        cancelled,
    )
}

/// Lets timers expire.
fn expiries(rt: &HostRuntime, work: &Work) -> anyhow::Result<()> {
    let mut desk = warm(rt, work)?;
    arm(&mut desk, &work.delays);
    let from = Instant::now(rt)?;
    let ran = expire_all(&mut desk, JIFFIES);
    tell(
        rt,
        NAME,
        work.delays.len(),
        "expiry",
        from.elapsed(rt)?.as_nanos(),
        ran,
    )
}

/// The mix of expiries and inserts.
fn steady_mix(rt: &HostRuntime, work: &Work) -> anyhow::Result<()> {
    let mut out = Vec::new(rt.alloc());
    out.reserve(work.delays.len())?;
    let mut desk = warm(rt, work)?;
    arm(&mut desk, &work.delays);
    steady(&mut desk, &work.delays, &mut out, 1, 501)?;
    let from = Instant::now(rt)?;
    let ran = steady(&mut desk, &work.delays, &mut out, 501, 4501)?;
    tell(
        rt,
        NAME,
        work.delays.len(),
        "steady",
        from.elapsed(rt)?.as_nanos(),
        ran,
    )
}

/// The resets.
fn timeout_mix(rt: &HostRuntime, work: &Work) -> anyhow::Result<()> {
    let mut desk = warm(rt, work)?;
    for id in work.order.as_slice() {
        let far = delay_of(&work.delays, u64::from(*id));
        put(&mut desk, *id, START + 1_000_000 + far);
    }
    let from = Instant::now(rt)?;
    let done = timeouts(&mut desk, work, 200_000);
    tell(
        rt,
        NAME,
        work.delays.len(),
        "timeout",
        from.elapsed(rt)?.as_nanos(),
        done,
    )
}

/// All measurements of the queue, once.
pub(crate) fn measure(rt: &HostRuntime, work: &Work) -> anyhow::Result<()> {
    arms_and_cancels(rt, work)?;
    expiries(rt, work)?;
    steady_mix(rt, work)?;
    timeout_mix(rt, work)
}
