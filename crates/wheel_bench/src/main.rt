//! Times the nine-level wheel, and the queue over it. With no words it does nothing; with any word
//! it writes a line for each measurement: `WheelBase SIZE COLUMN NANOSECONDS COUNT`, and the same
//! with `TimerQueue`.
#![tactic(auto)]

ghost use Rattle.std.specs.Prelude.{◌≡◌, ◌+◌, ◌^◌, ◌<◌, ◌≤◌, [], length, false};
ghost use Rattle.wheel_core.specs.PlainBase.{NoneBehind};

mod queue;

use std::env;
use std::time::Instant;
use wheel_base::WheelBase;
use wheel_core::TimerBase;

/// The time, in jiffies, at which the timers are armed.
const START: u64 = 1000;

/// The jiffies in which all timers expire.
const JIFFIES: u32 = 600;

/// The rounds of each measurement.
const ROUNDS: u32 = 9;

/// The delays of timers by their numbers, and the timers in a random order.
#[derive(Drop)]
struct Work {
    delays: Vec<u32>,
    order: Vec<u32>,
}

/// The next random number (xorshift).
fn next(x: u64) -> u64 {
    let a = x ^ (x << 13);
    let b = a ^ (a >> 7);
    b ^ (b << 17)
}

/// Delays of 20 to 500 jiffies for so many timers.
fn make_work(rt: &HostRuntime, n: usize) -> anyhow::Result<Work> {
    let mut delays = Vec::new(rt.alloc());
    let mut order = Vec::new(rt.alloc());
    let mut x = 88172645463325252u64;
    for i in 0..n {
        x = next(x);
        delays.push(20 + (x % 481) as u32)?;
        order.push((i & 0xffff_ffff) as u32)?;
    }
    for k in 1..n {
        let i = n - k;
        x = next(x);
        let j = (x % (i as u64 + 1)) as usize;
        if i < order.len() && j < order.len() {
            order.swap(i, j);
        }
    }
    Ok(Work { delays, order })
}

/// Arms timer i with delay i, for each delay.
fn arm_all(base: &mut WheelBase, delays: &[u32])
    requires empty { base.old.plain.items ≡ [] }
    requires clock { base.old.plain.clock ≡ 1000 }
    requires room { length delays.now ≤ base.old.capacity }
    requires few { length delays.now < 2 ^ 32 }
{
    for i in 0..delays.len() {
        base.add(i as u32, START + u64::from(delays[i]), 0, 0);
    }
}

/// Arms them where the base is empty, at the start and has room.
fn arm(base: &mut WheelBase, delays: &[u32]) -> anyhow::Result<()> {
    base.reserve(delays.len())
        .map_err(|_| anyhow::anyhow!("memory"))?;
    if base.len() == 0 && base.clock() == START && delays.len() < 1 << 32 {
        arm_all(base, delays);
    }
    Ok(())
}

/// Cancels timers in an order.
fn cancel_all(base: &mut WheelBase, order: &[u32]) -> u64 {
    let mut found = 0u64;
    for id in order {
        if base.remove(*id).is_some() {
            found = found.wrapping_add(1);
        }
    }
    found
}

/// Takes out what is due at a time.
fn drain(base: &mut WheelBase, now: u64) -> u64 {
    let mut ran = 0u64;
    while let Some(_) = base.take_next(now) {
        ran = ran.wrapping_add(1);
    }
    ran
}

/// Goes on jiffy by jiffy.
fn expire_all(base: &mut WheelBase, jiffies: u32) -> u64 {
    let mut ran = 0u64;
    for tick in 0..jiffies {
        ran = ran.wrapping_add(drain(base, START + u64::from(tick)));
    }
    ran
}

/// Whether a queued wheel expiry is below the clock.
fn is_behind(base: &WheelBase) -> bool
    ensures { result ≡ false → NoneBehind base.now.plain }
{
    let Some(first) = base.first() else {
        return false;
    };
    first < base.clock()
}

/// Arms a timer where `add` may be called, which is tested.
fn arm_again(base: &mut WheelBase, id: u32, expires: u64) -> bool {
    if base.reserve(1).is_err() {
        return false;
    }
    if base.get(id).is_some() || is_behind(base) {
        return false;
    }
    if expires >= 1 << 47 || base.clock() >= 1 << 47 {
        return false;
    }
    base.add(id, expires, 0, 0);
    true
}

/// The delay of a turn.
fn delay_of(delays: &[u32], turn: u64) -> u64
    ensures { result < 2 ^ 32 }
{
    if delays.is_empty() {
        return 1;
    }
    u64::from(delays[(turn % delays.len() as u64) as usize])
}

/// Takes out what is due at a time, and puts the timers' numbers down.
fn collect(base: &mut WheelBase, out: &mut Vec<u32>, now: u64) -> anyhow::Result<()> {
    out.clear();
    while let Some(item) = base.take_next(now) {
        out.push(item.id)?;
    }
    Ok(())
}

/// Arms timers again.
fn arm_out(base: &mut WheelBase, out: &[u32], delays: &[u32], now: u64, ran: u64) {
    let mut turn = ran;
    for id in out {
        arm_again(base, *id, now.saturating_add(delay_of(delays, turn)));
        turn = turn.wrapping_add(1);
    }
}

/// Goes on jiffy by jiffy; what goes out at a jiffy is armed again after it.
fn steady(
    base: &mut WheelBase,
    delays: &[u32],
    out: &mut Vec<u32>,
    from: u32,
    until: u32,
) -> anyhow::Result<u64> {
    let mut ran = 0u64;
    for tick in from..until {
        let now = START + u64::from(tick);
        base.forward(now);
        collect(base, out, now)?;
        arm_out(base, out, delays, now, ran);
        ran = ran.wrapping_add(out.len() as u64);
    }
    Ok(ran)
}

/// Cancels a timer and arms it again. That there is room for it, and that it isn't queued, follows
/// from its being cancelled.
fn put_off(base: &mut WheelBase, id: u32, expires: u64) -> u64 {
    if is_behind(base) || base.clock() >= 1 << 47 || expires >= 1 << 47 {
        return 0;
    }
    if base.remove(id).is_none() {
        return 0;
    }
    base.add(id, expires, 0, 0);
    1
}

/// Goes on to a time, and takes out a timer that is due.
fn go_on(base: &mut WheelBase, now: u64) {
    base.forward(now);
    base.take_next(now);
}

/// The timer of a turn.
fn id_of(order: &[u32], turn: u64) -> u32 {
    if order.is_empty() {
        return 0;
    }
    order[(turn % order.len() as u64) as usize]
}

/// Puts timers off in turn, far off, as network timeouts are.
fn timeouts(base: &mut WheelBase, work: &Work, turns: u32) -> u64 {
    let mut done = 0u64;
    for count in 0..turns {
        let turn = u64::from(count);
        let now = START + (turn >> 6);
        if turn & 63 == 0 {
            go_on(base, now);
        }
        let expires = now + 1_000_000 + delay_of(&work.delays, turn);
        done = done.wrapping_add(put_off(base, id_of(&work.order, turn), expires));
    }
    done
}

/// An empty base at the start that was used once, so that its memory is there.
fn warm(rt: &HostRuntime, work: &Work) -> anyhow::Result<WheelBase> {
    let mut base = WheelBase::new(rt.alloc()).map_err(|_| anyhow::anyhow!("memory"))?;
    base.forward(START);
    arm(&mut base, &work.delays)?;
    for id in 0..work.delays.len() {
        base.remove((id & 0xffff_ffff) as u32);
    }
    Ok(base)
}

/// Writes a measurement.
fn tell(
    rt: &HostRuntime,
    queue: &str,
    size: usize,
    column: &str,
    nanos: u128,
    count: u64,
) -> anyhow::Result<()> {
    println!(rt; "{queue} {size} {column} {nanos} {count}")?;
    Ok(())
}

/// Arms timers and cancels them.
fn arms_and_cancels(rt: &HostRuntime, work: &Work) -> anyhow::Result<()> {
    let size = work.delays.len();
    let mut base = warm(rt, work)?;
    let from = Instant::now(rt)?;
    arm(&mut base, &work.delays)?;
    tell(
        rt,
        "WheelBase",
        size,
        "arm",
        from.elapsed(rt)?.as_nanos(),
        size as u64,
    )?;
    let from = Instant::now(rt)?;
    let cancelled = cancel_all(&mut base, &work.order);
    tell(
        rt,
        "WheelBase",
        size,
        "cancel",
        from.elapsed(rt)?.as_nanos(),
        cancelled,
    )
}

/// Lets timers expire.
fn expiries(rt: &HostRuntime, work: &Work) -> anyhow::Result<()> {
    let mut base = warm(rt, work)?;
    arm(&mut base, &work.delays)?;
    let from = Instant::now(rt)?;
    let ran = expire_all(&mut base, JIFFIES);
    tell(
        rt,
        "WheelBase",
        work.delays.len(),
        "expiry",
        from.elapsed(rt)?.as_nanos(),
        ran,
    )
}

/// The mix of expiries and arms.
fn steady_mix(rt: &HostRuntime, work: &Work) -> anyhow::Result<()> {
    let mut out = Vec::new(rt.alloc());
    out.reserve(work.delays.len())?;
    let mut base = warm(rt, work)?;
    arm(&mut base, &work.delays)?;
    steady(&mut base, &work.delays, &mut out, 1, 501)?;
    let from = Instant::now(rt)?;
    let ran = steady(&mut base, &work.delays, &mut out, 501, 4501)?;
    tell(
        rt,
        "WheelBase",
        work.delays.len(),
        "steady",
        from.elapsed(rt)?.as_nanos(),
        ran,
    )
}

/// The mix of cancels and arms.
fn timeout_mix(rt: &HostRuntime, work: &Work) -> anyhow::Result<()> {
    let mut base = warm(rt, work)?;
    for id in work.order.as_slice() {
        let far = delay_of(&work.delays, u64::from(*id));
        arm_again(&mut base, *id, START + 1_000_000 + far);
    }
    let from = Instant::now(rt)?;
    let done = timeouts(&mut base, work, 200_000);
    tell(
        rt,
        "WheelBase",
        work.delays.len(),
        "timeout",
        from.elapsed(rt)?.as_nanos(),
        done,
    )
}

fn main(rt: HostRuntime) -> anyhow::Result<()> {
    if env::args(&rt)?.count() < 2 {
        return Ok(());
    }
    for size in [64, 1024, 4096, 100_000] {
        let work = make_work(&rt, size)?;
        for _ in 0..ROUNDS {
            arms_and_cancels(&rt, &work)?;
            expiries(&rt, &work)?;
            steady_mix(&rt, &work)?;
            timeout_mix(&rt, &work)?;
            queue::measure(&rt, &work)?;
        }
    }
    Ok(())
}
