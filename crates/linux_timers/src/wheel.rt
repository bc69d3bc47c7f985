//! The bucket of a timer.

ghost use Rattle.std.specs.Prelude.{◌≡◌, ◌<◌, ◌≤◌, ◌+◌, ◌*◌, ◌/◌, ◌%◌, ◌^◌};
ghost use Rattle.wheel_core.specs.WheelExpiry.{granularity, level_start};
ghost use Rattle.linux_timers.specs.Wheel.{FindsClocks, are_near, arming_fits, bucket_fits};
ghost use Rattle.linux_timers.specs.Wheel.{gives, gives_past, latest_cut, latest_of};

use linux_lines::Arming;
use wheel_core::wheel_expiry;

/// The latest time that is held against the wheel, in jiffies: 2^46, some 2,200 years of a kernel
/// with HZ = 1000.
pub const MOST_JIFFIES: u64 = 70_368_744_177_664;

/// The buckets of a base: nine levels of 64.
const BUCKETS: u16 = 576;

/// The delay from which on an expiry is taken for a nearer one (`WHEEL_TIMEOUT_CUTOFF`).
const CUTOFF: u64 = 1_056_964_608;

/// The delay that is taken in its place (`WHEEL_TIMEOUT_MAX`).
const GREATEST_TIMEOUT: u64 = 1_040_187_392;

/// Whether times are far from the end of the wheel's words.
fn are_near(now: u64, expires: u64) -> bool
    ensures { result ≡ are_near now expires }
{
    now <= MOST_JIFFIES && expires <= MOST_JIFFIES
}

/// The granule of a level: 8^level jiffies.
fn granule(time: u64, level: u8) -> u64
    requires { level < 9 }
    ensures { result ≡ time / granularity level }
{
    time >> (3 * level)
}

/// The number of the bucket of a timer in a base of a clock.
fn bucket_index(wheel: u64, level: u8) -> u64
    requires { level < 9 }
    ensures { result ≡ 64 * level + wheel / granularity level % 64 }
{
    64 * u64::from(level) + granule(wheel, level) % 64
}

/// Whether a base of this clock gives this bucket.
#[tactic(auto, unfolding(crate::specs::Wheel::gives))]
fn gives(expires: u64, clock: u64, bucket: u64, index: u16) -> bool
    requires expires_in_time { expires < 2 ^ 47 }
    requires clock_in_time { clock < 2 ^ 47 }
    ensures { result ≡ gives expires clock bucket index }
{
    let (wheel, level) = wheel_expiry(expires, clock);
    wheel == bucket && bucket_index(wheel, level) == u64::from(index)
}

/// Whether a base of this clock, which has come to another one before, gives this bucket.
#[tactic(auto, unfolding(crate::specs::Wheel::gives_past))]
fn gives_past(least: u64, expires: u64, clock: u64, bucket: u64, index: u16) -> bool
    requires expires_in_time { expires < 2 ^ 47 }
    requires clock_in_time { clock < 2 ^ 47 }
    ensures { result ≡ gives_past least expires clock bucket index }
{
    least <= clock && gives(expires, clock, bucket, index)
}

/// The least delay of a level from 1 on, in jiffies (`LVL_START`).
fn level_start(level: u16) -> u64
    requires { level < 9 }
    ensures { result ≡ level_start level }
{
    match level {
        0 | 1 => 63,
        2 => 504,
        3 => 4_032,
        4 => 32_256,
        5 => 258_048,
        6 => 2_064_384,
        7 => 16_515_072,
        _ => 132_120_576,
    }
}

/// The latest clock that gives a bucket of a level.
fn latest_of(level: u16, expires: u64, bucket: u64) -> u64
    requires { level < 9 }
    ensures { result ≡ latest_of level expires bucket }
{
    if level == 0 {
        bucket
    } else {
        expires.saturating_sub(level_start(level))
    }
}

/// The latest clock that gives a bucket to an expiry from the cutoff on.
fn latest_cut(expires: u64, bucket: u64) -> u64
    ensures { result ≡ latest_cut expires bucket }
{
    let near = expires.saturating_sub(CUTOFF);
    near.min(bucket.saturating_sub(1).saturating_sub(GREATEST_TIMEOUT))
}

/// Whether some clock from the least that the base may have up to one jiffy past now gives the
/// bucket.
#[tactic(auto, unfolding(crate::specs::Wheel::bucket_fits))]
fn bucket_fits(least: u64, now: u64, expires: u64, bucket: u64, index: u16) -> bool
    requires now { now ≤ MOST_JIFFIES }
    requires expires { expires ≤ MOST_JIFFIES }
    ensures { result ≡ bucket_fits least now expires bucket index }
{
    if index >= BUCKETS {
        return false;
    }
    let last = now + 1;
    let near = last.min(latest_of(index / 64, expires, bucket));
    let far = last.min(latest_cut(expires, bucket));
    gives_past(least, expires, near, bucket, index)
        || gives_past(least, expires, far, bucket, index)
}

/// Whether the bucket of an armed timer is the one that the wheel gives it (`calc_wheel_index`)
/// from some clock of its base up to one jiffy past the line's, which is at this or later. A line
/// that has no jiffies, or times past `MOST_JIFFIES`, fits.
#[tactic(auto, unfolding(crate::specs::Wheel::arming_fits))]
pub fn arming_fits(least: u64, arming: &Arming) -> bool
    ensures { result ≡ arming_fits least arming.now }
{
    match arming.jiffies {
        Some(now) => {
            !are_near(now, arming.expires)
                || bucket_fits(least, now, arming.expires, arming.bucket, arming.index)
        }
        None => true,
    }
}

/// `bucket_fits` misses no clock that the base may have, and makes up none.
pub fn law_clocks()
    ensures { FindsClocks }
{}
