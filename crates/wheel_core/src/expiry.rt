//! The wheel expiry of a timer.

ghost use Rattle.std.specs.Prelude.{◌≡◌, ◌^◌, ◌<◌};
ghost use Rattle.wheel_core.specs.WheelExpiry.{KeepsTime, granule_end, level_of_delay};
ghost use Rattle.wheel_core.specs.WheelExpiry.{wheel_expiry_of, wheel_level_of};

/// The delay from which on an expiry is taken for a nearer one (`WHEEL_TIMEOUT_CUTOFF`).
const CUTOFF: u64 = 1_056_964_608;

/// The delay that is taken in its place (`WHEEL_TIMEOUT_MAX`).
const GREATEST_TIMEOUT: u64 = 1_040_187_392;

/// The level of a delay in jiffies.
#[tactic(auto, unfolding(crate::specs::WheelExpiry::level_of_delay))]
fn delay_level(delta: u64) -> u8
    ensures exact { result ≡ level_of_delay delta }
    ensures below { result < 9 }
{
    if delta < 63 {
        0
    } else if delta < 504 {
        1
    } else if delta < 4_032 {
        2
    } else if delta < 32_256 {
        3
    } else if delta < 258_048 {
        4
    } else if delta < 2_064_384 {
        5
    } else if delta < 16_515_072 {
        6
    } else if delta < 132_120_576 {
        7
    } else {
        8
    }
}

/// The end of the granule of a level in which a time lies.
fn rounded_up(time: u64, level: u8) -> u64
    requires in_time { time < 2 ^ 47 }
    requires level { level < 9 }
    ensures { result ≡ granule_end level time }
{
    let shift = 3 * level;
    ((time >> shift) + 1) << shift
}

/// The wheel expiry and the level, 0 to 8, of a timer that asks for an expiry, in a base of a
/// clock; both are in jiffies and below 2^47 (the kernel's `calc_wheel_index`). Level n has a
/// granularity of 8^n jiffies.
///
/// An expiry that is past goes to the clock. A delay below 63 goes to level 0 and the jiffy behind
/// the expiry; one from 63 * 8^(n-1) on, for n up to 8, to level n and the end of the granule. A
/// delay of 63 * 2^24 or more is taken for 62 * 2^24.
#[tactic(auto, unfolding(crate::specs::WheelExpiry::wheel_expiry_of, crate::specs::WheelExpiry::wheel_level_of, crate::specs::WheelExpiry::level_of_delay))]
pub fn wheel_expiry(expires: u64, clock: u64) -> (u64, u8)
    requires expires_in_time { expires < 2 ^ 47 }
    requires clock_in_time { clock < 2 ^ 47 }
    ensures wheel { result.0 ≡ wheel_expiry_of expires clock }
    ensures level { result.1 ≡ wheel_level_of expires clock }
    ensures keeps_time { KeepsTime expires clock }
{
    if expires < clock {
        return (clock, 0);
    }
    let delta = expires - clock;
    if delta >= CUTOFF {
        return (rounded_up(clock + GREATEST_TIMEOUT, 8), 8);
    }
    let level = delay_level(delta);
    (rounded_up(expires, level), level)
}
