//! The times at the heads of lines.

ghost use Rattle.std.specs.Prelude.{◌≡◌, ◌≤◌};
ghost use Rattle.linux_lines.specs.Times.{nanos, stamp_time, time_between, time_of};

use crate::numbers::{Base, number};
use text_words::cut;

/// The most seconds that a time may have, some 285 years.
pub const MOST_SECONDS: u64 = 9_000_000_000;

/// Nanoseconds in a second.
pub const NANOS: u64 = 1_000_000_000;

/// The nanoseconds of so many seconds and a fraction in units of so many, and more.
#[tactic(auto, unfolding(crate::specs::Times::nanos))]
fn nanos(seconds: Option<u64>, fraction: Option<u64>, unit: u64, more: u64) -> Option<u64>
    requires unit { unit ≤ 1000 }
    requires more { more ≤ 999 }
    ensures { result ≡ nanos seconds fraction unit more }
{
    let Some(whole) = seconds else {
        return None;
    };
    let Some(part) = fraction else {
        return None;
    };
    if whole <= MOST_SECONDS && part <= NANOS {
        Some(whole * NANOS + part * unit + more)
    } else {
        None
    }
}

/// The time of these seconds and this fraction.
#[tactic(auto, unfolding(crate::specs::Times::time_between))]
fn time_between(seconds: &[u8], fraction: &[u8]) -> Option<u64>
    ensures { result ≡ time_between seconds.now fraction.now }
{
    if fraction.len() == 6 {
        nanos(
            number(Base::Ten, seconds),
            number(Base::Ten, fraction),
            1000,
            999,
        )
    } else if fraction.len() == 9 {
        nanos(
            number(Base::Ten, seconds),
            number(Base::Ten, fraction),
            1,
            0,
        )
    } else {
        None
    }
}

/// The time that digits with a point spell; None where there is no point, or other places than six
/// and nine behind it.
#[tactic(auto, unfolding(crate::specs::Times::time_of))]
fn time_of(digits: &[u8]) -> Option<u64>
    ensures { result ≡ time_of digits.now }
{
    match cut(digits, b'.') {
        Some((seconds, rest)) => match cut(rest, b'.') {
            Some((fraction, _)) => time_between(seconds, fraction),
            None => time_between(seconds, rest),
        },
        None => None,
    }
}

/// The time of the part that ends the head of a line.
#[tactic(auto, unfolding(crate::specs::Times::stamp_time))]
pub fn stamp_time(part: &[u8]) -> Option<u64>
    ensures { result ≡ stamp_time part.now }
{
    match part.strip_suffix(b":".as_slice()) {
        Some(digits) => time_of(digits),
        None => None,
    }
}
