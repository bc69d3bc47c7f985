//! Reading the events of timers and of softirqs.

ghost use Rattle.std.specs.Prelude.{◌≡◌};
ghost use Rattle.linux_lines.specs.Parts.{has_key, parts_of};
ghost use Rattle.linux_lines.specs.Timers.{arming_in, class_at, class_of, expiry_in, has_flag};
ghost use Rattle.linux_lines.specs.Timers.{jiffies_at, jiffies_in, jiffies_told, removal_in};
ghost use Rattle.linux_lines.specs.Timers.{softirq_in};
ghost use Rattle.linux_lines.specs.Timers.{time_after, time_before, timer_event_of, timer_name_of};
ghost use Rattle.linux_lines.specs.Timers.{unbracketed};

use crate::LineFault;
use crate::events::{Arming, Expiry, TimerEvent};
use crate::fields::{has_key, number_at, pointer_at};
use crate::numbers::{Base, read_number};
use crate::parts::{behind, value_in};
use tm_base::{CPU_SET_SIZE, Class, CpuId};

/// The largest number of a bucket: nine levels of 64.
const LAST_BUCKET: u64 = 575;

/// The events of timers and of softirqs, by their names.
#[derive(Clone, Copy)]
pub enum TimerName {
    /// `timer_start`
    Start,
    /// `timer_cancel`
    Cancel,
    /// `timer_expire_entry`
    ExpireEntry,
    /// `softirq_entry`, `softirq_exit`
    Softirq,
}

/// Which event has this name.
#[tactic(auto, unfolding(crate::specs::Timers::timer_name_of))]
pub fn timer_name_of(name: &[u8]) -> Option<TimerName>
    ensures { result ≡ timer_name_of name.now }
{
    if name == b"timer_start:".as_slice() {
        Some(TimerName::Start)
    } else if name == b"timer_cancel:".as_slice() {
        Some(TimerName::Cancel)
    } else if name == b"timer_expire_entry:".as_slice() {
        Some(TimerName::ExpireEntry)
    } else if name == b"softirq_entry:".as_slice() || name == b"softirq_exit:".as_slice() {
        Some(TimerName::Softirq)
    } else {
        None
    }
}

/// A time of so many jiffies earlier.
#[tactic(auto, unfolding(crate::specs::Timers::time_before))]
fn time_before(expires: u64, more: u64) -> Result<u64, LineFault>
    ensures { result ≡ time_before expires more }
{
    if more <= expires {
        Ok(expires - more)
    } else {
        Err(LineFault::OutOfRange)
    }
}

/// A time of so many jiffies later, within 64 bits.
#[tactic(auto, unfolding(crate::specs::Timers::time_after))]
fn time_after(expires: u64, more: u64) -> Result<u64, LineFault>
    ensures { result ≡ time_after expires more }
{
    if more <= u64::MAX - expires {
        Ok(expires + more)
    } else {
        Err(LineFault::OutOfRange)
    }
}

/// The jiffies from which a timeout, with its closing bracket or without, leads to an expiry.
#[tactic(auto, unfolding(crate::specs::Timers::jiffies_in))]
fn jiffies_in(expires: u64, word: &[u8]) -> Result<u64, LineFault>
    ensures { result ≡ jiffies_in expires word.now }
{
    let timeout = without_bracket(word);
    match behind(timeout, b"-") {
        Some(digits) => time_after(expires, read_number(Base::Ten, digits)?),
        None => time_before(expires, read_number(Base::Ten, timeout)?),
    }
}

/// What stands before a closing bracket, or all.
fn without_bracket(word: &[u8]) -> &[u8]
    ensures { result.now ≡ unbracketed word.now }
{
    match word.strip_suffix(b"]".as_slice()) {
        Some(inner) => inner,
        None => word,
    }
}

/// The jiffies at which a line was written, where it says how far ahead the expiry is.
#[tactic(auto, unfolding(crate::specs::Timers::jiffies_at))]
fn jiffies_at(expires: u64, bytes: &[u8]) -> Result<Option<u64>, LineFault>
    ensures { result ≡ jiffies_at expires (parts_of bytes.now) }
{
    if has_key(bytes, b"[timeout=") {
        jiffies_told(expires, bytes)
    } else {
        Ok(None)
    }
}

/// .. where it does.
#[tactic(auto, unfolding(crate::specs::Timers::jiffies_told))]
fn jiffies_told(expires: u64, bytes: &[u8]) -> Result<Option<u64>, LineFault>
    ensures { result ≡ jiffies_told expires (parts_of bytes.now) }
{
    let word = value_in(bytes, b"[timeout=")?;
    let now = jiffies_in(expires, word)?;
    Ok(Some(now))
}

/// Whether a flag is among these.
fn has_flag(flags: &[u8], flag: u8) -> bool
    ensures { result ≡ has_flag flags.now flag }
{
    flags.iter().any(|byte| *byte == flag)
}

/// The base of a timer of these flags (`get_timer_cpu_base`): `D` is deferrable, `P` is pinned.
/// `trace-cmd report` writes `D|P|I` for any flags, so these say nothing.
#[tactic(auto, unfolding(crate::specs::Timers::class_of))]
fn class_of(flags: &[u8]) -> Option<Class>
    ensures { result ≡ class_of flags.now }
{
    if flags == b"D|P|I".as_slice() {
        None
    } else if has_flag(flags, b'D') {
        Some(Class::Deferrable)
    } else if has_flag(flags, b'P') {
        Some(Class::Pinned)
    } else {
        Some(Class::Global)
    }
}

/// The base of a timer.
#[tactic(auto, unfolding(crate::specs::Timers::class_at))]
fn class_at(bytes: &[u8]) -> Result<Option<Class>, LineFault>
    ensures { result ≡ class_at (parts_of bytes.now) }
{
    let flags = value_in(bytes, b"flags=")?;
    Ok(class_of(flags))
}

/// A timer that goes into a bucket.
#[tactic(auto, unfolding(crate::specs::Timers::arming_in))]
fn read_arming(bytes: &[u8]) -> Result<Arming, LineFault>
    ensures { result ≡ arming_in (parts_of bytes.now) }
{
    let timer = pointer_at(bytes, b"timer=")?;
    let expires = number_at(bytes, b"expires=", u64::MAX)?;
    let jiffies = jiffies_at(expires, bytes)?;
    let bucket = number_at(bytes, b"bucket_expiry=", u64::MAX)?;
    let cpu = number_at(bytes, b"cpu=", u64::from(CPU_SET_SIZE) - 1)?;
    let index = number_at(bytes, b"idx=", LAST_BUCKET)?;
    let class = class_at(bytes)?;
    Ok(Arming {
        timer,
        expires,
        jiffies,
        bucket,
        cpu: CpuId(cpu as u16),
        index: index as u16,
        class,
    })
}

/// A timer whose function is about to run.
#[tactic(auto, unfolding(crate::specs::Timers::expiry_in))]
fn read_expiry(bytes: &[u8]) -> Result<Expiry, LineFault>
    ensures { result ≡ expiry_in (parts_of bytes.now) }
{
    let timer = pointer_at(bytes, b"timer=")?;
    let jiffies = number_at(bytes, b"now=", u64::MAX)?;
    let clock = number_at(bytes, b"baseclk=", u64::MAX)?;
    Ok(Expiry {
        timer,
        jiffies,
        clock,
    })
}

/// What the event of this name says.
#[tactic(auto, unfolding(crate::specs::Timers::timer_event_of))]
pub fn read_timer_event(name: TimerName, bytes: &[u8]) -> Result<TimerEvent, LineFault>
    ensures { result ≡ timer_event_of name (parts_of bytes.now) }
{
    match name {
        TimerName::Start => Ok(TimerEvent::Armed(read_arming(bytes)?)),
        TimerName::Cancel => Ok(TimerEvent::Removed(read_removal(bytes)?)),
        TimerName::ExpireEntry => Ok(TimerEvent::Ran(read_expiry(bytes)?)),
        TimerName::Softirq => Ok(TimerEvent::Softirq(read_softirq(bytes)?)),
    }
}

/// The timer that leaves its bucket.
#[tactic(auto, unfolding(crate::specs::Timers::removal_in))]
fn read_removal(bytes: &[u8]) -> Result<u64, LineFault>
    ensures { result ≡ removal_in (parts_of bytes.now) }
{
    pointer_at(bytes, b"timer=")
}

/// The number of a softirq.
#[tactic(auto, unfolding(crate::specs::Timers::softirq_in))]
fn read_softirq(bytes: &[u8]) -> Result<u64, LineFault>
    ensures { result ≡ softirq_in (parts_of bytes.now) }
{
    number_at(bytes, b"vec=", u64::MAX)
}
