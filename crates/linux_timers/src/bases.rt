//! What was seen of the clocks of a CPU's bases.

ghost use Rattle.std.specs.Prelude.{◌≡◌};
ghost use Rattle.linux_timers.specs.Bases.{clock_after, clock_of, clocks_after, clocks_by, is_cpu};
ghost use Rattle.linux_timers.specs.Bases.{is_jumbled, least_at, least_of, unknown_clock};
ghost use Rattle.linux_timers.specs.Bases.{unknown_clocks, writer_of};

use linux_seen::tree::same_pointer;
use tm_base::{Class, CpuId};

/// What is known of a base's clock.
#[derive(Clone, Copy)]
pub struct BaseClock {
    /// It is at this or later, in jiffies.
    pub least: u64,
    /// The time of the line that showed it, where there is one.
    pub at: Option<u64>,
    /// The CPU that wrote it; None where several wrote such lines of that time.
    pub by: Option<CpuId>,
}

/// The clocks of a CPU's bases.
#[derive(Clone, Copy)]
pub struct Clocks {
    pub pinned: BaseClock,
    pub global: BaseClock,
    pub deferrable: BaseClock,
}

fn unknown_clock() -> BaseClock
    ensures { result ≡ unknown_clock }
{
    BaseClock {
        least: 0,
        at: None,
        by: None,
    }
}

/// The clocks of bases of which nothing was seen.
pub fn unknown_clocks() -> Clocks
    ensures { result ≡ unknown_clocks }
{
    Clocks {
        pinned: unknown_clock(),
        global: unknown_clock(),
        deferrable: unknown_clock(),
    }
}

fn is_cpu(known: Option<CpuId>, cpu: CpuId) -> bool
    ensures { result ≡ is_cpu known cpu }
{
    match known {
        Some(other) => other.0 == cpu.0,
        None => false,
    }
}

/// Whether what was written at a time by a CPU, or by several, may be later than a line of this CPU
/// that stands after it. While the kernel's clock has the resolution of a jiffy, lines of one time
/// stand by CPU.
#[tactic(auto, unfolding(crate::specs::Bases::is_jumbled))]
pub fn is_jumbled(at: Option<u64>, by: Option<CpuId>, cpu: CpuId, now: Option<u64>) -> bool
    ensures { result ≡ is_jumbled at by cpu now }
{
    now.is_some() && same_pointer(at, now) && !is_cpu(by, cpu)
}

#[tactic(auto, unfolding(crate::specs::Bases::least_at))]
fn least_at(base: BaseClock, cpu: CpuId, at: Option<u64>) -> u64
    ensures { result ≡ least_at base cpu at }
{
    if is_jumbled(base.at, base.by, cpu, at) {
        0
    } else {
        base.least
    }
}

fn clock_of(clocks: &Clocks, class: Class) -> BaseClock
    ensures { result ≡ clock_of clocks.now class }
{
    match class {
        Class::Pinned => clocks.pinned,
        Class::Global => clocks.global,
        Class::Deferrable => clocks.deferrable,
    }
}

/// The least clock, in jiffies, that a base is known to have at a line of this CPU at this time; 0
/// where none is known.
pub fn least_of(clocks: &Clocks, class: Option<Class>, cpu: CpuId, at: Option<u64>) -> u64
    ensures { result ≡ least_of clocks.now class cpu at }
{
    match class {
        Some(known) => least_at(clock_of(clocks, known), cpu, at),
        None => 0,
    }
}

fn writer_of(several: bool, cpu: CpuId) -> Option<CpuId>
    ensures { result ≡ writer_of several cpu }
{
    if several { None } else { Some(cpu) }
}

#[tactic(auto, unfolding(crate::specs::Bases::clock_after))]
fn clock_after(base: BaseClock, cpu: CpuId, at: Option<u64>, clock: u64) -> BaseClock
    ensures { result ≡ clock_after base cpu at clock }
{
    BaseClock {
        least: base.least.max(clock),
        at,
        by: writer_of(is_jumbled(base.at, base.by, cpu, at), cpu),
    }
}

fn clocks_by(clocks: Clocks, class: Class, clock: BaseClock) -> Clocks
    ensures { result ≡ clocks_by clocks class clock }
{
    match class {
        Class::Pinned => Clocks {
            pinned: clock,
            ..clocks
        },
        Class::Global => Clocks {
            global: clock,
            ..clocks
        },
        Class::Deferrable => Clocks {
            deferrable: clock,
            ..clocks
        },
    }
}

/// The clocks once a line of this CPU at this time shows that one of the bases has come to a clock.
#[tactic(auto, unfolding(crate::specs::Bases::clocks_after))]
pub fn clocks_after(
    clocks: Clocks,
    class: Option<Class>,
    cpu: CpuId,
    at: Option<u64>,
    clock: u64,
) -> Clocks
    ensures { result ≡ clocks_after clocks class cpu at clock }
{
    match class {
        Some(known) => {
            let base = clock_after(clock_of(&clocks, known), cpu, at, clock);
            clocks_by(clocks, known, base)
        }
        None => clocks,
    }
}
