//! The line of the isolated CPUs.

ghost use Rattle.std.specs.Prelude.{◌≡◌, ◌≤◌, Ok};
ghost use Rattle.std.specs.Option.{option_copied};
ghost use Rattle.tm_script.specs.Reading.{words_behind, with_number, no_numbers, spares};
ghost use Rattle.tm_script.specs.Reading.{isolated_by, isolated_from};

use crate::faults::Kind;
use crate::words::{first_word, number};
use tm_base::{CPU_SET_SIZE, CpuId, CpuSet};

/// The numbers of isolated CPUs that were read.
#[derive(Drop)]
pub struct Named {
    /// The numbers that are numbers of CPUs.
    pub cpus: CpuSet,
    /// The last number, where there is one.
    pub last: Option<u64>,
    /// Whether one of them is no number of a CPU.
    pub far: bool,
    /// Whether one of them isn't above the one before it.
    pub falls: bool,
}

impl Named {
    fn new() -> Named
        ensures { result ≡ no_numbers }
    {
        Named {
            cpus: CpuSet::new(),
            last: None,
            far: false,
            falls: false,
        }
    }

    fn add(&mut self, count: u16, n: u64)
        requires { count ≤ CPU_SET_SIZE }
        ensures { self.new ≡ with_number count self.old n }
    {
        if n < u64::from(count) {
            self.cpus.add(CpuId(n as u16));
        } else {
            self.far = true;
        }
        if let Some(last) = self.last
            && n <= last
        {
            self.falls = true;
        }
        self.last = Some(n);
    }

    /// The set, where each number is one of a CPU, some CPU is placed, and the numbers rise.
    #[tactic(auto, unfolding(crate::specs::Reading::isolated_by))]
    fn finish(self, count: u16) -> Result<CpuSet, Kind>
        ensures { result ≡ isolated_by count self }
    {
        if self.far || !has_spare(count, &self.cpus) {
            return Err(Kind::OutOfRange);
        }
        if self.falls {
            return Err(Kind::OutOfOrder);
        }
        Ok(self.cpus)
    }
}

/// Whether some CPU below `count` isn't in the set.
fn has_spare(count: u16, cpus: &CpuSet) -> bool
    ensures { result ≡ spares count cpus.now }
{
    for cpu in 0..count {
        if !cpus.has(CpuId(cpu)) {
            return true;
        }
    }
    false
}

/// The isolated CPUs that words name, where there are `count` CPUs.
pub fn read_isolated(count: u16, words: Option<&[u8]>) -> Result<CpuSet, Kind>
    requires { count ≤ CPU_SET_SIZE }
    ensures { result ≡ isolated_from count no_numbers (words_behind (option_copied words.entry)) }
{
    let mut named = Named::new();
    let mut rest = words;
    while let Some(words) = rest {
        let (word, after) = first_word(words);
        named.add(count, number(word)?);
        rest = after;
    }
    named.finish(count)
}
