//! The numbers of CPUs that a core shows.

ghost use Rattle.std.specs.Prelude.{◌≡◌, option_map};
ghost use Rattle.core_state.specs.Shown.{as_cpu};

use tm_base::CpuId;

/// The CPU of a number.
pub(crate) fn cpu_number(number: Option<u16>) -> Option<CpuId>
    ensures { result ≡ option_map as_cpu number }
{
    match number {
        Some(number) => Some(CpuId(number)),
        None => None,
    }
}
