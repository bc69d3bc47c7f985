//! Whether a core's bases are as the beginning of a run asks.

ghost use Rattle.std.specs.Prelude.{◌≡◌, ◌<◌, length, true};
ghost use Rattle.core_world.specs.World.{cpu_of};
ghost use Rattle.shared_table.specs.Ended.{HasNoBaseBehind};
ghost use Rattle.shared_table.specs.Readied.{HasNoneBehind};

use shared_table::Core;
use tm_base::{Class, CpuId};
use wheel_base::WheelBase;

/// Whether in no base of any CPU a queued wheel expiry is below the base's clock. It looks at each
/// base.
pub fn no_base_behind(core: &Core<WheelBase>) -> bool
    ensures { result ≡ true → HasNoBaseBehind core.now }
{
    for cpu in 0..core.count() {
        if !none_behind(core, CpuId(cpu)) {
            return false;
        }
    }
    true
}

/// Whether it is so of a CPU's bases.
fn none_behind(core: &Core<WheelBase>, cpu: CpuId) -> bool
    requires { cpu.0 < length core.now.cpus }
    ensures { result ≡ true → HasNoneBehind (cpu_of core.now cpu.0).bases }
{
    core.none_behind(cpu, Class::Pinned)
        && core.none_behind(cpu, Class::Global)
        && core.none_behind(cpu, Class::Deferrable)
}
