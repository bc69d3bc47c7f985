//! Settling a device by what a machine tells.

ghost use Rattle.std.specs.Prelude.{◌≡◌, ◌<◌, length, IfSome, None};
ghost use Rattle.tm_base.specs.declared.names.TheConstants.{NEVER};
ghost use Rattle.deep_idle.specs.Device.{AreSettled, DeviceLaw, device_settled, is_same, risen};
ghost use Rattle.deep_idle.specs.Device.{settled_one, sleeper_of, wanted};

use crate::Device;
use tm_base::{CpuId, Jiffy, NEVER};

/// What a machine tells of its CPUs that are idle.
pub trait Wakeups {
    ghost use Rattle.std.specs.Prelude.{◌≡◌, ℕ};

    ghost wakeups: { Self → ℕ → ℕ };

    /// The wakeup of a CPU that is online and idle, in jiffies; `NEVER` where it has none, and for
    /// any other CPU.
    fn wakeup(&self, cpu: CpuId) -> Jiffy
        ensures { result ≡ wakeups self.now cpu.0 };
}

/// Makes the sleepers exactly the CPUs that have a wakeup before `NEVER`, each with it: by `rise`
/// and `sleep` on those that differ, in ascending order.
pub fn settle<W: Wakeups>(device: &mut Device, machine: &W)
    ensures after { device.new
        ≡ device_settled (W.wakeups machine.now) (length device.old.sleepers) device.old }
    ensures exactly { AreSettled (W.wakeups machine.now) device.new }
    ensures len { length device.new.sleepers ≡ length device.old.sleepers }
    ensures law { DeviceLaw device.new }
{
    for cpu in 0..device.len() {
        let cpu = CpuId(cpu as u16);
        let want = want_of(machine.wakeup(cpu));
        settle_one(device, cpu, want);
    }
    let _count = device.len();
}

/// Whether a CPU stands as it is wanted.
fn is_same(sleeper: Option<Jiffy>, want: Option<Jiffy>) -> bool
    ensures { result ≡ is_same sleeper want }
{
    match sleeper {
        None => want.is_none(),
        Some(wakeup) => match want {
            None => false,
            Some(wanted) => wakeup == wanted,
        },
    }
}

/// How long a CPU of this wakeup should sleep.
fn want_of(wakeup: Jiffy) -> Option<Jiffy>
    ensures want { result ≡ wanted wakeup }
    ensures early { IfSome result (λ w. w < NEVER) }
{
    if wakeup < NEVER {
        return Some(wakeup);
    }
    None
}

/// A CPU that sleeps rises.
fn rouse(device: &mut Device, cpu: CpuId)
    requires { cpu.0 < length device.old.sleepers }
    ensures after { device.new ≡ risen (sleeper_of cpu.0 device.old) cpu.0 device.old }
    ensures awake { sleeper_of cpu.0 device.new ≡ None }
    ensures len { length device.new.sleepers ≡ length device.old.sleepers }
{
    match device.sleeper(cpu) {
        None => {}
        Some(_) => device.rise(cpu),
    }
}

/// Makes one CPU stand as it is wanted.
fn settle_one(device: &mut Device, cpu: CpuId, want: Option<Jiffy>)
    requires cpu { cpu.0 < length device.old.sleepers }
    requires early { IfSome want (λ w. w < NEVER) }
    ensures after { device.new ≡ settled_one want cpu.0 device.old }
    ensures len { length device.new.sleepers ≡ length device.old.sleepers }
{
    if is_same(device.sleeper(cpu), want) {
        return;
    }
    rouse(device, cpu);
    match want {
        None => {}
        Some(wakeup) => device.sleep(cpu, wakeup),
    }
}
