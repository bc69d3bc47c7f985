//! The device.

ghost use Rattle.std.specs.Prelude.{◌≡◌, ◌<◌, ◌≤◌, length, map, IfOk, Some, None, ℕ};
ghost use Rattle.std.specs.Prelude.{slice_index_or, vec_capacity};
ghost use Rattle.std.specs.FinSet as set;
ghost use Rattle.tm_base.specs.declared.limits.TheConstants.{CPU_SET_SIZE};
ghost use Rattle.tm_base.specs.declared.names.TheConstants.{NEVER};
ghost use Rattle.deep_idle.specs.Device.{AreDue, DeviceLaw, fired, new_device, rose, sleeper_of};
ghost use Rattle.deep_idle.specs.Device.{asleep_still, is_wakeup_due, slept};
ghost use Rattle.deep_idle.specs.Order.{IsQueueOf, first_wakeup};

use crate::order::{Sleeper, index_for, place_with};
use std::alloc::Global;
use std::marker::Model;
use tm_base::{CPU_SET_SIZE, CpuId, CpuSet, Jiffy, NEVER, NoMemory};

/// The device that wakes CPUs whose own timers stop in deep idle (the kernel's tick broadcast
/// device in oneshot mode): a time, and the sleepers with their wakeups, all in jiffies. No call
/// but `new` takes memory, `time` and `sleeper` look at nothing else, and `fire` looks at no
/// sleeper but those that it wakes and the next. Each CPU number is below that of CPUs.
#[derive(Drop)]
pub struct Device {
    sleepers: Vec<Option<Jiffy>>,
    queue: Vec<Sleeper>,
    time: Jiffy,
}

impl Model for Device {
    ghost use Rattle.std.specs.Prelude.{vec_capacity};
    ghost use Rattle.deep_idle.specs.Device.{DeviceState};
    ghost use Rattle.deep_idle.specs.Order.{IsOrderKept};

    ghost Value = { DeviceState };

    ghost view = { λ d. record { sleepers = d.sleepers.items; time = d.time } };

    ghost invariant = { λ d. IsOrderKept d.sleepers.items d.queue.items d.time
        (vec_capacity d.queue) };
}

impl Device {
    /// A device for so many CPUs, at most 512, of which none sleeps.
    pub fn new(alloc: Global, cpus: u16) -> Result<Device, NoMemory>
        requires { cpus ≤ CPU_SET_SIZE }
        ensures { IfOk result (λ device. device ≡ new_device cpus) }
    {
        let mut sleepers = Vec::new(alloc);
        sleepers.resize(usize::from(cpus), None)?;
        let mut queue = Vec::new(alloc);
        queue.reserve(usize::from(cpus))?;
        Ok(Device {
            sleepers,
            queue,
            time: NEVER,
        })
    }

    /// How many CPUs there are.
    pub fn len(&self) -> usize
        ensures len { result ≡ length self.now.sleepers }
        ensures few { result ≤ CPU_SET_SIZE }
        ensures law { DeviceLaw self.now }
    {
        self.sleepers.len()
    }

    /// A CPU that isn't a sleeper falls asleep until a time before `NEVER`, and the device's time
    /// becomes the less of both (the kernel's `tick_broadcast_oneshot_control` with
    /// `TICK_BROADCAST_ENTER`).
    pub fn sleep(&mut self, cpu: CpuId, wakeup: Jiffy)
        requires cpu { cpu.0 < length self.old.sleepers }
        requires awake { sleeper_of cpu.0 self.old ≡ None }
        requires some_time { wakeup < NEVER }
        ensures after { self.new ≡ slept cpu.0 wakeup self.old }
        ensures law { DeviceLaw self.new }
    {
        let place = index_for(&self.queue, wakeup);
        self.queue.insert(place, Sleeper { wakeup, cpu }).unwrap();
        self.sleepers[usize::from(cpu.0)] = Some(wakeup);
        self.time = self.time.min(wakeup);
    }

    /// A sleeper rises by itself, and the device's time stays (the kernel's
    /// `tick_broadcast_oneshot_control` with `TICK_BROADCAST_EXIT`).
    pub fn rise(&mut self, cpu: CpuId)
        requires cpu { cpu.0 < length self.old.sleepers }
        requires asleep { sleeper_of cpu.0 self.old ≡ None → ⊥ }
        ensures after { self.new ≡ rose cpu.0 self.old }
        ensures law { DeviceLaw self.new }
    {
        let sleeper = self.sleepers[usize::from(cpu.0)];
        let Some(_wakeup) = sleeper else {
            return;
        };
        let place = place_with(&self.queue, cpu);
        self.queue.remove(place);
        self.sleepers[usize::from(cpu.0)] = None;
    }

    /// Wakes the sleepers whose wakeup isn't past now, and answers them; the device's time becomes
    /// the least wakeup of the rest, or `NEVER` (the kernel's `tick_handle_oneshot_broadcast`).
    pub fn fire(&mut self, now: Jiffy) -> CpuSet
        requires { self.old.time ≤ now }
        ensures due { AreDue now self.old result }
        ensures after { self.new ≡ fired now self.old }
        ensures law { DeviceLaw self.new }
    {
        let due = wake_due(&mut self.sleepers, &mut self.queue, now);
        self.time = first_wakeup(&self.queue);
        due
    }

    /// The time at which the device fires; `NEVER` where it doesn't.
    pub fn time(&self) -> Jiffy
        ensures time { result ≡ self.now.time }
        ensures law { DeviceLaw self.now }
    {
        self.time
    }

    /// The wakeup of a CPU; None exactly where it isn't a sleeper.
    pub fn sleeper(&self, cpu: CpuId) -> Option<Jiffy>
        requires { cpu.0 < length self.now.sleepers }
        ensures { result ≡ sleeper_of cpu.0 self.now }
    {
        self.sleepers[usize::from(cpu.0)]
    }
}

/// The least wakeup of a queue, `NEVER` where it is empty.
fn first_wakeup(queue: &[Sleeper]) -> Jiffy
    ensures { result ≡ first_wakeup queue.now }
{
    let len = queue.len();
    if len == 0 {
        return NEVER;
    }
    queue[len - 1].wakeup
}

/// Takes the sleepers that are due out of the queue, and answers them.
fn wake_due(sleepers: &mut Vec<Option<Jiffy>>, queue: &mut Vec<Sleeper>, now: Jiffy) -> CpuSet
    requires queue_of { IsQueueOf sleepers.old.items queue.old.items }
    requires few { length sleepers.old.items ≤ CPU_SET_SIZE }
    ensures sleepers { sleepers.new.items ≡ map (asleep_still now) sleepers.old.items }
    ensures queue_of { IsQueueOf sleepers.new.items queue.new.items }
    ensures due { (cpu : ℕ)
        → set.contains result cpu ≡ is_wakeup_due now (slice_index_or sleepers.old.items cpu None) }
    ensures capacity { vec_capacity queue.new ≡ vec_capacity queue.old }
{
    let mut due = CpuSet::new();
    while first_wakeup(queue) <= now {
        match queue.pop() {
            None => return due,
            Some(first) => {
                sleepers[usize::from(first.cpu.0)] = None;
                due.add(first.cpu);
            }
        }
    }
    due
}
