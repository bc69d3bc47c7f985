use super::*;
use std::test::Fail;
use tm_base::{CpuId, Jiffy, NEVER};

/// A machine whose CPUs are all idle, with this wakeup.
#[derive(Drop)]
struct AllIdle(Jiffy);

impl Wakeups for AllIdle {
    ghost wakeups = { λ machine cpu. machine.0 };

    fn wakeup(&self, _cpu: CpuId) -> Jiffy {
        self.0
    }
}

// The answers are those of the rules: a sleeper brings the time forward, one that rises leaves it,
// and a device that fires goes on to the least wakeup of the rest.
#[test]
fn a_device_wakes_those_that_are_due(rt: HostRuntime) -> Result<(), Fail> {
    let (first, second) = (CpuId(0), CpuId(1));
    let mut device = Device::new(rt.alloc(), 2)?;
    assert_eq!(&rt; device.time(), NEVER);
    assert!(&rt; 1 < device.len());
    assert_eq!(&rt; device.sleeper(first), None);
    device.sleep(first, 61);
    assert!(&rt; 1 < device.len());
    assert_eq!(&rt; device.sleeper(second), None);
    device.sleep(second, 40);
    assert_eq!(&rt; device.time(), 40);
    assert!(&rt; 1 < device.len());
    assert!(&rt; device.sleeper(second).is_some());
    device.rise(second);
    assert_eq!(&rt; device.time(), 40);
    assert!(&rt; device.time() <= 61);
    assert!(&rt; device.fire(61).has(first));
    assert_eq!(&rt; device.time(), NEVER);
    Ok(())
}

#[test]
fn a_settled_device_has_the_wakeups_of_the_machine(rt: HostRuntime) -> Result<(), Fail> {
    let mut device = Device::new(rt.alloc(), 2)?;
    settle(&mut device, &AllIdle(70));
    assert_eq!(&rt; device.time(), 70);
    settle(&mut device, &AllIdle(80));
    assert!(&rt; 1 < device.len());
    assert_eq!(&rt; device.sleeper(CpuId(1)), Some(80));
    assert_eq!(&rt; device.time(), 70);
    Ok(())
}
