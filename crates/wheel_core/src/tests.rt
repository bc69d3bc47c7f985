use super::*;
use std::test::Fail;

// The asked expiry, the clock, and the wheel expiry and level, computed by hand from the rule: both
// sides of each border that a timer meets.
const TABLE: [(u64, u64, u64, u8); 9] = [
    (72, 10, 73, 0),
    (73, 10, 80, 1),
    (513, 10, 520, 1),
    (514, 10, 576, 2),
    (132_120_575, 0, 132_120_576, 7),
    (132_120_576, 0, 134_217_728, 8),
    (1_056_964_617, 10, 1_073_741_824, 8),
    (1_056_964_618, 10, 1_056_964_608, 8),
    (61, 62, 62, 0),
];

#[test]
fn each_row_of_the_wheel_table_comes_out(rt: HostRuntime) -> Result<(), Fail> {
    for (expires, clock, wheel, level) in TABLE {
        assert!(rt; expires < 1 << 47 && clock < 1 << 47);
        assert_eq!(rt;
            wheel_expiry(expires, clock),
            (wheel, level),
            "{expires} at {clock}"
        );
        let mut base = ListBase::new(rt.alloc());
        base.reserve(1)?;
        base.forward(clock);
        let item = base.add(7, expires, 3, 9);
        assert_eq!(rt;
            item,
            Item {
                id: 7,
                expires,
                wheel,
                level,
                job: 3,
                arg: 9
            },
            "{expires} at {clock}"
        );
    }
    Ok(())
}

fn item(id: u32, expires: u64, wheel: u64, level: u8) -> Item {
    Item {
        id,
        expires,
        wheel,
        level,
        job: 0,
        arg: 0,
    }
}

// By hand: a drain goes through two levels, with the clock one past each hand-out.
#[test]
fn a_drain_goes_through_two_levels(rt: HostRuntime) -> Result<(), Fail> {
    let mut base = ListBase::new(rt.alloc());
    base.reserve(2)?;
    base.forward(10);
    assert_eq!(rt; base.add(0, 73, 0, 0), item(0, 73, 80, 1));
    assert_eq!(rt; base.get(1), None);
    assert_eq!(rt; base.add(1, 72, 0, 0), item(1, 72, 73, 0));
    assert_eq!(rt; base.first(), Some(73));
    assert_eq!(rt; base.take_next(80), Some(item(1, 72, 73, 0)));
    assert_eq!(rt; base.clock(), 74);
    assert_eq!(rt; base.take_next(80), Some(item(0, 73, 80, 1)));
    assert_eq!(rt; base.clock(), 81);
    assert_eq!(rt; base.take_next(80), None);
    Ok(())
}
