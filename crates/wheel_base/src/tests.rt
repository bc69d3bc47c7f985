ghost use Rattle.std.specs.Prelude.{◌≡◌, ◌<◌, ◌^◌};
ghost use Rattle.wheel_base.specs.Wheels.{no_base};

use super::*;
use std::test::Fail;
use wheel_core::{Item, ListBase, NoRoom, TimerBase};

// The asked expiry, the clock, and the wheel expiry and level that the rule gives.
const TABLE: [(u64, u64, u64, u8); 9] = [
    (72, 10, 73, 0),
    (73, 10, 80, 1),
    (513, 10, 520, 1),
    (514, 10, 576, 2),
    (132_120_575, 0, 132_120_576, 7),
    (132_120_576, 0, 134_217_728, 8),
    (1_056_964_617, 10, 1_073_741_824, 8),
    (1_056_964_618, 10, 1_056_964_608, 8),
    (61, 62, 62, 0),
];

// What `add` answers in an empty base that was forwarded to a clock.
fn added_at<B: TimerBase>(base: &mut B, expires: u64, clock: u64) -> Result<Item, NoRoom>
    requires empty { B.base base.old ≡ no_base }
    requires expires_in_time { expires < 2 ^ 47 }
    requires clock_in_time { clock < 2 ^ 47 }
{
    base.reserve(1)?;
    base.forward(clock);
    Ok(base.add(7, expires, 3, 9))
}

#[test]
fn both_bases_place_timers_as_the_table_of_the_rule_says(rt: HostRuntime) -> Result<(), Fail> {
    for (expires, clock, wheel, level) in TABLE {
        let item = Item {
            id: 7,
            expires,
            wheel,
            level,
            job: 3,
            arg: 9,
        };
        assert!(rt; expires < 1 << 47 && clock < 1 << 47);
        let mut list = ListBase::new(rt.alloc());
        assert_eq!(rt;
            added_at(&mut list, expires, clock)?,
            item,
            "{expires} at {clock}"
        );
        let mut nine = WheelBase::new(rt.alloc())?;
        assert_eq!(rt;
            added_at(&mut nine, expires, clock)?,
            item,
            "{expires} at {clock}"
        );
    }
    Ok(())
}

// As docs/USE.md shows it. By the rule of the wheel a delay of 20 gets the jiffy behind its expiry,
// and one of 100 the end of its granule of 8.
#[test]
#[tactic(auto, unfolding(wheel_core::specs::PlainBase::item_of))]
fn a_wheel_keeps_two_timers_and_one_is_cancelled(rt: HostRuntime) -> Result<(), Fail> {
    let mut wheel = WheelBase::new(rt.alloc())?;
    // Room for two timers: no other call takes memory.
    wheel.reserve(2)?;
    // It is jiffy 10. Timer 0 is for 30, and timer 1 for 110; the two numbers behind are yours.
    wheel.forward(10);
    wheel.add(0, 30, 0, 0);
    wheel.add(1, 110, 0, 0);
    assert_eq!(rt; wheel.first(), Some(31));
    // Timer 0 is cancelled. At jiffy 112 timer 1 goes out, and then nothing more.
    wheel.remove(0);
    let out = wheel.take_next(112);
    assert_eq!(rt; out.map(|item| item.id), Some(1));
    assert_eq!(rt; wheel.take_next(112), None);
    Ok(())
}
