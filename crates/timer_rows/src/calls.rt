ghost use Rattle.std.specs.Prelude.{◌≡◌, false};
ghost use Rattle.wheel_core.specs.PlainBase.{NoneBehind};

use base_calls::calls_on_both;
use base_calls::wheel::{BaseAnswer, BaseCall, make_calls};
use std::test::Fail;
use wheel_base::WheelBase;
use wheel_core::{Item, ListBase, TimerBase};

fn item(id: u32, expires: u64, wheel: u64, level: u8) -> Item {
    Item {
        id,
        expires,
        wheel,
        level,
        job: 0,
        arg: 0,
    }
}

// By hand: right after a hand-out the clock stands one past it, and so does the next wheel expiry.
#[test]
#[tactic(auto, unfolding(wheel_core::specs::WheelExpiry::wheel_expiry_of, wheel_core::specs::WheelExpiry::level_of_delay, wheel_core::specs::WheelExpiry::wheel_level_of, wheel_core::specs::PlainBase::first_out))]
fn a_delay_of_zero_right_after_a_hand_out_goes_to_the_next_jiffy(
    rt: HostRuntime,
) -> Result<(), Fail> {
    let calls = [
        BaseCall::Reserve { n: 1 },
        BaseCall::Forward { now: 10 },
        BaseCall::Add {
            id: 0,
            expires: 60,
            job: 0,
            arg: 0,
        },
        BaseCall::TakeNext { now: 61 },
        BaseCall::Clock,
        BaseCall::Forward { now: 61 },
        BaseCall::Add {
            id: 1,
            expires: 61,
            job: 0,
            arg: 0,
        },
        BaseCall::TakeNext { now: 61 },
        BaseCall::TakeNext { now: 62 },
        BaseCall::Clock,
    ];
    let mut base = ListBase::new(rt.alloc());
    let answers = make_calls(rt.alloc(), &mut base, &calls)?;
    let wanted = [
        BaseAnswer::Done,
        BaseAnswer::Done,
        BaseAnswer::Added(item(0, 60, 61, 0)),
        BaseAnswer::Found(Some(item(0, 60, 61, 0))),
        BaseAnswer::Clock(62),
        BaseAnswer::Done,
        BaseAnswer::Added(item(1, 61, 62, 0)),
        BaseAnswer::Found(None),
        BaseAnswer::Found(Some(item(1, 61, 62, 0))),
        BaseAnswer::Clock(63),
    ];
    assert_eq!(rt; answers.as_slice(), wanted.as_slice());
    Ok(())
}

// By hand: of three timers at one wheel expiry the higher level goes out first, and then the last
// armed.
#[test]
#[tactic(auto, unfolding(wheel_core::specs::WheelExpiry::wheel_expiry_of, wheel_core::specs::WheelExpiry::level_of_delay, wheel_core::specs::WheelExpiry::wheel_level_of, wheel_core::specs::PlainBase::first_out))]
fn the_higher_level_goes_out_first_and_then_the_last_armed(rt: HostRuntime) -> Result<(), Fail> {
    let calls = [
        BaseCall::Reserve { n: 3 },
        BaseCall::Forward { now: 10 },
        BaseCall::Add {
            id: 0,
            expires: 73,
            job: 0,
            arg: 0,
        },
        BaseCall::Forward { now: 30 },
        BaseCall::Add {
            id: 1,
            expires: 79,
            job: 0,
            arg: 0,
        },
        BaseCall::Add {
            id: 2,
            expires: 79,
            job: 0,
            arg: 0,
        },
        BaseCall::PeekNext { now: 79 },
        BaseCall::PeekNext { now: 80 },
        BaseCall::Oldest,
        BaseCall::TakeNext { now: 80 },
        BaseCall::TakeNext { now: 80 },
        BaseCall::Len,
        BaseCall::First,
        BaseCall::Get { id: 1 },
        BaseCall::Remove { id: 0 },
        BaseCall::Remove { id: 1 },
        BaseCall::TakeNext { now: 80 },
        BaseCall::Clock,
    ];
    let mut base = ListBase::new(rt.alloc());
    let answers = make_calls(rt.alloc(), &mut base, &calls)?;
    let wanted = [
        BaseAnswer::Done,
        BaseAnswer::Done,
        BaseAnswer::Added(item(0, 73, 80, 1)),
        BaseAnswer::Done,
        BaseAnswer::Added(item(1, 79, 80, 0)),
        BaseAnswer::Added(item(2, 79, 80, 0)),
        BaseAnswer::Found(None),
        BaseAnswer::Found(Some(item(0, 73, 80, 1))),
        BaseAnswer::Oldest(Some(0)),
        BaseAnswer::Found(Some(item(0, 73, 80, 1))),
        BaseAnswer::Found(Some(item(2, 79, 80, 0))),
        BaseAnswer::Len(1),
        BaseAnswer::First(Some(80)),
        BaseAnswer::Found(Some(item(1, 79, 80, 0))),
        BaseAnswer::Found(None),
        BaseAnswer::Found(Some(item(1, 79, 80, 0))),
        BaseAnswer::Found(None),
        BaseAnswer::Clock(81),
    ];
    assert_eq!(rt; answers.as_slice(), wanted.as_slice());
    Ok(())
}

// Two timers of two levels, and a drain that goes past both. By the rule the wheel expiries are 80
// and 73.
#[test]
#[tactic(auto, unfolding(wheel_core::specs::WheelExpiry::wheel_expiry_of, wheel_core::specs::WheelExpiry::level_of_delay, wheel_core::specs::WheelExpiry::wheel_level_of, wheel_core::specs::PlainBase::first_out))]
fn a_drain_goes_on_to_the_next_level(rt: HostRuntime) -> Result<(), Fail> {
    let calls = [
        BaseCall::Reserve { n: 2 },
        BaseCall::Forward { now: 10 },
        BaseCall::Add {
            id: 0,
            expires: 73,
            job: 0,
            arg: 0,
        },
        BaseCall::Add {
            id: 1,
            expires: 72,
            job: 0,
            arg: 0,
        },
        BaseCall::First,
        BaseCall::TakeNext { now: 80 },
        BaseCall::Clock,
        BaseCall::TakeNext { now: 80 },
        BaseCall::Clock,
        BaseCall::TakeNext { now: 80 },
    ];
    let wanted = [
        BaseAnswer::Done,
        BaseAnswer::Done,
        BaseAnswer::Added(item(0, 73, 80, 1)),
        BaseAnswer::Added(item(1, 72, 73, 0)),
        BaseAnswer::First(Some(73)),
        BaseAnswer::Found(Some(item(1, 72, 73, 0))),
        BaseAnswer::Clock(74),
        BaseAnswer::Found(Some(item(0, 73, 80, 1))),
        BaseAnswer::Clock(81),
        BaseAnswer::Found(None),
    ];
    let (by_list, by_wheel) = calls_on_both(rt.alloc(), &calls)?;
    assert_eq!(rt; by_list.as_slice(), wanted.as_slice());
    assert_eq!(rt; by_wheel.as_slice(), wanted.as_slice());
    Ok(())
}

// The next random number (xorshift).
fn next(x: u64) -> u64 {
    let a = x ^ (x << 13);
    let b = a ^ (a >> 7);
    b ^ (b << 17)
}

fn is_behind<B: TimerBase>(base: &B) -> bool
    ensures { result ≡ false → NoneBehind (B.base base.now).plain }
{
    let Some(first) = base.first() else {
        return false;
    };
    first < base.clock()
}

// Arms a timer where it may be armed.
fn arm<B: TimerBase>(base: &mut B, id: u32, expires: u64) -> BaseAnswer {
    if base.reserve(1).is_err() {
        return BaseAnswer::Done;
    }
    if base.get(id).is_some() || is_behind(base) {
        return BaseAnswer::Done;
    }
    if expires >= 1 << 47 || base.clock() >= 1 << 47 {
        return BaseAnswer::Done;
    }
    BaseAnswer::Added(base.add(id, expires, 1, 2))
}

// Makes the call that a random number names.
fn play<B: TimerBase>(base: &mut B, x: u64, now: u64) -> BaseAnswer {
    let id = (x >> 8 & 63) as u32;
    match x & 15 {
        0..=5 => arm(
            base,
            id,
            now.saturating_add(x >> 20 & (1 << (x >> 14 & 31)) - 1),
        ),
        6 => BaseAnswer::Found(base.remove(id)),
        7 => BaseAnswer::Found(base.get(id)),
        8 => BaseAnswer::Found(base.peek_next(now)),
        9 => BaseAnswer::Oldest(base.oldest()),
        10 => BaseAnswer::First(base.first()),
        11 => BaseAnswer::Len(base.len()),
        12 => BaseAnswer::Clock(base.clock()),
        13 => {
            base.forward(now);
            BaseAnswer::Done
        }
        _ => BaseAnswer::Found(base.take_next(now)),
    }
}

#[test]
fn both_bases_answer_random_calls_alike(rt: HostRuntime) -> Result<(), Fail> {
    let mut list = ListBase::new(rt.alloc());
    let mut wheel = WheelBase::new(rt.alloc())?;
    let mut x = 88_172_645_463_325_252;
    let mut now = 1000u64;
    for call in 0..5000u32 {
        x = next(x);
        now = now
            .saturating_add(x >> 40 & (1 << (x >> 59)) - 1)
            .min(1 << 46);
        let by_list = play(&mut list, x, now);
        let by_wheel = play(&mut wheel, x, now);
        assert_eq!(rt; by_list, by_wheel, "call {call}");
    }
    Ok(())
}
