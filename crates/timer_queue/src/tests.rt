use super::*;
use std::test::Fail;

// The tick for which a timer asks that is put in at tick 0, and the one in which it goes out.
// Worked by hand by the rule of the nine levels, for a wheel that is a tick ahead: a level's granule
// is 8 times that of the level below, and it begins at a delay of 63 granules of that level.
const ROWS: [(u64, u64); 9] = [
    (1, 1),
    (63, 63),
    (64, 71),
    (72, 79),
    (504, 511),
    (505, 511),
    (512, 575),
    (1_000_000, 1_015_807),
    (1_056_964_608, 1_073_741_823),
];

#[test]
fn a_timer_goes_out_in_the_tick_that_the_rule_of_the_levels_gives(
    rt: HostRuntime,
) -> Result<(), Fail> {
    for (expires, tick) in ROWS {
        let mut queue = TimerQueue::with_capacity(rt.alloc(), 1)?;
        let key = queue.insert(expires, 'a')?;
        assert_eq!(rt; queue.pop_due(tick.saturating_sub(1)), None, "{expires}");
        assert_eq!(rt; queue.pop_due(tick), Some((key, expires, 'a')), "{expires}");
    }
    Ok(())
}

// Keys count from 0, by hand.
#[test]
fn a_key_names_its_own_timer_and_no_later_one(rt: HostRuntime) -> Result<(), Fail> {
    let mut queue = TimerQueue::with_capacity(rt.alloc(), 2)?;
    assert!(rt; queue.is_empty() && queue.next_expiry().is_none());
    let tea = queue.insert(20, 'a')?;
    let cake = queue.insert(30, 'b')?;
    assert_eq!(rt; (tea.number(), cake.number(), queue.len()), (0, 1, 2));
    assert_eq!(rt; Key::from_parts(tea.slot(), 0), tea);
    assert_eq!(rt; queue.cancel(tea), Some('a'));
    assert_eq!(rt; queue.cancel(tea), None);
    // The slot is used again, and the key of the timer that is gone names nothing.
    queue.reserve(1)?;
    let late = queue.insert(10, 'c')?;
    assert!(rt; late.slot() == tea.slot() && queue.contains(late));
    assert_eq!(rt; queue.cancel(tea), None);
    assert!(rt; queue.reset(tea, 40) == Err(QueueError::NoTimer) && !queue.contains(tea));
    Ok(())
}

// Timers for 10 and 15 go out by 15, the sooner one first.
#[test]
fn what_is_due_goes_out_in_order_and_nothing_sooner(rt: HostRuntime) -> Result<(), Fail> {
    let mut queue = TimerQueue::with_capacity(rt.alloc(), 2)?;
    let cake = queue.insert(30, 'b')?;
    let late = queue.insert(10, 'c')?;
    queue.reset(cake, 15)?;
    assert_eq!(rt;
        (queue.expires(cake), queue.next_expiry()),
        (Some(15), Some(10))
    );
    assert_eq!(rt; queue.pop_due(9), None);
    let shown = format!(in rt.alloc(); "{queue:?}")?;
    assert_eq!(rt; shown.as_str(), "TimerQueue { len: 2, clock: 9 }");
    let out: Vec<(Key, u64, char)> = queue.due(15).collect(rt.alloc())?;
    assert_eq!(rt;
        out.as_slice(),
        [(late, 10, 'c'), (cake, 15, 'b')].as_slice()
    );
    Ok(())
}

#[test]
fn a_queue_that_is_cleared_is_empty_and_keeps_its_clock(rt: HostRuntime) -> Result<(), Fail> {
    let mut queue = TimerQueue::with_capacity(rt.alloc(), 1)?;
    assert_eq!(rt; queue.pop_due(15), None);
    queue.insert(0, 'd')?;
    queue.clear();
    assert!(rt; queue.is_empty() && queue.clock() >= 15);
    Ok(())
}

#[test]
fn a_refused_insert_says_why_and_gives_the_value_back(rt: HostRuntime) -> Result<(), Fail> {
    let mut queue = TimerQueue::with_capacity(rt.alloc(), 1)?;
    queue.insert(LAST_TICK, 'a')?;
    let Err(refused) = queue.insert(LAST_TICK + 1, 'b') else {
        panic!(rt; "it was put in");
    };
    assert_eq!(rt;
        (refused.value, refused.error),
        ('b', QueueError::PastReach)
    );
    let words = format!(in rt.alloc(); "{refused}")?;
    assert_eq!(rt;
        words.as_str(),
        "the tick is past what a timer queue reaches"
    );
    let many = TimerQueue::<char>::with_capacity(rt.alloc(), usize::MAX);
    assert_eq!(rt; many.err(), Some(QueueError::NoMemory));
    Ok(())
}
