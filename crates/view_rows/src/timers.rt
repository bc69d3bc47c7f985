use linux_lines::{Arming, read_line};
use linux_timers::*;
use std::alloc::Global;
use std::test::Fail;
use tm_base::{Class, CpuId};

/// The CPU at fault in the last of these lines; all are taken.
fn last_fault(alloc: Global, lines: &[&[u8]]) -> Option<u16> {
    let mut seen = TimersSeen::new(alloc);
    let mut fault = None;
    let mut number: u64 = 0;
    for text in lines {
        let Ok(said) = read_line(text) else {
            return None;
        };
        number = number.saturating_add(1);
        fault = timer_fault(&seen, &said);
        let Ok(()) = take_timers(alloc, &mut seen, number, &said) else {
            return None;
        };
    }
    match fault {
        Some(cpu) => Some(cpu.0),
        None => None,
    }
}

// Armings of traces of Linux 6.12, each of another level or with another clock of its base: the
// jiffy itself, or the next one (the last).
#[test]
fn the_buckets_of_a_kernel_fit(rt: HostRuntime) -> Result<(), Fail> {
    let cases = [
        (4_294_892_297, 0, 4_294_892_298, 10),
        (4_294_892_428, 125, 4_294_892_432, 114),
        (4_294_892_895, 500, 4_294_892_896, 108),
        (4_294_898_343, 63, 4_294_898_344, 40),
    ];
    for (expires, timeout, bucket, index) in cases {
        let arming = Arming {
            timer: 1,
            expires,
            jiffies: Some(expires - timeout),
            bucket,
            cpu: CpuId(0),
            index,
            class: Some(Class::Global),
        };
        assert!(rt; arming_fits(0, &arming));
        let wrong = Arming {
            bucket: bucket + 1,
            ..arming
        };
        assert!(rt; !arming_fits(0, &wrong));
    }
    Ok(())
}

// By hand, from the rule: a pinned timer of CPU 0 whose bucket is 11.
#[test]
fn a_timer_runs_at_home_and_when_it_is_due(rt: HostRuntime) -> Result<(), Fail> {
    let begin = b"a-1 [000] 1.1: softirq_entry: vec=1".as_slice();
    let start =
        b"a-1 [000] 1.2: timer_start: timer=a expires=10 [timeout=5] bucket_expiry=11 cpu=0 \
          idx=11 flags=P"
            .as_slice();
    let cancel = b"a-1 [000] 1.3: timer_cancel: timer=a".as_slice();
    let due = b"a-1 [000] 1.4: timer_expire_entry: timer=a now=12 baseclk=11".as_slice();
    let early = b"a-1 [000] 1.4: timer_expire_entry: timer=a now=12 baseclk=10".as_slice();
    let fits = [begin, start, cancel, due];
    assert_eq!(rt; last_fault(rt.alloc(), fits.as_slice()), None);
    let soon = [begin, start, cancel, early];
    assert_eq!(rt; last_fault(rt.alloc(), soon.as_slice()), Some(0));
    let twice = [begin, start, cancel, due, due];
    assert_eq!(rt; last_fault(rt.alloc(), twice.as_slice()), Some(0));
    let gone = [start, cancel, begin, due];
    assert_eq!(rt; last_fault(rt.alloc(), gone.as_slice()), Some(0));
    let other = b"a-1 [003] 1.0: softirq_entry: vec=1".as_slice();
    let taken = b"a-1 [003] 1.3: timer_cancel: timer=a".as_slice();
    let away = b"a-1 [003] 1.4: timer_expire_entry: timer=a now=12 baseclk=11".as_slice();
    let elsewhere = [other, start, taken, away];
    assert_eq!(rt; last_fault(rt.alloc(), elsewhere.as_slice()), Some(3));
    Ok(())
}

// The same for a global one, which CPU 3 may run for CPU 0 once it has told that it does.
#[test]
fn a_global_timer_runs_elsewhere_in_a_run_for_its_cpu(rt: HostRuntime) -> Result<(), Fail> {
    let begin = b"a-1 [003] 1.0: softirq_entry: vec=1".as_slice();
    let start =
        b"a-1 [000] 1.1: timer_start: timer=a expires=10 [timeout=5] bucket_expiry=11 cpu=0 \
          idx=11 flags="
            .as_slice();
    let own = b"a-1 [003] 1.2: tmigr_handle_remote_cpu: cpu=0 parent=b wakeup=7".as_slice();
    let others = b"a-1 [003] 1.2: tmigr_handle_remote_cpu: cpu=2 parent=b wakeup=7".as_slice();
    let cancel = b"a-1 [003] 1.3: timer_cancel: timer=a".as_slice();
    let run = b"a-1 [003] 1.4: timer_expire_entry: timer=a now=12 baseclk=11".as_slice();
    let fits = [begin, start, own, cancel, run];
    assert_eq!(rt; last_fault(rt.alloc(), fits.as_slice()), None);
    let wrong = [begin, start, others, cancel, run];
    assert_eq!(rt; last_fault(rt.alloc(), wrong.as_slice()), Some(3));
    let none = [begin, start, cancel, run];
    assert_eq!(rt; last_fault(rt.alloc(), none.as_slice()), Some(3));
    let unseen = [start, cancel, run];
    assert_eq!(rt; last_fault(rt.alloc(), unseen.as_slice()), None);
    Ok(())
}

#[test]
fn runs_are_counted_by_where_they_are(rt: HostRuntime) -> Result<(), Fail> {
    let run = b"a-1 [003] 1.4: timer_expire_entry: timer=a now=12 baseclk=11";
    let Ok(said) = read_line(run) else {
        return Ok(());
    };
    let seen = TimersSeen::new(rt.alloc());
    let tally = timer_tally_after(no_timer_tally(), &seen, &said);
    assert_eq!(rt; tally.ran, 1);
    assert_eq!(rt; tally.unsure, 1);
    assert_eq!(rt; tally.remote, 0);
    law_clocks();
    Ok(())
}
