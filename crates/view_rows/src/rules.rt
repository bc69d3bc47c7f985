use linux_rules::*;
use linux_seen::Rule;
use std::test::Fail;

// A walk of two CPUs in one leaf, by hand from the rule: CPU 1 joins {0}, whose migrator stays.
#[test]
fn an_exchange_has_to_follow_from_the_one_before(rt: HostRuntime) -> Result<(), Fail> {
    let lawful = b"a-1 [000] 1.1: tmigr_cpu_active: cpu=0 parent=a0 wakeup=0\n\
          a-1 [000] 1.2: tmigr_group_set_cpu_active: group=a0 lvl=0 numa=0 active=1 migrator=1 \
          parent=(nil) childmask=1\n\
          a-1 [001] 1.3: tmigr_cpu_active: cpu=1 parent=a0 wakeup=0\n\
          a-1 [001] 1.4: tmigr_group_set_cpu_active: group=a0 lvl=0 numa=0 active=3 migrator=1 \
          parent=(nil) childmask=2\n";
    let verdict = check_trace(rt.alloc(), lawful).ok().ok_or("no memory")?;
    let Verdict::Fits(tally, open) = verdict else {
        assert!(rt; false, "doesn't fit");
        return Ok(());
    };
    assert_eq!(rt; tally.lines, 5);
    assert_eq!(rt; tally.exchanges, 2);
    assert_eq!(rt; open.late, 0);
    Ok(())
}

#[test]
fn each_wrong_line_is_named_with_its_rule(rt: HostRuntime) -> Result<(), Fail> {
    let cases = [
        // The migrator isn't active.
        (
            b"a-1 [000] 1.2: tmigr_group_set_cpu_active: group=a0 lvl=0 numa=0 active=1 \
              migrator=2 parent=(nil) childmask=1"
                .as_slice(),
            1,
            Rule::Group,
        ),
        // The walk of an activation has to make an exchange at its leaf.
        (
            b"a-1 [000] 1.1: tmigr_cpu_active: cpu=0 parent=a0 wakeup=0\n\
              a-1 [000] 1.2: tmigr_cpu_active: cpu=0 parent=a0 wakeup=0"
                .as_slice(),
            2,
            Rule::Walk,
        ),
        // A group of node 1 has a child of node 0.
        (
            b"a-1 [000] 1.1: tmigr_group_set: group=a0 lvl=0 numa=0\n\
              a-1 [000] 1.2: tmigr_connect_child_parent: group=a0 groupmask=1 parent=b0 lvl=1 \
              numa=1 num_children=1"
                .as_slice(),
            2,
            Rule::Node,
        ),
        // A timer for jiffy 10 goes into the bucket of jiffy 12, which is one late.
        (
            b"a-1 [000] 1.1: timer_start: timer=a expires=10 [timeout=5] bucket_expiry=12 cpu=0 \
              idx=12 flags="
                .as_slice(),
            1,
            Rule::Timer,
        ),
    ];
    for (bytes, line, rule) in cases {
        let verdict = check_trace(rt.alloc(), bytes).ok().ok_or("no memory")?;
        assert!(rt; matches!(verdict, Verdict::Broken(m) if m.line == line && m.rule == rule));
    }
    Ok(())
}

// Since 6.17 a growth makes an exchange at each new level, in a task, so that an interrupt may come
// between two of them.
#[test]
fn a_growth_of_two_levels_goes_on_behind_an_interrupt(rt: HostRuntime) -> Result<(), Fail> {
    let text = b"a-1 [000] 1.1: tmigr_connect_child_parent: group=b0 groupmask=1 parent=c0 lvl=2 \
          numa=-1 num_children=1\n\
          a-1 [000] 1.2: tmigr_connect_child_parent: group=a0 groupmask=1 parent=b0 lvl=1 \
          numa=0 num_children=1\n\
          a-1 [000] 1.3: tmigr_group_set_cpu_active: group=b0 lvl=1 numa=0 active=1 migrator=1 \
          parent=c0 childmask=1\n\
          a-1 [000] 1.4: tmigr_handle_remote: group=a0 lvl=0\n\
          a-1 [000] 1.5: tmigr_group_set_cpu_active: group=c0 lvl=2 numa=-1 active=1 migrator=1 \
          parent=(nil) childmask=1";
    let verdict = check_trace(rt.alloc(), text).ok().ok_or("no memory")?;
    assert!(rt; matches!(verdict, Verdict::Fits(t, _) if t.exchanges == 2));
    Ok(())
}

// The kernel prints such a line where the buffer of a CPU begins, if some buffer has wrapped; what
// stands before the last of them lacks what was overwritten.
#[test]
fn a_trace_is_judged_from_the_last_start_of_a_buffer(rt: HostRuntime) -> Result<(), Fail> {
    let wrong = b"a-1 [000] 1.2: tmigr_group_set_cpu_active: group=a0 lvl=0 numa=0 active=1 \
          migrator=2 parent=(nil) childmask=1\n";
    let mut text = Vec::new(rt.alloc());
    text.extend_from_slice(b"##### CPU 0 buffer started ####\n")?;
    text.extend_from_slice(wrong)?;
    text.extend_from_slice(b"##### CPU 1 buffer started ####\n")?;
    let fits = check_trace(rt.alloc(), text.as_slice())
        .ok()
        .ok_or("no memory")?;
    assert!(rt; matches!(fits, Verdict::Fits(t, _) if t.lost == 2 && t.lines == 4));
    text.extend_from_slice(wrong)?;
    let broken = check_trace(rt.alloc(), text.as_slice())
        .ok()
        .ok_or("no memory")?;
    assert!(rt; matches!(broken, Verdict::Broken(m) if m.line == 4 && m.rule == Rule::Group));
    Ok(())
}

// CPU 1 takes the leaf a0 out of the top, but is held up before it writes so; CPU 2 wakes and brings
// it back. Both orders of the two exchanges at the top follow from the words.
#[test]
fn who_is_on_its_way_may_have_been_there_before(rt: HostRuntime) -> Result<(), Fail> {
    let text = b"a-1 [001] 1.1: tmigr_cpu_active: cpu=1 parent=a0 wakeup=0\n\
          a-1 [001] 1.2: tmigr_group_set_cpu_active: group=a0 lvl=0 numa=0 active=1 migrator=1 \
          parent=b0 childmask=1\n\
          a-1 [001] 1.3: tmigr_group_set_cpu_active: group=b0 lvl=1 numa=0 active=1 migrator=1 \
          parent=(nil) childmask=1\n\
          a-1 [001] 1.4: tmigr_group_set_cpu_inactive: group=a0 lvl=0 numa=0 active=0 migrator=ff \
          parent=b0 childmask=1\n\
          a-1 [002] 1.5: tmigr_cpu_active: cpu=2 parent=a0 wakeup=0\n\
          a-1 [002] 1.6: tmigr_group_set_cpu_active: group=a0 lvl=0 numa=0 active=2 migrator=2 \
          parent=b0 childmask=2\n\
          a-1 [002] 1.7: tmigr_group_set_cpu_active: group=b0 lvl=1 numa=0 active=1 migrator=1 \
          parent=(nil) childmask=1\n\
          a-1 [001] 1.8: tmigr_group_set_cpu_inactive: group=b0 lvl=1 numa=0 active=0 migrator=ff \
          parent=(nil) childmask=1\n\
          a-1 [001] 1.9: tmigr_cpu_idle: cpu=1 parent=a0 nextevt=9223372036854775807 \
          wakeup=9223372036854775807";
    let verdict = check_trace(rt.alloc(), text).ok().ok_or("no memory")?;
    assert!(rt; matches!(verdict, Verdict::Fits(t, open) if open.late == 0 && t.exchanges == 6));
    Ok(())
}

// By the rule CPUs 1, 2 and so on join {0} one by one ({0, 1} is 3, {0, 1, 2} is 7, and so on);
// each of these lines stands behind its CPU's waking.
#[test]
fn lines_of_several_cpus_may_stand_in_another_order(rt: HostRuntime) -> Result<(), Fail> {
    let cases = [
        // Lines in the order 3, 2, 1 of exchanges in the order 1, 2, 3.
        (
            b"a-1 [000] 1.1: tmigr_cpu_active: cpu=0 parent=a0 wakeup=0\n\
              a-1 [001] 1.2: tmigr_cpu_active: cpu=1 parent=a0 wakeup=0\n\
              a-1 [002] 1.3: tmigr_cpu_active: cpu=2 parent=a0 wakeup=0\n\
              a-1 [003] 1.4: tmigr_cpu_active: cpu=3 parent=a0 wakeup=0\n\
              a-1 [000] 1.5: tmigr_group_set_cpu_active: group=a0 lvl=0 numa=0 active=1 \
              migrator=1 parent=(nil) childmask=1\n\
              a-1 [003] 1.6: tmigr_group_set_cpu_active: group=a0 lvl=0 numa=0 active=f \
              migrator=1 parent=(nil) childmask=8\n\
              a-1 [002] 1.7: tmigr_group_set_cpu_active: group=a0 lvl=0 numa=0 active=7 \
              migrator=1 parent=(nil) childmask=4\n\
              a-1 [001] 1.8: tmigr_group_set_cpu_active: group=a0 lvl=0 numa=0 active=3 \
              migrator=1 parent=(nil) childmask=2"
                .as_slice(),
            4,
        ),
        // Three are late: lines 4, 3, 2, 1.
        (
            b"a-1 [000] 1.1: tmigr_cpu_active: cpu=0 parent=a0 wakeup=0\n\
              a-1 [001] 1.2: tmigr_cpu_active: cpu=1 parent=a0 wakeup=0\n\
              a-1 [002] 1.3: tmigr_cpu_active: cpu=2 parent=a0 wakeup=0\n\
              a-1 [003] 1.4: tmigr_cpu_active: cpu=3 parent=a0 wakeup=0\n\
              a-1 [004] 1.5: tmigr_cpu_active: cpu=4 parent=a0 wakeup=0\n\
              a-1 [000] 1.6: tmigr_group_set_cpu_active: group=a0 lvl=0 numa=0 active=1 \
              migrator=1 parent=(nil) childmask=1\n\
              a-1 [004] 1.7: tmigr_group_set_cpu_active: group=a0 lvl=0 numa=0 active=1f \
              migrator=1 parent=(nil) childmask=10\n\
              a-1 [003] 1.8: tmigr_group_set_cpu_active: group=a0 lvl=0 numa=0 active=f \
              migrator=1 parent=(nil) childmask=8\n\
              a-1 [002] 1.9: tmigr_group_set_cpu_active: group=a0 lvl=0 numa=0 active=7 \
              migrator=1 parent=(nil) childmask=4\n\
              a-1 [001] 1.10: tmigr_group_set_cpu_active: group=a0 lvl=0 numa=0 active=3 \
              migrator=1 parent=(nil) childmask=2"
                .as_slice(),
            5,
        ),
        // CPU 1 joins and leaves after CPU 2 has joined, whose line comes last.
        (
            b"a-1 [000] 1.1: tmigr_cpu_active: cpu=0 parent=a0 wakeup=0\n\
              a-1 [001] 1.2: tmigr_cpu_active: cpu=1 parent=a0 wakeup=0\n\
              a-1 [002] 1.3: tmigr_cpu_active: cpu=2 parent=a0 wakeup=0\n\
              a-1 [000] 1.4: tmigr_group_set_cpu_active: group=a0 lvl=0 numa=0 active=1 \
              migrator=1 parent=(nil) childmask=1\n\
              a-1 [001] 1.5: tmigr_group_set_cpu_active: group=a0 lvl=0 numa=0 active=7 \
              migrator=1 parent=(nil) childmask=2\n\
              a-1 [001] 1.6: tmigr_group_set_cpu_inactive: group=a0 lvl=0 numa=0 active=5 \
              migrator=1 parent=(nil) childmask=2\n\
              a-1 [001] 1.7: tmigr_cpu_idle: cpu=1 parent=a0 nextevt=9223372036854775807 \
              wakeup=9223372036854775807\n\
              a-1 [002] 1.8: tmigr_group_set_cpu_active: group=a0 lvl=0 numa=0 active=5 \
              migrator=1 parent=(nil) childmask=4"
                .as_slice(),
            4,
        ),
    ];
    for (bytes, exchanges) in cases {
        let verdict = check_trace(rt.alloc(), bytes).ok().ok_or("no memory")?;
        assert!(rt;
            matches!(verdict, Verdict::Fits(t, open) if open.late == 0 && t.exchanges == exchanges)
        );
    }
    Ok(())
}

#[test]
fn an_exchange_that_no_order_explains_is_named(rt: HostRuntime) -> Result<(), Fail> {
    let cases = [
        // Nobody joins {0} but CPU 1, so {0, 1, 2} doesn't come of it.
        (
            b"a-1 [000] 1.1: tmigr_cpu_active: cpu=0 parent=a0 wakeup=0\n\
              a-1 [001] 1.2: tmigr_cpu_active: cpu=1 parent=a0 wakeup=0\n\
              a-1 [000] 1.3: tmigr_group_set_cpu_active: group=a0 lvl=0 numa=0 active=1 \
              migrator=1 parent=(nil) childmask=1\n\
              a-1 [001] 1.4: tmigr_group_set_cpu_active: group=a0 lvl=0 numa=0 active=7 \
              migrator=1 parent=(nil) childmask=2\n\
              a-1 [000] 1.5: tmigr_group_set_cpu_inactive: group=a0 lvl=0 numa=0 active=6 \
              migrator=2 parent=(nil) childmask=1"
                .as_slice(),
            4,
        ),
        // CPU 1 leaves {0} as it was, before its own joining of {0, 2}, whose line stands above.
        (
            b"a-1 [000] 1.1: tmigr_cpu_active: cpu=0 parent=a0 wakeup=0\n\
              a-1 [001] 1.2: tmigr_cpu_active: cpu=1 parent=a0 wakeup=0\n\
              a-1 [002] 1.3: tmigr_cpu_active: cpu=2 parent=a0 wakeup=0\n\
              a-1 [000] 1.4: tmigr_group_set_cpu_active: group=a0 lvl=0 numa=0 active=1 \
              migrator=1 parent=(nil) childmask=1\n\
              a-1 [001] 1.5: tmigr_group_set_cpu_active: group=a0 lvl=0 numa=0 active=7 \
              migrator=1 parent=(nil) childmask=2\n\
              a-1 [001] 1.6: tmigr_group_set_cpu_inactive: group=a0 lvl=0 numa=0 active=1 \
              migrator=1 parent=(nil) childmask=2\n\
              a-1 [001] 1.7: tmigr_cpu_idle: cpu=1 parent=a0 nextevt=9223372036854775807 \
              wakeup=9223372036854775807\n\
              a-1 [002] 1.8: tmigr_group_set_cpu_active: group=a0 lvl=0 numa=0 active=5 \
              migrator=1 parent=(nil) childmask=4\n\
              a-1 [000] 1.9: tmigr_group_set_cpu_inactive: group=a0 lvl=0 numa=0 active=4 \
              migrator=4 parent=(nil) childmask=1"
                .as_slice(),
            6,
        ),
    ];
    for (bytes, line) in cases {
        let verdict = check_trace(rt.alloc(), bytes).ok().ok_or("no memory")?;
        assert!(rt;
            matches!(verdict, Verdict::Broken(m)
            if m.line == line && m.rule == Rule::Exchange)
        );
    }
    Ok(())
}

// CPU 2 has joined {0, 3}, but its line comes last: 40 exchanges of CPU 1 wait for it, and no more.
#[test]
fn the_search_gives_up_behind_forty_late_exchanges(rt: HostRuntime) -> Result<(), Fail> {
    let begin = b"a-1 [000] 1.1: tmigr_cpu_active: cpu=0 parent=a0 wakeup=0\n\
          a-1 [002] 1.2: tmigr_cpu_active: cpu=2 parent=a0 wakeup=0\n\
          a-1 [003] 1.3: tmigr_cpu_active: cpu=3 parent=a0 wakeup=0\n\
          a-1 [000] 1.4: tmigr_group_set_cpu_active: group=a0 lvl=0 numa=0 active=1 migrator=1 \
          parent=(nil) childmask=1\n\
          a-1 [003] 1.5: tmigr_group_set_cpu_active: group=a0 lvl=0 numa=0 active=9 migrator=1 \
          parent=(nil) childmask=8\n";
    let again = b"a-1 [001] 1.9: tmigr_cpu_active: cpu=1 parent=a0 wakeup=0\n\
          a-1 [001] 1.9: tmigr_group_set_cpu_active: group=a0 lvl=0 numa=0 active=f migrator=1 \
          parent=(nil) childmask=2\n\
          a-1 [001] 1.9: tmigr_group_set_cpu_inactive: group=a0 lvl=0 numa=0 active=d migrator=1 \
          parent=(nil) childmask=2\n\
          a-1 [001] 1.9: tmigr_cpu_idle: cpu=1 parent=a0 nextevt=9223372036854775807 \
          wakeup=9223372036854775807\n";
    let end =
        b"a-1 [002] 1.9: tmigr_group_set_cpu_active: group=a0 lvl=0 numa=0 active=d migrator=1 \
          parent=(nil) childmask=4";
    let mut text = Vec::new(rt.alloc());
    text.extend_from_slice(begin)?;
    for _ in 0..20 {
        text.extend_from_slice(again)?;
    }
    let mut more = text.clone()?;
    text.extend_from_slice(end)?;
    let fits = check_trace(rt.alloc(), text.as_slice())
        .ok()
        .ok_or("no memory")?;
    assert!(rt; matches!(fits, Verdict::Fits(t, open) if open.late == 0 && t.exchanges == 43));
    more.extend_from_slice(again)?;
    let given_up = check_trace(rt.alloc(), more.as_slice())
        .ok()
        .ok_or("no memory")?;
    assert!(rt; matches!(given_up, Verdict::Broken(m) if m.line == 7 && m.rule == Rule::Order));
    Ok(())
}
