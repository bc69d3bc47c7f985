use linux_lines::*;
use std::test::Fail;
use tm_base::Class;

// Lines of traces of Linux 6.12, and of a tool's report.
#[test]
fn an_exchange_is_read_field_by_field(rt: HostRuntime) -> Result<(), Fail> {
    let line = b"          <idle>-0       [004] d..4.     7.700416: tmigr_group_set_cpu_inactive: \
          group=ffff88be02c09400 lvl=0 numa=0 active=c2 migrator=2 parent=ffff88be08f8c200 \
          childmask=10";
    let Ok(Line::Told(cpu, at, Happening::Exchanged(exchange))) = read_line(line) else {
        assert!(rt; false, "not read");
        return Ok(());
    };
    assert_eq!(rt; cpu.0, 4);
    assert_eq!(rt; at, Some(7_700_416_999));
    assert_eq!(rt; exchange.place.group, 0xffff_88be_02c0_9400);
    assert_eq!(rt; exchange.place.level, 0);
    assert_eq!(rt; exchange.place.node, Some(0));
    assert_eq!(rt; exchange.active, 0xc2);
    assert_eq!(rt; exchange.migrator, 2);
    assert_eq!(rt; exchange.parent, 0xffff_88be_08f8_c200);
    assert_eq!(rt; exchange.bit, 4);
    assert!(rt; !exchange.joins);
    Ok(())
}

#[test]
fn each_kind_of_line_is_told_apart(rt: HostRuntime) -> Result<(), Fail> {
    assert!(rt; matches!(read_line(b""), Ok(Line::Remark)));
    assert!(rt; matches!(read_line(b"# tracer: nop"), Ok(Line::Remark)));
    assert!(rt; matches!(read_line(b"CPU:3 [LOST 12 EVENTS]"), Ok(Line::Loss)));
    let started = b"##### CPU 2 buffer started ####";
    assert!(rt; matches!(read_line(started), Ok(Line::Loss)));
    let foreign = b"   Web Content-12  ( 12) [511] d..1.  5.916042: cpu_idle: state=1 cpu_id=511";
    assert!(rt; matches!(read_line(foreign), Ok(Line::Foreign(cpu, false)) if cpu.0 == 511));
    let report = b"      <idle>-0     [001]  5.916042: tmigr_handle_remote: group=0xff lvl=1";
    assert!(rt;
        matches!(
            read_line(report),
            Ok(Line::Told(_, _, Happening::Handling(255)))
        )
    );
    let wake = b" <idle>-0 [001] dN.2. 7708329: tmigr_cpu_active: cpu=4 parent=(nil) wakeup=7";
    let Ok(Line::Told(_, None, Happening::CpuTold(event))) = read_line(wake) else {
        assert!(rt; false, "not read");
        return Ok(());
    };
    assert!(rt; matches!(event.kind, CpuKind::Awake) && event.cpu.0 == 4 && event.leaf == 0);
    assert_eq!(rt; event.wakeup, 7);
    Ok(())
}

// Linux 6.19 renamed the events of a CPU that comes and goes; the rest are lines as the kernel's file
// `trace`, `trace-cmd report` and `perf script` print them.
#[test]
fn lines_of_later_kernels_and_of_tools_are_read(rt: HostRuntime) -> Result<(), Fail> {
    let comes = b"cpuhp/1-24 [001] d..1. 5.9: tmigr_cpu_available: cpu=1 parent=a0 wakeup=7";
    assert!(rt;
        matches!(
            read_line(comes),
            Ok(Line::Told(_, _, Happening::CpuTold(event)))
            if matches!(event.kind, CpuKind::Online)
        )
    );
    let leaves = b"cpuhp/1-24 [001] d..1. 5.9: tmigr_cpu_unavailable: cpu=1 parent=a0 wakeup=7";
    assert!(rt;
        matches!(
            read_line(leaves),
            Ok(Line::Told(_, _, Happening::CpuTold(event)))
            if matches!(event.kind, CpuKind::Offline)
        )
    );
    let bracket = b"   irq/[7] x-12  [003] d..1.  5.916042: cpu_idle: state=1 cpu_id=3";
    assert!(rt; matches!(read_line(bracket), Ok(Line::Foreign(cpu, false)) if cpu.0 == 3));
    let perf = b"         swapper     0 [001]  5.916042: timer_migration:tmigr_handle_remote: \
          group=0xff lvl=1";
    assert!(rt;
        matches!(
            read_line(perf),
            Ok(Line::Told(_, _, Happening::Handling(255)))
        )
    );
    let strange = b"a-1 [001] 5.9: tmigr_cpu_resting: cpu=1";
    assert!(rt; matches!(read_line(strange), Ok(Line::Foreign(_, true))));
    for aside in [
        b"cpus=9".as_slice(),
        b"CPU 3 is empty".as_slice(),
        b" => tmigr_cpu_deactivate".as_slice(),
        b"=> do_idle (ffffffff8fd0e4c4)".as_slice(),
    ] {
        assert!(rt; matches!(read_line(aside), Ok(Line::Remark)));
    }
    for loss in [
        b"CPU:3 [EVENTS DROPPED]".as_slice(),
        b"CPU:3 [12 EVENTS DROPPED]".as_slice(),
    ] {
        assert!(rt; matches!(read_line(loss), Ok(Line::Loss)));
    }
    Ok(())
}

#[test]
fn what_is_no_line_is_refused_with_its_cause(rt: HostRuntime) -> Result<(), Fail> {
    let cases = [
        (b"hello".as_slice(), LineFault::NoEvent),
        (
            b"a-1 [001] d..1. cpu_idle: state=1".as_slice(),
            LineFault::NoEvent,
        ),
        (
            b"a-1 [512] 5.9: cpu_idle: state=1".as_slice(),
            LineFault::BadCpu,
        ),
        (
            b"a-1 [0x1] 5.9: cpu_idle: state=1".as_slice(),
            LineFault::NoEvent,
        ),
        (
            b"a-1 [001] 5.9: tmigr_handle_remote: group=(____ptrval____)".as_slice(),
            LineFault::HiddenPointer,
        ),
        (
            b"a-1 [001] 5.9: tmigr_handle_remote: lvl=1".as_slice(),
            LineFault::FieldMissing,
        ),
        (
            b"a-1 [001] 5.9: tmigr_handle_remote: group=11223344556677889".as_slice(),
            LineFault::BadNumber,
        ),
        (
            b"a-1 [001] 5.9: tmigr_cpu_idle: cpu=512 parent=1".as_slice(),
            LineFault::OutOfRange,
        ),
        (
            b"a-1 [001] 5.9: timer_cancel: function=f".as_slice(),
            LineFault::FieldMissing,
        ),
        (
            b"a-1 [001] 5.9: timer_start: timer=1 expires=10 [timeout=11] bucket_expiry=11".as_slice(),
            LineFault::OutOfRange,
        ),
    ];
    for (line, want) in cases {
        assert!(rt; matches!(read_line(line), Err(fault) if fault == want));
    }
    Ok(())
}

// Lines of a trace of Linux 6.12.
#[test]
fn a_timer_s_lines_are_read_field_by_field(rt: HostRuntime) -> Result<(), Fail> {
    let start = b"          <idle>-0       [001] d.s3.     5.916105: timer_start: \
          timer=ffffffffb215f720 function=clocksource_watchdog expires=4294893805 [timeout=115] \
          bucket_expiry=4294893808 cpu=2 idx=94 flags=P";
    let Ok(Line::OfTimer(cpu, at, TimerEvent::Armed(arming))) = read_line(start) else {
        assert!(rt; false, "not read");
        return Ok(());
    };
    assert_eq!(rt; cpu.0, 1);
    assert_eq!(rt; at, Some(5_916_105_999));
    assert_eq!(rt; arming.timer, 0xffff_ffff_b215_f720);
    assert_eq!(rt; arming.expires, 4_294_893_805);
    assert_eq!(rt; arming.jiffies, Some(4_294_893_690));
    assert_eq!(rt; arming.bucket, 4_294_893_808);
    assert_eq!(rt; arming.cpu.0, 2);
    assert_eq!(rt; arming.index, 94);
    assert!(rt; arming.class == Some(Class::Pinned));
    let run = b" <idle>-0 [001] ..s1. 5.916072: timer_expire_entry: timer=ffffffffb215f720 \
          function=clocksource_watchdog now=4294893690 baseclk=4294893688";
    let Ok(Line::OfTimer(_, _, TimerEvent::Ran(expiry))) = read_line(run) else {
        assert!(rt; false, "not read");
        return Ok(());
    };
    assert_eq!(rt; expiry.jiffies, 4_294_893_690);
    assert_eq!(rt; expiry.clock, 4_294_893_688);
    let cancel = b" <idle>-0 [001] d.s2. 5.916065: timer_cancel: timer=ffffffffb215f720";
    let removed = 0xffff_ffff_b215_f720;
    assert!(rt;
        matches!(
            read_line(cancel),
            Ok(Line::OfTimer(_, _, TimerEvent::Removed(timer))) if timer == removed
        )
    );
    let softirq = b" <idle>-0 [000] ..s1. 0.335460: softirq_exit: vec=1 [action=TIMER]";
    assert!(rt;
        matches!(
            read_line(softirq),
            Ok(Line::OfTimer(_, _, TimerEvent::Softirq(1)))
        )
    );
    Ok(())
}

#[test]
fn what_a_timer_may_do_is_told_by_its_flags_and_its_timeout(rt: HostRuntime) -> Result<(), Fail> {
    let past = b"a-1 [000] 5.9: timer_start: timer=1 function=f expires=10 [timeout=-5] \
          bucket_expiry=15 cpu=0 idx=15 flags=";
    let Ok(Line::OfTimer(_, _, TimerEvent::Armed(arming))) = read_line(past) else {
        assert!(rt; false, "not read");
        return Ok(());
    };
    assert_eq!(rt; arming.jiffies, Some(15));
    assert!(rt; arming.class == Some(Class::Global));
    let unsure = b"a-1 [000] 5.9: timer_start: timer=1 function=f expires=10 bucket_expiry=15 \
          cpu=0 idx=15 flags=D|P|I";
    let Ok(Line::OfTimer(_, _, TimerEvent::Armed(unclear))) = read_line(unsure) else {
        assert!(rt; false, "not read");
        return Ok(());
    };
    assert_eq!(rt; unclear.jiffies, None);
    assert!(rt; unclear.class.is_none());
    Ok(())
}
