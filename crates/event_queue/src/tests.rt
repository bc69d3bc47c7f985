ghost use Rattle.std.specs.Prelude.{◌≡◌};

use super::*;
use std::test::Fail;
use tm_base::{CpuId, CpuSet};

fn event(expiry: u64, cpu: u16, ignored: bool) -> Event
    ensures { result ≡ record { expiry = expiry; cpu = record { 0 = cpu }; ignored = ignored } }
{
    Event {
        expiry,
        cpu: CpuId(cpu),
        ignored,
    }
}

// The words are laid out by hand: the expiry below, then CPU, ignored and present. Bits from 60 on
// say nothing, and a word without the present bit holds no event.
#[test]
fn a_word_holds_an_event_exactly_where_its_present_bit_is_set(rt: HostRuntime) -> Result<(), Fail> {
    let cases = [
        (0x0801_0000_0000_003d, Some(event(61, 1, false))),
        (0x0c01_0000_0000_003d, Some(event(61, 1, true))),
        (
            0xffff_ffff_ffff_ffff,
            Some(event(0xffff_ffff_ffff, 1023, true)),
        ),
        (0x0401_0000_0000_003d, None),
        (0xf7ff_ffff_ffff_ffff, None),
    ];
    for (word, want) in cases {
        assert_eq!(rt; unpack_event(word), want, "at {word}");
    }
    assert_eq!(rt;
        pack_event(Some(event(61, 1, false))),
        0x0801_0000_0000_003d
    );
    assert_eq!(rt; pack_event(None), 0);
    Ok(())
}

#[test]
fn a_slot_is_set_marked_and_cleared_and_an_empty_one_stays_empty(
    rt: HostRuntime,
) -> Result<(), Fail> {
    let mut events = Events::new();
    assert_eq!(rt; events.first(), None);
    events.set(7, event(30, 7, false));
    events.mark(7);
    events.mark(1);
    assert_eq!(rt; events.get(7), Some(event(30, 7, true)));
    assert_eq!(rt; events.get(1), None);
    events.clear(7);
    assert_eq!(rt; events.get(7), None);
    Ok(())
}

// By hand from the rule: the least expiry, then the lowest child, of what isn't ignored or tried.
#[test]
fn a_look_takes_the_least_expiry_then_the_lowest_child_untried(
    rt: HostRuntime,
) -> Result<(), Fail> {
    let mut events = Events::new();
    events.set(2, event(61, 2, false));
    events.set(6, event(61, 6, false));
    events.set(7, event(30, 7, true));
    assert_eq!(rt; events.first(), Some((2, event(61, 2, false))));
    let mut tried = CpuSet::new();
    assert_eq!(rt; events.due(60, &tried), None);
    assert_eq!(rt; events.due(61, &tried), Some((2, event(61, 2, false))));
    tried.add(CpuId(2));
    assert_eq!(rt; events.due(61, &tried), Some((6, event(61, 6, false))));
    Ok(())
}

// As docs/USE.md shows it; by hand from the rule.
#[test]
fn the_first_event_is_ignored_and_the_next_one_is_due(rt: HostRuntime) -> Result<(), Fail> {
    // Child 0 has a timer of CPU 8 at jiffy 61, and child 1 one of CPU 9 at 40.
    let mut events = Events::new();
    events.set(0, event(61, 8, false));
    events.set(1, event(40, 9, false));
    assert_eq!(rt; events.first(), Some((1, event(40, 9, false))));
    // CPU 9 wakes, and runs its timers itself: its event is ignored.
    events.mark(1);
    assert_eq!(rt; events.first(), Some((0, event(61, 8, false))));
    // At 61 a look finds CPU 8; once that was tried, nobody.
    let mut tried = CpuSet::new();
    assert_eq!(rt; events.due(61, &tried), Some((0, event(61, 8, false))));
    tried.add(CpuId(8));
    assert_eq!(rt; events.due(61, &tried), None);
    Ok(())
}
