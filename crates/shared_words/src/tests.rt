use super::*;
use cpu_word::{CpuState, pack_cpu};
use event_queue::{Event, pack_event};
use group_word::{GroupState, pack};
use std::test::Fail;
use tm_base::{Class, CpuId, GroupId, TimerId};

// By hand: a state of three active children with the second as migrator after five exchanges, an
// event of CPU 1 at 61, and an idle CPU that is woken at 61.
#[test]
fn each_kind_of_word_is_laid_out_as_it_was_by_hand(rt: HostRuntime) -> Result<(), Fail> {
    let three = GroupState {
        active: 0b111,
        migrator: Some(1),
        seq: 5,
    };
    let event = Event {
        expiry: 61,
        cpu: CpuId(1),
        ignored: false,
    };
    let asleep = CpuState {
        online: true,
        idle: true,
        inside: false,
        remote: None,
        wakeup: 61,
    };
    assert_eq!(rt; pack(three), 0x0000_0000_0005_0207);
    assert_eq!(rt; pack_event(Some(event)), 0x0801_0000_0000_003d);
    assert_eq!(rt; pack_cpu(asleep), 0x0003_0000_0000_003d);
    assert_eq!(rt; pack_lock(None), 0);
    assert_eq!(rt; pack_lock(Some(CpuId(0))), 1);
    assert_eq!(rt; unpack_lock(512), Some(CpuId(511)));
    Ok(())
}

// By hand: three bases to a CPU, in the order of the classes, from 1 on.
#[test]
fn a_timers_word_is_one_more_than_the_number_of_its_base(rt: HostRuntime) -> Result<(), Fail> {
    let cases = [
        (0, None),
        (1, Some(spot(0, Class::Pinned))),
        (2, Some(spot(0, Class::Global))),
        (3, Some(spot(0, Class::Deferrable))),
        (4, Some(spot(1, Class::Pinned))),
        (1536, Some(spot(511, Class::Deferrable))),
    ];
    for (word, want) in cases {
        assert_eq!(rt; pack_spot(want), word);
        assert_eq!(rt; unpack_spot(word), want, "at {word}");
    }
    Ok(())
}

// By hand: two groups of 16 words each from 16 on, then three CPUs, 8 words apart, then two timers.
#[test]
fn the_words_stand_group_by_group_then_cpus_then_timers(rt: HostRuntime) -> Result<(), Fail> {
    let layout = Layout {
        groups: 2,
        cpus: 3,
        timers: 2,
    };
    let cases = [
        (SharedWord::State(GroupId(0)), 16),
        (SharedWord::Lock(GroupId(0)), 17),
        (SharedWord::Slot(GroupId(0), 0), 18),
        (SharedWord::Slot(GroupId(0), 7), 25),
        (SharedWord::State(GroupId(1)), 32),
        (SharedWord::Slot(GroupId(1), 7), 41),
        (SharedWord::Cpu(CpuId(0)), 48),
        (SharedWord::Cpu(CpuId(2)), 64),
        (SharedWord::Timer(TimerId(0)), 72),
        (SharedWord::Timer(TimerId(1)), 73),
    ];
    for (word, want) in cases {
        assert_eq!(rt; layout.index(word), want, "at {want}");
    }
    assert_eq!(rt; layout.count(), 74);
    Ok(())
}

// By hand, on the word of three active children: the sequence rises each time.
#[test]
fn an_exchange_changes_the_set_and_raises_the_sequence(rt: HostRuntime) -> Result<(), Fail> {
    let three = 0x0000_0000_0005_0207;
    assert_eq!(rt; joined_word(three, 5), 0x0000_0000_0006_0227);
    assert_eq!(rt; joined_word(0, 0), 0x0000_0000_0001_0101);
    assert_eq!(rt; swapped_word(three, 1, false), 0x0000_0000_0006_0105);
    assert_eq!(rt; swapped_word(three, 1, true), 0x0000_0000_0006_0207);
    assert!(rt; has_migrator(three));
    assert!(rt; !has_migrator(0x0000_0000_0005_0000));
    Ok(())
}

fn spot(cpu: u16, class: Class) -> Spot {
    Spot {
        cpu: CpuId(cpu),
        class,
    }
}
