use super::*;
use std::test::Fail;
use tm_base::{CpuId, NEVER};

// The words are laid out by hand: the wakeup below, then online, idle and inside, then one more
// than the marker. A word with a bit above holds no state.
#[test]
fn a_word_is_that_of_one_state_or_of_none(rt: HostRuntime) -> Result<(), Fail> {
    let asleep = CpuState {
        online: true,
        idle: true,
        inside: false,
        remote: None,
        wakeup: 61,
    };
    let at_work = CpuState {
        inside: true,
        idle: false,
        wakeup: NEVER,
        ..asleep
    };
    let marked = CpuState {
        remote: Some(CpuId(1)),
        ..asleep
    };
    let offline = CpuState {
        online: false,
        idle: true,
        inside: false,
        remote: Some(CpuId(1022)),
        wakeup: 0,
    };
    assert_eq!(rt; pack_cpu(asleep), 0x0003_0000_0000_003d);
    let cases = [
        (0x0003_0000_0000_003d, Some(asleep)),
        (0x0005_ffff_ffff_ffff, Some(at_work)),
        (0x0013_0000_0000_003d, Some(marked)),
        (0x1ffa_0000_0000_0000, Some(offline)),
        (0x2003_0000_0000_003d, None),
        (0x8003_0000_0000_003d, None),
    ];
    for (word, want) in cases {
        assert_eq!(rt; unpack_cpu(word), want, "at {word}");
    }
    Ok(())
}
