use super::*;
use std::test::Fail;

fn state(active: u8, migrator: Option<u8>, seq: u64) -> GroupState {
    GroupState {
        active,
        migrator,
        seq,
    }
}

// The words are laid out by hand: the set below, the migrator's bit above it, the sequence on top.
// Refused are words of active children with no migrator, with one that isn't active, and with two,
// and that of a migrator where nobody is active.
#[test]
fn a_word_is_that_of_one_lawful_state_or_of_none(rt: HostRuntime) -> Result<(), Fail> {
    let three = GroupState {
        active: 0b111,
        migrator: Some(1),
        seq: 5,
    };
    assert_eq!(rt; pack(three), 0x0000_0000_0005_0207);
    let cases = [
        (0x0000_0000_0005_0207, Some(three)),
        (0x0000_0000_0000_0000, Some(state(0, None, 0))),
        (
            0xffff_ffff_ffff_80ff,
            Some(state(0xff, Some(7), 0xffff_ffff_ffff)),
        ),
        (0x0000_0000_0005_0007, None),
        (0x0000_0000_0005_0807, None),
        (0x0000_0000_0005_0307, None),
        (0x0000_0000_0005_0200, None),
    ];
    for (word, want) in cases {
        assert_eq!(rt; unpack(word), want, "at {word}");
    }
    Ok(())
}

// By hand from the rule: the child that joins takes a free role, and who leaves passes it to the
// lowest that remains; a child found active changes the sequence alone.
#[test]
fn the_role_is_taken_where_free_and_passed_to_the_lowest(rt: HostRuntime) -> Result<(), Fail> {
    let empty = GroupState {
        active: 0,
        migrator: None,
        seq: 8,
    };
    let three = GroupState {
        active: 0b111,
        migrator: Some(1),
        seq: 5,
    };
    assert_eq!(rt; activated(empty, 3), (state(0b1000, Some(3), 9), true));
    assert_eq!(rt; activated(three, 5), (state(0b10_0111, Some(1), 6), false));
    assert_eq!(rt; swapped(three, 1, false), state(0b101, Some(0), 6));
    assert_eq!(rt; swapped(three, 0, false), state(0b110, Some(1), 6));
    assert_eq!(rt; swapped(three, 1, true), state(0b111, Some(1), 6));
    assert_eq!(rt;
        swapped(activated(empty, 3).0, 3, false),
        state(0, None, 10)
    );
    assert!(rt; looks(three, 1));
    assert!(rt; !looks(three, 0));
    assert!(rt; looks(empty, 0));
    Ok(())
}

// As docs/USE.md shows it; by hand from the rule.
#[test]
fn two_children_join_and_the_migrator_leaves(rt: HostRuntime) -> Result<(), Fail> {
    let asleep = GroupState {
        active: 0,
        migrator: None,
        seq: 0,
    };
    // Child 3 joins, and is migrator; the group was asleep, so its parent is next. Child 5 joins.
    let (one, was_asleep) = activated(asleep, 3);
    let (two, _) = activated(one, 5);
    assert!(rt; was_asleep && looks(two, 3));
    // All of it is one word, for one exchange.
    assert_eq!(rt; unpack(pack(two)), Some(two));
    // Child 3 leaves, since nobody below it is awake: the role passes on.
    let left = swapped(two, 3, false);
    assert_eq!(rt; left.migrator, Some(5));
    Ok(())
}
