use super::*;
use std::test::Fail;

// By the rule of numbers: one to thirteen digits, and no zero in front of another digit.
#[test]
fn a_word_of_one_to_thirteen_digits_is_a_number(rt: HostRuntime) -> Result<(), Fail> {
    let cases = [
        (b"0".as_slice(), Some(0)),
        (b"4096".as_slice(), Some(4_096)),
        (b"9999999999999".as_slice(), Some(9_999_999_999_999)),
        (b"10000000000000".as_slice(), None),
        (b"07".as_slice(), None),
        (b"+7".as_slice(), None),
        (b"".as_slice(), None),
    ];
    for (word, want) in cases {
        assert_eq!(rt; is_number(word), want.is_some());
        assert_eq!(rt; read_number(word), want);
    }
    Ok(())
}

#[test]
fn a_line_is_cut_at_its_first_space(rt: HostRuntime) -> Result<(), Fail> {
    assert!(rt; cut(b"arm 1 0", b' ') == Some((b"arm".as_slice(), b"1 0".as_slice())));
    assert!(rt; cut(b"arm ", b' ') == Some((b"arm".as_slice(), b"".as_slice())));
    assert!(rt; cut(b"arm", b' ') == None);
    Ok(())
}

#[test]
fn pieces_are_written_behind_a_text(rt: HostRuntime) -> Result<(), Fail> {
    let mut text = Vec::new(rt.alloc());
    push_bytes(&mut text, b"at ")?;
    push_number(&mut text, 0)?;
    push_bytes(&mut text, b" ")?;
    push_number(&mut text, u64::MAX)?;
    assert!(rt; text.as_slice() == b"at 0 18446744073709551615".as_slice());
    Ok(())
}
