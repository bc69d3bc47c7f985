//! The numbers of a trace, in base ten or sixteen.

ghost use Rattle.std.specs.Prelude.{◌≡◌, ◌≤◌, IfOk};
ghost use Rattle.linux_lines.specs.Numbers.{digit_of, with_digit, number_of, number_in, pointer_in};
ghost use Rattle.linux_lines.specs.Numbers.{mask_in, within};

use crate::LineFault;
use crate::parts::without;

/// The base of a number.
#[derive(Clone, Copy)]
pub enum Base {
    /// Decimal, as counts, levels and times are written.
    Ten,
    /// Hexadecimal, as masks and pointers are written.
    Sixteen,
}

/// The value of a digit, or 16 where the byte is none.
fn digit(byte: u8) -> u8
    ensures { result ≡ digit_of byte }
{
    match byte {
        b'0'..=b'9' => byte - b'0',
        b'a'..=b'f' => byte - b'a' + 10,
        b'A'..=b'F' => byte - b'A' + 10,
        _ => 16,
    }
}

/// A number with one digit more, where the byte is a digit and the number stays within 64 bits.
fn with_digit(base: Base, number: u64, byte: u8) -> Option<u64>
    ensures { result ≡ with_digit base number byte }
{
    let value = digit(byte);
    match base {
        Base::Ten => {
            if value < 10 && number <= 1_844_674_407_370_955_160 {
                Some(number * 10 + u64::from(value))
            } else {
                None
            }
        }
        Base::Sixteen => {
            if value < 16 && number <= 1_152_921_504_606_846_975 {
                Some(number * 16 + u64::from(value))
            } else {
                None
            }
        }
    }
}

/// The number that digits spell; None for no digits, for other bytes, and where it is too large.
#[tactic(auto, unfolding(crate::specs::Numbers::number_of))]
pub fn number(base: Base, word: &[u8]) -> Option<u64>
    ensures { result ≡ number_of base word.now }
{
    if word.is_empty() {
        return None;
    }
    let mut number = 0;
    for byte in word {
        let Some(next) = with_digit(base, number, *byte) else {
            return None;
        };
        number = next;
    }
    Some(number)
}

/// The number that a word spells.
#[tactic(auto, unfolding(crate::specs::Numbers::number_in))]
pub fn read_number(base: Base, word: &[u8]) -> Result<u64, LineFault>
    ensures { result ≡ number_in base word.now }
{
    match number(base, word) {
        Some(number) => Ok(number),
        None => Err(LineFault::BadNumber),
    }
}

/// The pointer that a word spells, with `0x` in front or without; `(nil)` is 0.
#[tactic(auto, unfolding(crate::specs::Numbers::pointer_in))]
pub fn read_pointer(word: &[u8]) -> Result<u64, LineFault>
    ensures { result ≡ pointer_in word.now }
{
    if word == b"(____ptrval____)".as_slice() {
        Err(LineFault::HiddenPointer)
    } else if word == b"(nil)".as_slice() {
        Ok(0)
    } else {
        read_mask(word)
    }
}

/// The number that a word spells in base sixteen, with `0x` in front or without.
#[tactic(auto, unfolding(crate::specs::Numbers::mask_in))]
pub fn read_mask(word: &[u8]) -> Result<u64, LineFault>
    ensures { result ≡ mask_in word.now }
{
    read_number(Base::Sixteen, without(word, b"0x"))
}

/// A number that has to be at most this.
#[tactic(auto, unfolding(crate::specs::Numbers::within))]
pub fn within(most: u64, number: u64) -> Result<u64, LineFault>
    ensures value { result ≡ within most number }
    ensures bound { IfOk result (λ n. n ≤ most) }
{
    if number <= most {
        Ok(number)
    } else {
        Err(LineFault::OutOfRange)
    }
}
