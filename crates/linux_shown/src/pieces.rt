//! The pieces of which texts on a trace are made.

ghost use Rattle.std.specs.Prelude.{◌≡◌, ◌<◌, ◌++◌, OnOk};
ghost use Rattle.linux_shown.specs.Pieces.{child_text, children_below, count_text, expiry_text};
ghost use Rattle.linux_shown.specs.Pieces.{hex_digit, hex_digits, known_expiry, nanos_text};
ghost use Rattle.linux_shown.specs.Pieces.{pointer_text};

use linux_lines::NO_EXPIRY;
use linux_seen::rests::has_bit;
use text_words::{push_bytes, push_number};
use tm_base::NoMemory;

/// The digits of a pointer in hexadecimal, as the kernel writes it.
pub const POINTER_DIGITS: u8 = 16;

/// A number behind these bytes.
#[tactic(auto, using(std::proofs::lemmas::List::append_assoc), unfolding(crate::specs::Pieces::count_text))]
pub fn push_count(text: &mut Vec<u8>, before: &[u8], n: u64) -> Result<(), NoMemory>
    ensures { OnOk result (text.new.items ≡ text.old.items ++ count_text before.now n) }
{
    push_bytes(text, before)?;
    push_number(text, n)?;
    Ok(())
}

/// One digit of a number in hexadecimal.
fn hex_digit(digit: u8) -> u8
    requires { digit < 16 }
    ensures { result ≡ hex_digit digit }
{
    if digit < 10 {
        b'0' + digit
    } else {
        b'a' + (digit - 10)
    }
}

/// The last so many digits of a number in hexadecimal.
#[tactic(auto, using(crate::proofs::Digits::hex_more, std::proofs::lemmas::List::append_assoc))]
fn push_hex(text: &mut Vec<u8>, count: u8, n: u64) -> Result<(), NoMemory>
    ensures { OnOk result (text.new.items ≡ text.old.items ++ hex_digits count n) }
{
    if count == 0 {
        return Ok(());
    }
    push_hex(text, count - 1, n / 16)?;
    text.push(hex_digit((n % 16) as u8))?;
    Ok(())
}

/// A pointer behind these bytes.
#[tactic(auto, using(std::proofs::lemmas::List::append_assoc), unfolding(crate::specs::Pieces::pointer_text))]
pub fn push_pointer(text: &mut Vec<u8>, before: &[u8], pointer: u64) -> Result<(), NoMemory>
    ensures { OnOk result (text.new.items ≡ text.old.items ++ pointer_text before.now pointer) }
{
    push_bytes(text, before)?;
    push_hex(text, POINTER_DIGITS, pointer)?;
    Ok(())
}

/// A time in nanoseconds behind these bytes.
#[tactic(auto, using(std::proofs::lemmas::List::append_assoc), unfolding(crate::specs::Pieces::nanos_text))]
pub fn push_nanos(text: &mut Vec<u8>, before: &[u8], nanos: u64) -> Result<(), NoMemory>
    ensures { OnOk result (text.new.items ≡ text.old.items ++ nanos_text before.now nanos) }
{
    push_count(text, before, nanos)?;
    push_bytes(text, b" ns")?;
    Ok(())
}

/// An expiry behind these bytes, or that there is none.
#[tactic(auto, using(std::proofs::lemmas::List::append_assoc), unfolding(crate::specs::Pieces::expiry_text))]
pub fn push_expiry(text: &mut Vec<u8>, before: &[u8], expiry: u64) -> Result<(), NoMemory>
    ensures { OnOk result (text.new.items ≡ text.old.items ++ expiry_text before.now expiry) }
{
    if expiry == NO_EXPIRY {
        push_bytes(text, before)?;
        push_bytes(text, b"none")?;
    } else {
        push_nanos(text, before, expiry)?;
    }
    Ok(())
}

/// An expiry behind these bytes, as far as it is known.
#[tactic(auto, using(std::proofs::lemmas::List::append_assoc), unfolding(crate::specs::Pieces::known_expiry))]
pub fn push_known(text: &mut Vec<u8>, before: &[u8], expiry: Option<u64>) -> Result<(), NoMemory>
    ensures { OnOk result (text.new.items ≡ text.old.items ++ known_expiry before.now expiry) }
{
    match expiry {
        Some(known) => push_expiry(text, before, known)?,
        None => {
            push_bytes(text, before)?;
            push_bytes(text, b"not known")?;
        }
    }
    Ok(())
}

/// A child's number, where its bit is set.
#[tactic(auto, using(std::proofs::lemmas::List::append_assoc), unfolding(crate::specs::Pieces::child_text))]
fn push_child(text: &mut Vec<u8>, active: u8, child: u8) -> Result<(), NoMemory>
    ensures { OnOk result (text.new.items ≡ text.old.items ++ child_text active child) }
{
    if has_bit(active, child) {
        push_count(text, b" ", u64::from(child))?;
    }
    Ok(())
}

/// The children below this number whose bits are set.
#[tactic(auto, using(crate::proofs::Digits::children_more, std::proofs::lemmas::List::append_assoc))]
pub fn push_children(text: &mut Vec<u8>, count: u8, active: u8) -> Result<(), NoMemory>
    ensures { OnOk result (text.new.items ≡ text.old.items ++ children_below count active) }
{
    if count == 0 {
        return Ok(());
    }
    push_children(text, count - 1, active)?;
    push_child(text, active, count - 1)?;
    Ok(())
}
