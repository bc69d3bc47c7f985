//! Pieces of a text.

ghost use Rattle.std.specs.Prelude.{◌≡◌, ◌++◌, ◌+◌, ◌<◌, [], ◌∷◌, OnOk};
ghost use Rattle.std.specs.Fmt.{decimal};
ghost use Rattle.tm_report.specs.Words.{group_text, time_word};

use text_words::{push_bytes, push_number};
use tm_base::{Jiffy, NEVER, NoMemory};

/// Bytes behind a text.
pub(crate) fn push_words(text: &mut Vec<u8>, words: &[u8]) -> Result<(), NoMemory>
    ensures { OnOk result (text.new.items ≡ text.old.items ++ words.now) }
{
    push_bytes(text, words)?;
    Ok(())
}

/// A number behind a piece.
#[tactic(auto, using(std::proofs::lemmas::List::append_assoc))]
pub(crate) fn push_after(text: &mut Vec<u8>, front: &[u8], n: u64) -> Result<(), NoMemory>
    ensures { OnOk result (text.new.items ≡ text.old.items ++ (front.now ++ decimal n)) }
{
    push_bytes(text, front)?;
    push_number(text, n)?;
    Ok(())
}

/// One digit.
fn push_digit(text: &mut Vec<u8>, digit: u8) -> Result<(), NoMemory>
    requires { digit < 10 }
    ensures { OnOk result (text.new.items ≡ text.old.items ++ (48 + digit) ∷ []) }
{
    text.push(b'0' + digit)?;
    Ok(())
}

/// A number of up to 39 digits.
#[tactic(auto, using(std::proofs::lemmas::Fmt::decimal_digit, std::proofs::lemmas::Fmt::decimal_step, std::proofs::lemmas::List::append_assoc))]
pub(crate) fn push_wide(text: &mut Vec<u8>, n: u128) -> Result<(), NoMemory>
    ensures { OnOk result (text.new.items ≡ text.old.items ++ decimal n) }
{
    if n < 10 {
        return push_digit(text, n as u8);
    }
    push_wide(text, n / 10)?;
    push_digit(text, (n % 10) as u8)?;
    Ok(())
}

/// A group, by its level and its place there.
#[tactic(auto, using(std::proofs::lemmas::List::append_assoc))]
pub(crate) fn push_group(text: &mut Vec<u8>, level: u8, place: u16) -> Result<(), NoMemory>
    ensures { OnOk result (text.new.items ≡ text.old.items ++ group_text level place) }
{
    push_number(text, u64::from(level))?;
    push_bytes(text, b":")?;
    push_number(text, u64::from(place))?;
    Ok(())
}

/// A wakeup.
pub(crate) fn push_time(text: &mut Vec<u8>, at: Jiffy) -> Result<(), NoMemory>
    ensures { OnOk result (text.new.items ≡ text.old.items ++ time_word at) }
{
    if at == NEVER {
        return push_words(text, b" never");
    }
    push_after(text, b" ", at)
}
