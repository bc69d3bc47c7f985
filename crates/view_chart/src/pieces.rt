//! Pieces of a picture's text.

ghost use Rattle.std.specs.Prelude.{◌≡◌, ◌++◌, OnOk};
ghost use Rattle.tm_report.specs.Words.{time_word};
ghost use Rattle.view_chart.specs.Pieces.{piece_with_number, three, two};

use text_words::{push_bytes, push_number};
use tm_base::{Jiffy, NEVER, NoMemory};

/// Bytes behind a text.
pub(crate) fn push_words(text: &mut Vec<u8>, words: &[u8]) -> Result<(), NoMemory>
    ensures { OnOk result (text.new.items ≡ text.old.items ++ words.now) }
{
    push_bytes(text, words)?;
    Ok(())
}

/// A number behind a piece.
#[tactic(auto, using(std::proofs::lemmas::List::append_assoc))]
pub(crate) fn push_after(text: &mut Vec<u8>, front: &[u8], n: u64) -> Result<(), NoMemory>
    ensures { OnOk result (text.new.items ≡ text.old.items ++ piece_with_number front.now n) }
{
    push_bytes(text, front)?;
    push_number(text, n)?;
    Ok(())
}

/// A time behind a piece.
#[tactic(auto, using(std::proofs::lemmas::List::append_assoc))]
pub(crate) fn push_time(text: &mut Vec<u8>, front: &[u8], at: Jiffy) -> Result<(), NoMemory>
    ensures { OnOk result (text.new.items ≡ text.old.items ++ (front.now ++ time_word at)) }
{
    push_bytes(text, front)?;
    if at == NEVER {
        push_bytes(text, b" never")?;
    } else {
        push_after(text, b" ", at)?;
    }
    Ok(())
}

/// Two numbers, each behind a piece.
#[tactic(auto, using(std::proofs::lemmas::List::append_assoc))]
pub(crate) fn push_two(
    text: &mut Vec<u8>,
    front: &[u8],
    m: u64,
    middle: &[u8],
    n: u64,
) -> Result<(), NoMemory>
    ensures { OnOk result (text.new.items
        ≡ text.old.items ++ two front.now m middle.now n) }
{
    push_after(text, front, m)?;
    push_after(text, middle, n)?;
    Ok(())
}

/// Three numbers, each behind a piece.
#[tactic(auto, using(std::proofs::lemmas::List::append_assoc))]
pub(crate) fn push_three(
    text: &mut Vec<u8>,
    front: &[u8],
    l: u64,
    middle: &[u8],
    m: u64,
    last: &[u8],
    n: u64,
) -> Result<(), NoMemory>
    ensures { OnOk result (text.new.items
        ≡ text.old.items ++ three front.now l middle.now m last.now n) }
{
    push_two(text, front, l, middle, m)?;
    push_after(text, last, n)?;
    Ok(())
}
