//! Pieces of a chart's text.

ghost use Rattle.std.specs.Prelude.{◌≡◌, ◌++◌, OnOk, replicate};
ghost use Rattle.std.specs.Fmt.{decimal};

use text_words::{push_bytes, push_number};
use tm_base::NoMemory;

/// Bytes behind a text.
pub(crate) fn push_words(text: &mut Vec<u8>, words: &[u8]) -> Result<(), NoMemory>
    ensures { OnOk result (text.new.items ≡ text.old.items ++ words.now) }
{
    push_bytes(text, words)?;
    Ok(())
}

/// A number behind a piece.
#[tactic(auto, using(std::proofs::lemmas::List::append_assoc))]
pub(crate) fn push_after(text: &mut Vec<u8>, front: &[u8], n: u64) -> Result<(), NoMemory>
    ensures { OnOk result (text.new.items ≡ text.old.items ++ (front.now ++ decimal n)) }
{
    push_bytes(text, front)?;
    push_number(text, n)?;
    Ok(())
}

/// A number in front of a piece.
#[tactic(auto, using(std::proofs::lemmas::List::append_assoc))]
pub(crate) fn push_before(text: &mut Vec<u8>, n: u64, back: &[u8]) -> Result<(), NoMemory>
    ensures { OnOk result (text.new.items ≡ text.old.items ++ (decimal n ++ back.now)) }
{
    push_number(text, n)?;
    push_bytes(text, back)?;
    Ok(())
}

/// So many of a character.
pub(crate) fn push_signs(text: &mut Vec<u8>, count: u64, sign: u8) -> Result<(), NoMemory>
    ensures { OnOk result (text.new.items ≡ text.old.items ++ replicate count sign) }
{
    for _column in 0..count {
        text.push(sign)?;
    }
    Ok(())
}
