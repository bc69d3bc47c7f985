//! Rows: a label, and a text within a width behind it.

ghost use Rattle.std.specs.Prelude.{◌≡◌, ◌++◌, OnOk, length, replicate};
ghost use Rattle.page_rows.specs.Rows.{padded, row_text};

use crate::filling::push_filled;
use text_words::push_bytes;
use tm_base::NoMemory;

/// So many characters the label of a row has.
pub const LABEL: u16 = 7;

/// So many characters at the right of a column stay free.
pub const GAP: u16 = 2;

/// Nothing stands there.
pub const SPACE: u8 = b' ';

/// Bytes behind a text.
pub fn push_words(text: &mut Vec<u8>, words: &[u8]) -> Result<(), NoMemory>
    ensures { OnOk result (text.new.items ≡ text.old.items ++ words.now) }
{
    push_bytes(text, words)?;
    Ok(())
}

/// So many spaces.
pub(crate) fn push_spaces(text: &mut Vec<u8>, count: u64) -> Result<(), NoMemory>
    ensures { OnOk result (text.new.items ≡ text.old.items ++ replicate count SPACE) }
{
    for _space in 0..count {
        text.push(SPACE)?;
    }
    Ok(())
}

/// A number of characters.
pub(crate) fn count_of(text: &[u8]) -> u64
    ensures { result ≡ length text.now }
{
    text.len() as u64
}

/// A text, and spaces behind it up to a width.
#[tactic(auto, using(std::proofs::lemmas::List::append_assoc))]
fn push_padded(text: &mut Vec<u8>, words: &[u8], width: u64) -> Result<(), NoMemory>
    ensures { OnOk result (text.new.items ≡ text.old.items ++ padded width words.now) }
{
    push_words(text, words)?;
    push_spaces(text, width.saturating_sub(count_of(words)))?;
    Ok(())
}

/// A row: its label, and behind so many characters a text, whose words go on within a width.
#[tactic(auto, using(std::proofs::lemmas::List::append_assoc), unfolding(crate::specs::Rows::row_text))]
pub fn push_row(
    text: &mut Vec<u8>,
    label: &[u8],
    indent: u64,
    width: u64,
    words: &[u8],
) -> Result<(), NoMemory>
    ensures { OnOk result (text.new.items
        ≡ text.old.items ++ row_text label.now indent width words.now) }
{
    push_padded(text, label, indent)?;
    push_filled(text, indent, width, words)?;
    push_words(text, b"\n")?;
    Ok(())
}
