//! Words of a text within a width.

ghost use Rattle.std.specs.Prelude.{◌≡◌, ◌+◌, ◌++◌, IfOk, OnOk, length};
ghost use Rattle.text_words.specs.Words.{words_of};
ghost use Rattle.page_rows.specs.Rows.{filled, gap_of, place_behind};

use crate::rows::{count_of, push_spaces, push_words};
use text_words::cut;
use tm_base::NoMemory;

/// What stands in front of a word of so many characters.
#[tactic(auto, using(std::proofs::lemmas::List::append_assoc))]
fn push_gap(
    text: &mut Vec<u8>,
    indent: u64,
    width: u64,
    at: u64,
    count: u64,
) -> Result<(), NoMemory>
    ensures { OnOk result (text.new.items ≡ text.old.items ++ gap_of indent width at count) }
{
    if at == 0 {
        return Ok(());
    }
    if count < width.saturating_sub(at) {
        return push_words(text, b" ");
    }
    push_words(text, b"\n")?;
    push_spaces(text, indent)
}

/// How many characters of the line stand behind a word.
fn place_behind(width: u64, at: u64, count: u64) -> u64
    ensures { result ≡ place_behind width at count }
{
    if at == 0 {
        return count;
    }
    if count < width.saturating_sub(at) {
        return at + 1 + count;
    }
    count
}

/// A word behind so many characters of a line, and how many stand there then.
#[tactic(auto, using(std::proofs::lemmas::List::append_assoc))]
fn push_word(
    text: &mut Vec<u8>,
    indent: u64,
    width: u64,
    at: u64,
    word: &[u8],
) -> Result<u64, NoMemory>
    ensures text { OnOk result (text.new.items
        ≡ text.old.items ++ (gap_of indent width at (length word.now) ++ word.now)) }
    ensures place { IfOk result (λ next. next ≡ place_behind width at (length word.now)) }
{
    let count = count_of(word);
    push_gap(text, indent, width, at, count)?;
    push_words(text, word)?;
    Ok(place_behind(width, at, count))
}

/// The words of a text, on further lines behind so many spaces where they have no room.
pub(crate) fn push_filled(
    text: &mut Vec<u8>,
    indent: u64,
    width: u64,
    words: &[u8],
) -> Result<(), NoMemory>
    ensures { OnOk result (text.new.items
        ≡ text.old.items ++ filled indent width 0 (words_of words.now)) }
{
    let mut at = 0;
    let mut rest = words;
    while let Some((word, behind)) = cut(rest, b' ') {
        at = push_word(text, indent, width, at, word)?;
        rest = behind;
    }
    push_word(text, indent, width, at, rest)?;
    Ok(())
}
