//! Lines of a text by their numbers, and how they are printed.

ghost use Rattle.std.specs.Prelude.{◌≡◌, ◌≤◌, ◌++◌, OnOk, Some, length, map, slice_get, take};
ghost use Rattle.std.specs.Option.{option_copied};
ghost use Rattle.text_words.specs.Words.{lines_of};
ghost use Rattle.view_hints.specs.Lines.{is_first_word, printed_byte, printed_line};

use text_words::{cut, push_bytes};
use tm_base::NoMemory;

/// So many bytes of a line are printed.
pub const MOST_PRINTED: usize = 60;

/// Bytes from this one on are printed as they are.
pub const FIRST_PRINTED: u8 = b' ';

/// Up to this one.
pub const LAST_PRINTED: u8 = b'~';

/// What is printed in place of others.
pub const UNPRINTED: u8 = b'?';

/// What stands in front of the first line feed.
fn front(bytes: &[u8]) -> &[u8]
    ensures { slice_get (lines_of bytes.now) 0 ≡ Some result.now }
{
    match cut(bytes, b'\n') {
        Some((line, _behind)) => line,
        None => bytes,
    }
}

/// The line of a number from 0, where there is one; the last is what stands behind the last line
/// feed.
pub(crate) fn line_at(bytes: &[u8], number: u32) -> Option<&[u8]>
    ensures { option_copied result ≡ slice_get (lines_of bytes.now) number }
{
    let mut rest = bytes;
    for _before in 0..number {
        match cut(rest, b'\n') {
            Some((_line, behind)) => rest = behind,
            None => return None,
        }
    }
    Some(front(rest))
}

/// Whether a line begins with this word.
pub(crate) fn is_first_word(line: &[u8], word: &[u8]) -> bool
    ensures { result ≡ is_first_word line.now word.now }
{
    match cut(line, b' ') {
        Some((first, _behind)) => first == word,
        None => line == word,
    }
}

/// What is printed of a byte.
fn printed_byte(byte: u8) -> u8
    ensures { result ≡ printed_byte byte }
{
    if FIRST_PRINTED <= byte && byte <= LAST_PRINTED {
        byte
    } else {
        UNPRINTED
    }
}

/// Bytes as they are printed.
fn push_printed(text: &mut Vec<u8>, bytes: &[u8]) -> Result<(), NoMemory>
    ensures { OnOk result (text.new.items ≡ text.old.items ++ map printed_byte bytes.now) }
{
    for byte in bytes {
        text.push(printed_byte(*byte))?;
    }
    Ok(())
}

/// The bytes of a line that are printed.
fn firsts(line: &[u8]) -> &[u8]
    requires { MOST_PRINTED ≤ length line.now }
    ensures { result.now ≡ take MOST_PRINTED line.now }
{
    &line[..MOST_PRINTED]
}

/// A line as it is printed: its first bytes, and dots where it has more.
#[tactic(auto, using(std::proofs::lemmas::List::append_assoc))]
pub(crate) fn push_line(text: &mut Vec<u8>, line: &[u8]) -> Result<(), NoMemory>
    ensures { OnOk result (text.new.items ≡ text.old.items ++ printed_line line.now) }
{
    if line.len() > MOST_PRINTED {
        push_printed(text, firsts(line))?;
        push_bytes(text, b" ..")?;
        return Ok(());
    }
    push_printed(text, line)
}
