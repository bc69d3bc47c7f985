//! Lines that are new.

ghost use Rattle.std.specs.Prelude.{◌≡◌, ◌++◌, OnOk};
ghost use Rattle.std.specs.List.{flat_map, list_any};
ghost use Rattle.std.specs.Str.{bytes_eq};
ghost use Rattle.text_words.specs.Words.{lines_of};
ghost use Rattle.page_rows.specs.Rows.{fresh_row, fresh_rows};

use crate::rows::{LABEL, push_row};
use crate::sheets::Sheet;
use text_words::cut;
use tm_base::NoMemory;

/// Whether a line is one of a text.
fn has_line(text: &[u8], line: &[u8]) -> bool
    ensures { result ≡ list_any (λ other. bytes_eq other line.now) (lines_of text.now) }
{
    let mut rest = text;
    while let Some((other, behind)) = cut(rest, b'\n') {
        if other == line {
            return true;
        }
        rest = behind;
    }
    rest == line
}

/// A line across all columns, if it isn't empty and wasn't shown.
fn push_fresh(text: &mut Vec<u8>, sheet: Sheet, shown: &[u8], line: &[u8]) -> Result<(), NoMemory>
    ensures { OnOk result (text.new.items ≡ text.old.items ++ fresh_row sheet shown.now line.now) }
{
    if line.is_empty() || has_line(shown, line) {
        return Ok(());
    }
    push_row(text, b"", u64::from(LABEL), u64::from(sheet.across), line)
}

/// The lines of a text that weren't shown.
pub fn push_all_fresh(
    text: &mut Vec<u8>,
    sheet: Sheet,
    shown: &[u8],
    lines: &[u8],
) -> Result<(), NoMemory>
    ensures { OnOk result (text.new.items
        ≡ text.old.items ++ fresh_rows sheet shown.now lines.now) }
{
    let mut rest = lines;
    while let Some((line, behind)) = cut(rest, b'\n') {
        push_fresh(text, sheet, shown, line)?;
        rest = behind;
    }
    push_fresh(text, sheet, shown, rest)?;
    Ok(())
}
