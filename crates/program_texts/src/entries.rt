//! Lines of a word and a number.

ghost use Rattle.std.specs.Prelude.{◌≡◌, ◌++◌, map, OnOk};
ghost use Rattle.std.specs.List.{flat_map};
ghost use Rattle.text_words.specs.Words.{ended};
ghost use Rattle.tm_script.specs.Texts.{number_line};
ghost use Rattle.program_texts.specs.Entries.{entry_line};

use text_words::{push_bytes, push_number};
use tm_base::NoMemory;

/// A word, and the number behind it.
pub type Entry = (&'static [u8], u64);

/// A line of a word and a number.
#[tactic(auto, using(std::proofs::lemmas::List::append_assoc))]
fn push_line(text: &mut Vec<u8>, word: &[u8], n: u64) -> Result<(), NoMemory>
    ensures { OnOk result (text.new.items ≡ text.old.items ++ ended (number_line word.now n)) }
{
    push_bytes(text, word)?;
    push_bytes(text, b" ")?;
    push_number(text, n)?;
    push_bytes(text, b"\n")?;
    Ok(())
}

/// A line for each of these numbers.
pub fn push_entries(text: &mut Vec<u8>, entries: &[Entry]) -> Result<(), NoMemory>
    ensures { OnOk result
        (text.new.items ≡ text.old.items ++ flat_map ended (map entry_line entries.now)) }
{
    for (word, number) in entries {
        push_line(text, word, *number)?;
    }
    Ok(())
}
