//! Numbers among pieces of a sentence.

ghost use Rattle.std.specs.Prelude.{◌≡◌, ◌++◌, [], codes, OnOk};
ghost use Rattle.std.specs.Fmt.{decimal};
ghost use Rattle.tm_base.specs.Classes.{class_text};
ghost use Rattle.tm_report.specs.Words.{time_word};
ghost use Rattle.step_causes.specs.CauseTexts.{around, around_two};

use text_words::{push_bytes, push_number};
use tm_base::{Class, Jiffy, NEVER, NoMemory};

/// Bytes behind a text.
pub(crate) fn push_words(text: &mut Vec<u8>, words: &[u8]) -> Result<(), NoMemory>
    ensures { OnOk result (text.new.items ≡ text.old.items ++ words.now) }
{
    push_bytes(text, words)?;
    Ok(())
}

/// A number behind a piece.
#[tactic(auto, using(std::proofs::lemmas::List::append_assoc))]
pub(crate) fn push_after(text: &mut Vec<u8>, front: &[u8], n: u64) -> Result<(), NoMemory>
    ensures { OnOk result (text.new.items ≡ text.old.items ++ (front.now ++ decimal n)) }
{
    push_bytes(text, front)?;
    push_number(text, n)?;
    Ok(())
}

/// Two numbers, each behind a piece.
#[tactic(auto, using(std::proofs::lemmas::List::append_assoc))]
pub(crate) fn push_two(
    text: &mut Vec<u8>,
    front: &[u8],
    m: u64,
    middle: &[u8],
    n: u64,
) -> Result<(), NoMemory>
    ensures { OnOk result (text.new.items
        ≡ text.old.items ++ (front.now ++ (decimal m ++ (middle.now ++ decimal n)))) }
{
    push_after(text, front, m)?;
    push_after(text, middle, n)?;
    Ok(())
}

/// A number between two pieces.
#[tactic(auto, using(std::proofs::lemmas::List::append_assoc))]
pub(crate) fn push_around(
    text: &mut Vec<u8>,
    front: &[u8],
    n: u64,
    back: &[u8],
) -> Result<(), NoMemory>
    ensures { OnOk result (text.new.items ≡ text.old.items ++ around front.now n back.now) }
{
    push_bytes(text, front)?;
    push_number(text, n)?;
    push_bytes(text, back)?;
    Ok(())
}

/// Two numbers among three pieces.
#[tactic(auto, using(std::proofs::lemmas::List::append_assoc))]
pub(crate) fn push_around_two(
    text: &mut Vec<u8>,
    front: &[u8],
    m: u64,
    middle: &[u8],
    n: u64,
    back: &[u8],
) -> Result<(), NoMemory>
    ensures { OnOk result (text.new.items
        ≡ text.old.items ++ around_two front.now m middle.now n back.now) }
{
    push_after(text, front, m)?;
    push_around(text, middle, n, back)?;
    Ok(())
}

/// Three numbers, each behind a piece.
#[tactic(auto, using(std::proofs::lemmas::List::append_assoc))]
pub(crate) fn push_three(
    text: &mut Vec<u8>,
    front: &[u8],
    l: u64,
    middle: &[u8],
    m: u64,
    last: &[u8],
    n: u64,
) -> Result<(), NoMemory>
    ensures { OnOk result (text.new.items ≡ text.old.items
        ++ around_two front.now l middle.now m (around last.now n [])) }
{
    push_after(text, front, l)?;
    push_after(text, middle, m)?;
    push_around(text, last, n, b"")?;
    Ok(())
}

/// A class behind a piece.
#[tactic(auto, using(std::proofs::lemmas::List::append_assoc))]
pub(crate) fn push_class(text: &mut Vec<u8>, front: &[u8], class: Class) -> Result<(), NoMemory>
    ensures { OnOk result (text.new.items ≡ text.old.items ++ (front.now ++ class_text class)) }
{
    push_bytes(text, front)?;
    push_bytes(text, class.word().as_bytes())?;
    Ok(())
}

/// A number and a class, each behind a piece.
#[tactic(auto, using(std::proofs::lemmas::List::append_assoc))]
pub(crate) fn push_number_class(
    text: &mut Vec<u8>,
    front: &[u8],
    n: u64,
    middle: &[u8],
    class: Class,
) -> Result<(), NoMemory>
    ensures { OnOk result (text.new.items
        ≡ text.old.items ++ around front.now n (middle.now ++ class_text class)) }
{
    push_after(text, front, n)?;
    push_class(text, middle, class)?;
    Ok(())
}

/// Bytes, and the end of a line.
#[tactic(auto, using(std::proofs::lemmas::List::append_assoc))]
pub(crate) fn push_ended(text: &mut Vec<u8>, words: &[u8]) -> Result<(), NoMemory>
    ensures { OnOk result (text.new.items ≡ text.old.items ++ (words.now ++ codes "\n")) }
{
    push_bytes(text, words)?;
    push_bytes(text, b"\n")?;
    Ok(())
}

/// Two numbers and a class, each behind a piece.
#[tactic(auto, using(std::proofs::lemmas::List::append_assoc))]
pub(crate) fn push_two_class(
    text: &mut Vec<u8>,
    front: &[u8],
    m: u64,
    middle: &[u8],
    n: u64,
    back: &[u8],
    class: Class,
) -> Result<(), NoMemory>
    ensures { OnOk result (text.new.items ≡ text.old.items
        ++ around_two front.now m middle.now n (back.now ++ class_text class)) }
{
    push_two(text, front, m, middle, n)?;
    push_class(text, back, class)?;
    Ok(())
}

/// A number behind a piece, and a line's end behind two others.
#[tactic(auto, using(std::proofs::lemmas::List::append_assoc))]
pub(crate) fn push_line(
    text: &mut Vec<u8>,
    front: &[u8],
    n: u64,
    middle: &[u8],
    words: &[u8],
) -> Result<(), NoMemory>
    ensures { OnOk result (text.new.items ≡ text.old.items
        ++ around front.now n (middle.now ++ (words.now ++ codes "\n"))) }
{
    push_around(text, front, n, middle)?;
    push_ended(text, words)?;
    Ok(())
}

/// A time behind a piece.
#[tactic(auto, using(std::proofs::lemmas::List::append_assoc))]
pub(crate) fn push_time(text: &mut Vec<u8>, front: &[u8], at: Jiffy) -> Result<(), NoMemory>
    ensures { OnOk result (text.new.items ≡ text.old.items ++ (front.now ++ time_word at)) }
{
    push_bytes(text, front)?;
    if at == NEVER {
        push_bytes(text, b" never")?;
    } else {
        push_after(text, b" ", at)?;
    }
    Ok(())
}
