//! The words of a line, and what single words say.

ghost use Rattle.std.specs.Prelude.{◌≡◌, ◌<◌, ◌^◌, ◌∷◌, length, Ok, Err, IfOk, IfSome};
ghost use Rattle.std.specs.Prelude.{MatchResult};
ghost use Rattle.std.specs.Option.{option_copied};
ghost use Rattle.text_words.specs.Words.{words_of};
ghost use Rattle.tm_script.specs.Reading.{words_behind, only, front, number_in, version_in};
ghost use Rattle.tm_script.specs.Reading.{class_in, within, operation_of};
ghost use Rattle.tm_script.specs.Faults.{command_of};

use crate::faults::Kind;
use crate::known::Command;
use text_words::{cut, read_number};
use tm_base::Class;

/// The first word of a line, and what stands behind its space, where there is one.
pub fn first_word(line: &[u8]) -> (&[u8], Option<&[u8]>)
    ensures words { words_of line.now ≡ result.0.now ∷ words_behind (option_copied result.1) }
    ensures shorter { IfSome result.1 (λ rest. length rest.now < length line.now) }
{
    match cut(line, b' ') {
        Some((word, rest)) => (word, Some(rest)),
        None => (line, None),
    }
}

/// The one word that there is.
pub fn only_word<'a>(words: Option<&'a [u8]>) -> Result<&'a [u8], Kind>
    ensures { MatchResult result
        (λ word. only (words_behind (option_copied words.entry)) ≡ Ok word.now)
        (λ kind. only (words_behind (option_copied words.entry)) ≡ Err kind) }
{
    let Some(words) = words else {
        return Err(Kind::BadLine);
    };
    match cut(words, b' ') {
        Some(_) => Err(Kind::BadLine),
        None => Ok(words),
    }
}

/// A word behind which further ones stand, and these.
pub fn front_word<'a>(words: Option<&'a [u8]>) -> Result<(&'a [u8], Option<&'a [u8]>), Kind>
    ensures { MatchResult result
        (λ x. front (words_behind (option_copied words.entry))
        ≡ Ok (x.0.now, words_behind (option_copied x.1)))
        (λ kind. front (words_behind (option_copied words.entry)) ≡ Err kind) }
{
    let Some(words) = words else {
        return Err(Kind::BadLine);
    };
    match cut(words, b' ') {
        Some((word, rest)) => Ok((word, Some(rest))),
        None => Err(Kind::BadLine),
    }
}

/// The number that a word spells.
#[tactic(auto, unfolding(crate::specs::Reading::number_in, text_words::specs::Numbers::number_of))]
pub fn number(word: &[u8]) -> Result<u64, Kind>
    ensures value { result ≡ number_in word.now }
    ensures bound { IfOk result (λ n. n < 10 ^ 13) }
{
    match read_number(word) {
        Some(n) => Ok(n),
        None => Err(Kind::BadNumber),
    }
}

/// The version that a word names.
#[tactic(auto, unfolding(crate::specs::Reading::version_in))]
pub fn version_named(word: &[u8]) -> Result<u8, Kind>
    ensures { result ≡ version_in word.now }
{
    if word == b"1".as_slice() {
        Ok(1)
    } else if word == b"2".as_slice() {
        Ok(2)
    } else {
        Err(Kind::BadLine)
    }
}

/// The class that a word names in a version.
#[tactic(auto, unfolding(crate::specs::Reading::class_in))]
pub fn class_named(version: u8, word: &[u8]) -> Result<Class, Kind>
    ensures { result ≡ class_in version word.now }
{
    if word == b"pinned".as_slice() {
        Ok(Class::Pinned)
    } else if word == b"global".as_slice() {
        Ok(Class::Global)
    } else if version != 1 && word == b"deferrable".as_slice() {
        Ok(Class::Deferrable)
    } else {
        Err(Kind::BadLine)
    }
}

/// A number that has to be at least `least` and below `bound`.
#[tactic(auto, unfolding(crate::specs::Reading::within))]
pub fn within(n: u64, least: u64, bound: u64) -> Result<u64, Kind>
    ensures value { result ≡ within least bound n }
    ensures bound { IfOk result (λ m. m < bound) }
{
    if least <= n && n < bound {
        Ok(n)
    } else {
        Err(Kind::OutOfRange)
    }
}

/// The command that a first word names.
#[tactic(auto, unfolding(crate::specs::Faults::command_of, crate::specs::Reading::operation_of))]
pub fn command_named(word: &[u8]) -> Option<Command>
    ensures { result ≡ command_of word.now }
{
    if word == b"tmig".as_slice() {
        Some(Command::Tmig)
    } else if word == b"nodes".as_slice() {
        Some(Command::Nodes)
    } else if word == b"cpus".as_slice() {
        Some(Command::Cpus)
    } else if word == b"timers".as_slice() {
        Some(Command::Timers)
    } else if word == b"isolated".as_slice() {
        Some(Command::Isolated)
    } else if word == b"at".as_slice() {
        Some(Command::At)
    } else if word == b"end".as_slice() {
        Some(Command::End)
    } else {
        operation_named(word)
    }
}

/// The operation that a first word names.
#[tactic(auto, unfolding(crate::specs::Reading::operation_of))]
fn operation_named(word: &[u8]) -> Option<Command>
    ensures { result ≡ operation_of word.now }
{
    if word == b"arm".as_slice() {
        Some(Command::Arm)
    } else if word == b"cancel".as_slice() {
        Some(Command::Cancel)
    } else if word == b"idle".as_slice() {
        Some(Command::Idle)
    } else if word == b"wake".as_slice() {
        Some(Command::Wake)
    } else if word == b"offline".as_slice() {
        Some(Command::Offline)
    } else if word == b"online".as_slice() {
        Some(Command::Online)
    } else {
        None
    }
}
