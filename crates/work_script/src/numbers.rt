//! The numbers of a line.

ghost use Rattle.std.specs.Prelude.{◌≡◌, ◌+◌, ◌<◌, ◌≤◌, ◌∷◌, [], IfOk, length};
ghost use Rattle.std.specs.Option.{option_copied};
ghost use Rattle.text_words.specs.Words.{words_of};
ghost use Rattle.work_script.specs.Reading.{first_kind, joined_numbers, number_at_place};
ghost use Rattle.work_script.specs.Reading.{number_for, numbers_of};
ghost use Rattle.work_script.specs.Steps.{work_words_behind};

use crate::words::NumberSlot;
use std::marker::Model;
use text_words::{cut, read_number};
use tm_script::Kind;

/// The most numbers of a line.
pub(crate) const MOST_NUMBERS: usize = 4;

/// Numbers, from the last to the first, so that one more goes to the front.
#[derive(Drop)]
pub(crate) struct NumberList {
    numbers: [u64; MOST_NUMBERS],
    first: usize,
}

impl Model for NumberList {
    ghost use Rattle.std.specs.Prelude.{List, drop, ℕ};
    ghost use Rattle.work_script.specs.Steps.{IsNumberList};

    ghost Value = { List ℕ };

    ghost view = { λ l. drop l.first l.numbers };

    ghost invariant = { λ l. IsNumberList l.numbers l.first };
}

impl NumberList {
    /// No numbers.
    fn new() -> NumberList
        ensures { result ≡ [] }
    {
        NumberList {
            numbers: [0; MOST_NUMBERS],
            first: MOST_NUMBERS,
        }
    }

    /// These numbers behind another one.
    fn behind(self, number: u64) -> NumberList
        requires { length self < MOST_NUMBERS }
        ensures { result ≡ number ∷ self }
    {
        let mut numbers = self.numbers;
        let first = self.first - 1;
        numbers[first] = number;
        NumberList { numbers, first }
    }

    /// The number at a place; 0 where there is none.
    pub(crate) fn get(&self, i: usize) -> u64
        requires { i < MOST_NUMBERS }
        ensures { result ≡ number_at_place self.now i }
    {
        let at = self.first + i;
        if at < MOST_NUMBERS {
            self.numbers[at]
        } else {
            0
        }
    }
}

/// The number that a word spells, where it is within its limits.
#[tactic(auto, unfolding(crate::specs::Reading::number_for, text_words::specs::Numbers::number_of))]
fn number_in(slot: NumberSlot, word: &[u8]) -> Result<u64, Kind>
    ensures { result ≡ number_for slot word.now }
{
    let Some(n) = read_number(word) else {
        return Err(Kind::BadNumber);
    };
    if slot.least <= n && n < slot.bound {
        Ok(n)
    } else {
        Err(Kind::OutOfRange)
    }
}

/// Of two kinds of fault in one line the first in their order.
fn first_kind(this: Kind, that: Kind) -> Kind
    ensures { result ≡ first_kind this that }
{
    match this {
        Kind::BadLine => Kind::BadLine,
        Kind::BadNumber => match that {
            Kind::BadLine => Kind::BadLine,
            _ => Kind::BadNumber,
        },
        Kind::OutOfRange => match that {
            Kind::BadLine => Kind::BadLine,
            Kind::BadNumber => Kind::BadNumber,
            _ => Kind::OutOfRange,
        },
        _ => that,
    }
}

/// One number, and those of the words behind it.
fn join(first: Result<u64, Kind>, behind: Result<NumberList, Kind>) -> Result<NumberList, Kind>
    requires { IfOk behind (λ ns. length ns < MOST_NUMBERS) }
    ensures { result ≡ joined_numbers first behind }
{
    match first {
        Ok(number) => match behind {
            Ok(numbers) => Ok(numbers.behind(number)),
            Err(kind) => Err(kind),
        },
        Err(kind) => match behind {
            Ok(_) => Err(kind),
            Err(other) => Err(first_kind(kind, other)),
        },
    }
}

/// The first word of a line, and what stands behind its space, where there is one.
pub(crate) fn first_word(line: &[u8]) -> (&[u8], Option<&[u8]>)
    ensures words { words_of line.now ≡ result.0.now ∷ work_words_behind (option_copied result.1) }
{
    match cut(line, b' ') {
        Some((word, rest)) => (word, Some(rest)),
        None => (line, None),
    }
}

/// The numbers that the words spell at these places, at most four, or the first kind of fault that
/// they have.
#[tactic(auto, unfolding(crate::specs::Reading::numbers_of))]
pub(crate) fn read_numbers(slots: &[NumberSlot], words: Option<&[u8]>) -> Result<NumberList, Kind>
    requires { length slots.now ≤ MOST_NUMBERS }
    ensures value { result ≡ numbers_of slots.now (work_words_behind (option_copied words.entry)) }
    ensures as_many { IfOk result (λ ns. length ns ≡ length slots.now) }
{
    match slots {
        [] => match words {
            None => Ok(NumberList::new()),
            Some(_) => Err(Kind::BadLine),
        },
        [slot, behind @ ..] => {
            let Some(words) = words else {
                return Err(Kind::BadLine);
            };
            let (word, rest) = first_word(words);
            join(number_in(*slot, word), read_numbers(behind, rest))
        }
    }
}
