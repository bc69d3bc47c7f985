//! The words of a line that are still to be read, and what each spells, right or not: a word that
//! is missing is empty, a number that is too large is the largest.

ghost use Rattle.std.specs.Prelude.{◌≡◌};
ghost use Rattle.text_words.specs.Words.{words_of};
ghost use Rattle.report_reader.specs.Candidates.{count_read, later_of, number_read, short_of};
ghost use Rattle.report_reader.specs.Names.{head_word};
ghost use Rattle.report_reader.specs.Candidates.{byte_of, class_read, cpu_read, jiffy_read};
ghost use Rattle.report_reader.specs.Candidates.{timer_read};
ghost use Rattle.report_reader.specs.Candidates.{is_over, level_for, place_for, with_read_digit};

use std::marker::Model;
use text_words::cut;
use tm_base::{Class, CpuId, Jiffy, NEVER, TimerId};

/// The words of a line that are still to be read.
#[derive(Drop)]
pub struct Words<'a> {
    rest: Option<&'a [u8]>,
}

impl<'a> Model for Words<'a> {
    ghost use Rattle.std.specs.Prelude.{ℕ, List};
    ghost use Rattle.std.specs.Option.{option_copied};
    ghost use Rattle.report_reader.specs.Candidates.{words_left};

    ghost Value = { List (List ℕ) };

    ghost view = { λ w. words_left (option_copied w.rest) };
}

impl<'a> Words<'a> {
    /// All words of a line.
    pub fn of(line: &'a [u8]) -> Words<'a>
        ensures { result ≡ words_of line.now }
    {
        Words { rest: Some(line) }
    }

    /// Whether no word is left.
    pub fn is_over(&self) -> bool
        ensures { result ≡ is_over self.now }
    {
        match self.rest {
            Some(_) => false,
            None => true,
        }
    }

    /// The next word.
    pub fn word(&mut self) -> &'a [u8]
        ensures word { result.now ≡ head_word self.old }
        ensures later { self.new ≡ later_of self.old }
    {
        let Some(bytes) = self.rest else {
            return b"".as_slice();
        };
        match cut(bytes, b' ') {
            Some((word, rest)) => {
                self.rest = Some(rest);
                word
            }
            None => {
                self.rest = None;
                bytes
            }
        }
    }

    /// A number of 64 bits.
    pub fn number(&mut self) -> u64
        ensures value { result ≡ number_read (head_word self.old) }
        ensures later { self.new ≡ later_of self.old }
    {
        number(self.word())
    }

    /// A number of 32 bits.
    pub fn count(&mut self) -> u32
        ensures value { result ≡ count_read (head_word self.old) }
        ensures later { self.new ≡ later_of self.old }
    {
        count(self.word())
    }

    /// A number of 8 bits.
    pub fn byte(&mut self) -> u8
        ensures value { result ≡ byte_of (head_word self.old) }
        ensures later { self.new ≡ later_of self.old }
    {
        byte(self.word())
    }

    /// A CPU.
    pub fn cpu(&mut self) -> CpuId
        ensures value { result ≡ cpu_read (head_word self.old) }
        ensures later { self.new ≡ later_of self.old }
    {
        CpuId(short(self.word()))
    }

    /// A timer.
    pub fn timer(&mut self) -> TimerId
        ensures value { result ≡ timer_read (head_word self.old) }
        ensures later { self.new ≡ later_of self.old }
    {
        TimerId(short(self.word()))
    }

    /// A wakeup or an expiry, in jiffies.
    pub fn time(&mut self) -> Jiffy
        ensures value { result ≡ jiffy_read (head_word self.old) }
        ensures later { self.new ≡ later_of self.old }
    {
        time(self.word())
    }

    /// A class.
    pub fn class(&mut self) -> Class
        ensures value { result ≡ class_read (head_word self.old) }
        ensures later { self.new ≡ later_of self.old }
    {
        class(self.word())
    }

    /// The level of a group, and its place there.
    pub fn group(&mut self) -> (u8, u16)
        ensures level { result.0 ≡ level_for (head_word self.old) }
        ensures place { result.1 ≡ place_for (head_word self.old) }
        ensures later { self.new ≡ later_of self.old }
    {
        group(self.word())
    }
}

#[tactic(auto, unfolding(crate::specs::Candidates::number_read))]
fn number(word: &[u8]) -> u64
    ensures { result ≡ number_read word.now }
{
    let mut number = 0;
    for byte in word {
        number = with_digit(number, *byte);
    }
    number
}

// A number with one more digit.
fn with_digit(number: u64, byte: u8) -> u64
    ensures { result ≡ with_read_digit number byte }
{
    number
        .saturating_mul(10)
        .saturating_add(u64::from(byte.saturating_sub(b'0')))
}

#[tactic(auto, unfolding(crate::specs::Candidates::count_read))]
fn count(word: &[u8]) -> u32
    ensures { result ≡ count_read word.now }
{
    number(word).min(4_294_967_295) as u32
}

#[tactic(auto, unfolding(crate::specs::Candidates::short_of))]
fn short(word: &[u8]) -> u16
    ensures { result ≡ short_of word.now }
{
    number(word).min(65_535) as u16
}

#[tactic(auto, unfolding(crate::specs::Candidates::byte_of))]
fn byte(word: &[u8]) -> u8
    ensures { result ≡ byte_of word.now }
{
    number(word).min(255) as u8
}

#[tactic(auto, unfolding(crate::specs::Candidates::jiffy_read))]
fn time(word: &[u8]) -> Jiffy
    ensures { result ≡ jiffy_read word.now }
{
    if word == b"never".as_slice() {
        NEVER
    } else {
        number(word)
    }
}

#[tactic(auto, unfolding(crate::specs::Candidates::class_read))]
fn class(word: &[u8]) -> Class
    ensures { result ≡ class_read word.now }
{
    if word == b"pinned".as_slice() {
        Class::Pinned
    } else if word == b"global".as_slice() {
        Class::Global
    } else {
        Class::Deferrable
    }
}

#[tactic(auto, unfolding(crate::specs::Candidates::level_for, crate::specs::Candidates::place_for))]
fn group(word: &[u8]) -> (u8, u16)
    ensures level { result.0 ≡ level_for word.now }
    ensures place { result.1 ≡ place_for word.now }
{
    match cut(word, b':') {
        Some((level, rest)) => match cut(rest, b':') {
            Some((place, _)) => (byte(level), short(place)),
            None => (byte(level), short(rest)),
        },
        None => (byte(word), short(b"".as_slice())),
    }
}
