//! A text that is written line by line, each line piece by piece.

ghost use Rattle.std.specs.Prelude.{◌≡◌, [], ◌++◌, take};
ghost use Rattle.std.specs.Fmt.{decimal};
ghost use Rattle.tm_report.specs.Words.{class_word, group_text, number_word, time_word};
ghost use Rattle.tm_report.specs.Drafts.{Adds};

use itoa::Buffer;
use std::alloc::Global;
use std::marker::Model;
use tm_base::{Class, Jiffy, NEVER, NoMemory};

/// Finished lines, and behind them the pieces of a line that is begun. Each byte goes straight to
/// its place; memory is taken only where the room of the text so far is used up.
///
/// A word is written with the space before it, but for the first of a line, which is a piece.
#[derive(Drop)]
pub struct Draft {
    bytes: Vec<u8>,
    finished: usize,
}

impl Model for Draft {
    ghost use Rattle.std.specs.Prelude.{◌≤◌, vec_len, take, drop};
    ghost use Rattle.tm_report.specs.Drafts.{Written};

    ghost Value = { Written };

    ghost view = { λ d. record {
      finished = take d.finished d.bytes.items;
      begun = drop d.finished d.bytes.items;
    } };

    ghost invariant = { λ d. d.finished ≤ vec_len d.bytes };
}

impl Draft {
    /// The empty text. It takes no memory.
    pub fn new(alloc: Global) -> Draft
        ensures { result ≡ record { finished = []; begun = [] } }
    {
        Draft {
            bytes: Vec::new(alloc),
            finished: 0,
        }
    }

    /// Writes a piece as it is.
    pub fn piece(&mut self, piece: &[u8]) -> Result<(), NoMemory>
        ensures { Adds result self.old self.new piece.now }
    {
        self.bytes.extend_from_slice(piece)?;
        Ok(())
    }

    /// Writes a number in decimal.
    pub fn number(&mut self, n: u64) -> Result<(), NoMemory>
        ensures { Adds result self.old self.new (decimal n) }
    {
        self.piece(Buffer::new().format(n).as_bytes())
    }

    /// Writes a number as the next word.
    pub fn number_word(&mut self, n: u64) -> Result<(), NoMemory>
        ensures { Adds result self.old self.new (number_word n) }
    {
        self.piece(b" ")?;
        self.number(n)
    }

    /// Writes a wakeup or an expiry, in jiffies, as the next word: a number, or `never`.
    pub fn time_word(&mut self, at: Jiffy) -> Result<(), NoMemory>
        ensures { Adds result self.old self.new (time_word at) }
    {
        if at == NEVER {
            return self.piece(b" never");
        }
        self.number_word(at)
    }

    /// Writes a class as the next word.
    pub fn class_word(&mut self, class: Class) -> Result<(), NoMemory>
        ensures { Adds result self.old self.new (class_word class) }
    {
        self.piece(b" ")?;
        self.piece(class.word().as_bytes())
    }

    /// Writes a group, by its level and its place there, with no space around it.
    pub fn group(&mut self, level: u8, place: u16) -> Result<(), NoMemory>
        ensures { Adds result self.old self.new (group_text level place) }
    {
        self.number(u64::from(level))?;
        self.piece(b":")?;
        self.number(u64::from(place))
    }

    /// What was begun is a finished line from here on.
    pub fn finish(&mut self)
        ensures { self.new ≡ record { finished = self.old.finished ++ self.old.begun; begun = [] } }
    {
        self.finished = self.bytes.len();
    }

    /// Takes away what was begun.
    pub fn discard(&mut self)
        ensures { self.new ≡ record { finished = self.old.finished; begun = [] } }
    {
        self.bytes.truncate(self.finished);
    }

    /// Keeps the first `len` bytes of the finished lines, or all where they are fewer, and nothing
    /// of what was begun.
    pub fn truncate(&mut self, len: usize)
        ensures { self.new ≡ record { finished = take len self.old.finished; begun = [] } }
    {
        self.finished = self.finished.min(len);
        self.bytes.truncate(self.finished);
    }

    /// The finished lines and what was begun.
    pub fn bytes(&self) -> &[u8]
        ensures { result.now ≡ self.now.finished ++ self.now.begun }
    {
        self.bytes.as_slice()
    }

    /// The finished lines and what was begun, with no copy made.
    pub fn into_bytes(self) -> Vec<u8>
        ensures { result.items ≡ self.finished ++ self.begun }
    {
        let Draft { bytes, finished: _ } = self;
        bytes
    }
}
