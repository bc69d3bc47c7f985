//! Whole reports.

ghost use Rattle.std.specs.Prelude.{◌≡◌, [], ◌++◌, IfOk, OnOk, OnErr, take};
ghost use Rattle.tm_report.specs.Lines.{line_text};

use crate::drafts::Draft;
use crate::lines::Line;
use crate::texts::write_line;
use std::alloc::Global;
use std::marker::Model;
use tm_base::NoMemory;

/// The exact bytes of a line, its line feed included. `NoMemory` comes only where memory is
/// wanting.
pub fn text_of(alloc: Global, line: &Line) -> Result<Vec<u8>, NoMemory>
    ensures { IfOk result (λ text. text.items ≡ line_text line.now) }
{
    let mut report = Report::new(alloc);
    report.push(line)?;
    Ok(report.into_text())
}

/// A report that grows line by line, seen as its text: the texts of the pushed lines, one after the
/// other.
#[derive(Drop)]
pub struct Report {
    draft: Draft,
}

impl Model for Report {
    ghost use Rattle.std.specs.Prelude.{◌≡◌, ℕ, List, []};

    ghost Value = { List ℕ };

    ghost view = { λ r. r.draft.finished };

    ghost invariant = { λ r. r.draft.begun ≡ [] };
}

impl Report {
    /// The report with no line. It takes no memory until a line is pushed.
    pub fn new(alloc: Global) -> Report
        ensures { result ≡ [] }
    {
        Report {
            draft: Draft::new(alloc),
        }
    }

    /// Adds a line at the end. After want of memory the report is as before.
    pub fn push(&mut self, line: &Line) -> Result<(), NoMemory>
        ensures ok { OnOk result (self.new ≡ self.old ++ line_text line.now) }
        ensures err { OnErr result (self.new ≡ self.old) }
    {
        if let Err(refused) = write_line(&mut self.draft, line) {
            self.draft.discard();
            return Err(refused);
        }
        self.draft.finish();
        Ok(())
    }

    /// Adds all lines of another report at the end. After want of memory the report is as before.
    pub fn append(&mut self, other: &Report) -> Result<(), NoMemory>
        ensures ok { OnOk result (self.new ≡ self.old ++ other.now) }
        ensures err { OnErr result (self.new ≡ self.old) }
    {
        if let Err(refused) = self.draft.piece(other.text()) {
            self.draft.discard();
            return Err(refused);
        }
        self.draft.finish();
        Ok(())
    }

    /// Keeps the first `len` bytes of the text, or all where they are fewer.
    pub fn truncate(&mut self, len: usize)
        ensures { self.new ≡ take len self.old }
    {
        self.draft.truncate(len);
    }

    /// The text so far: the lines in the order in which they were pushed, each with its line feed.
    pub fn text(&self) -> &[u8]
        ensures { result.now ≡ self.now }
    {
        self.draft.bytes()
    }

    // The text, with no copy made.
    fn into_text(self) -> Vec<u8>
        ensures { result.items ≡ self }
    {
        let Report { draft } = self;
        draft.into_bytes()
    }
}
