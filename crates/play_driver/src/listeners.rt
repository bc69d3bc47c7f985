//! Who hears the lines of a play: a report, or nobody.

ghost use Rattle.std.specs.Prelude.{◌≡◌, ℕ, List, [], ◌++◌, OnOk, OnErr};
ghost use Rattle.std.specs.Borrow.{ftrue};
ghost use Rattle.tm_report.specs.Lines.{line_text};

use std::marker::Model;
use tm_base::NoMemory;
use tm_report::{Line, Report};

/// What the lines of a play are told to, one by one.
pub trait Listener: Drop {
    ghost use Rattle.std.specs.Prelude.{ℕ, List};

    /// The texts of the lines that it heard, one after the other.
    ghost heard: { Self → List ℕ };

    /// Hears a line. After want of memory it has heard what it had before.
    fn hear(&mut self, line: &Line) -> Result<(), NoMemory>
        ensures heard { OnOk result (heard self.new ≡ heard self.old ++ line_text line.now) }
        ensures err { OnErr result (heard self.new ≡ heard self.old) };
}

/// A report writes down the text of each line.
impl Listener for Report {
    ghost heard = { λ r. r };

    fn hear(&mut self, line: &Line) -> Result<(), NoMemory> {
        self.push(line)
    }
}

/// Stands in a report's place where nobody reads one: the texts of the lines aren't made, and only
/// clauses speak of them. It takes no bytes.
#[derive(Drop)]
pub struct NoReport {
    ghost text: { List ℕ },
}

impl Model for NoReport {
    ghost also_owns = { λ _. ftrue };
}

impl NoReport {
    /// Before any line.
    pub fn new() -> NoReport
        ensures { result.text ≡ [] }
    {
        NoReport {}
    }

    /// After a line more.
    fn and(&self, line: &Line) -> NoReport
        ensures { result.text ≡ self.now.text ++ line_text line.now }
    {
        NoReport {}
    }
}

/// It never wants memory.
impl Listener for NoReport {
    ghost heard = { λ n. n.text };

    fn hear(&mut self, line: &Line) -> Result<(), NoMemory> {
        *self = self.and(line);
        Ok(())
    }
}
