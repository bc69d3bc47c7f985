//! Why a text gives no script.

ghost use Rattle.std.specs.Prelude.{◌≡◌};
ghost use Rattle.tm_script.specs.declared.faults.ReadScript.TheVariants as answers;

use tm_base::NoMemory;

/// What is wrong with a line of a script.
#[derive(Clone, Copy, Debug, PartialEq, Eq)]
pub enum Kind {
    /// Number 1: the words of the line are none that may stand there, or too many or too few, or
    /// name no class of the version; or a line feed is missing.
    BadLine,
    /// Number 2: a word in the place of a number is no number.
    BadNumber,
    /// Number 3: a number is outside its limit, or no CPU is left that isn't isolated.
    OutOfRange,
    /// Number 4: times or isolated CPUs don't ascend, the end is before the last moment, or an
    /// operation stands behind `offline` or `online` in its moment.
    OutOfOrder,
    /// Number 5: the text ends where a further line is needed.
    NoEnd,
    /// Number 6: there are too many lines, or too many operations in a moment.
    TooManyLines,
}

/// Where a text is no script, and what is wrong there.
#[derive(Clone, Copy, Debug, PartialEq, Eq)]
pub struct ScriptFault {
    /// The number of the line at fault, from 1.
    pub line: u32,
    /// What is wrong with it.
    pub kind: Kind,
}

/// Why no script was read.
#[derive(Clone, Copy, Debug, PartialEq, Eq)]
pub enum ReadScript {
    /// The text is no script.
    Refused(ScriptFault),
    /// Want of memory.
    NoMemory,
}

impl From<NoMemory> for ReadScript {
    ghost from_gives = { λ _ e. e ≡ answers.NoMemory };

    fn from(_e: NoMemory) -> ReadScript {
        let answer = ReadScript::NoMemory;
        answer
    }
}
