//! What is answered of a trace.

ghost use Rattle.std.specs.Prelude.{◌≡◌};
ghost use Rattle.trace_text.specs.declared.answers.ReadTrace.TheVariants as answers;

use tm_base::NoMemory;
use tm_script::ScriptFault;

/// Why no trace was read.
#[derive(Clone, Copy, Debug, PartialEq, Eq)]
pub enum ReadTrace {
    /// The text is no trace; the first line at fault, and of the kinds that apply to it the first.
    Refused(ScriptFault),
    /// Want of memory.
    NoMemory,
}

impl From<NoMemory> for ReadTrace {
    ghost from_gives = { λ _ e. e ≡ answers.NoMemory };

    fn from(_e: NoMemory) -> ReadTrace {
        let answer = ReadTrace::NoMemory;
        answer
    }
}
