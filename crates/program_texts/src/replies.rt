//! What the program is about to write.

ghost use Rattle.std.specs.Prelude.{◌≡◌};
ghost use Rattle.program_texts.specs.Statuses.{refused_status};

use crate::inputs::Form;
use crate::{SCRIPT_REFUSED, TRACE_REFUSED, WORKS_REFUSED};
use tm_report::Report;
use tm_script::ScriptFault;

/// A text that the program writes, and what it says.
#[derive(Drop)]
pub enum Reply {
    /// The words aren't a command.
    Usage,
    /// The source failed.
    ReadFault,
    /// The source has too many bytes.
    TooLong,
    /// What was read is no input of this form.
    Refused { form: Form, fault: ScriptFault },
    /// A line of the input names a job that there isn't.
    JobUnknown { line: u32, job: u8 },
    /// The work of the play or run reached its limit.
    WorkSpent { count: u32 },
    /// The report of a play, a run or a check.
    Played(Report),
    /// Another output: a tree, a script, the numbers of a day, or what comes of works.
    Made(Vec<u8>),
}

/// The status of a refusal, by what was to be read.
pub(crate) fn refused_status(form: Form) -> u8
    ensures { result ≡ refused_status form }
{
    match form {
        Form::Script => SCRIPT_REFUSED,
        Form::Trace => TRACE_REFUSED,
        Form::Works => WORKS_REFUSED,
    }
}
