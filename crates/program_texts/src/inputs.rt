//! What the program reads.

ghost use Rattle.std.specs.Prelude.{IfErr, IfOk};
ghost use Rattle.program_texts.specs.Inputs.{IsOnlyInputOf, IsRefusalBy, SpellsInput};

use std::alloc::Global;
use tm_script::{ReadScript, Script, read_script};
use trace_text::{ReadTrace, Trace, read_trace};
use work_script::{WorkScript, read_works};

/// What the bytes that a command reads are to spell.
#[derive(Clone, Copy)]
pub enum Form {
    Script,
    Trace,
    Works,
}

/// What a command works on.
#[derive(Drop)]
pub enum Input {
    Script(Script),
    Trace(Trace),
    Works(WorkScript),
}

/// The one script that these bytes spell.
fn read_as_script(alloc: Global, bytes: &[u8]) -> Result<Input, ReadScript>
    ensures spelled { IfOk result (SpellsInput Form.Script bytes.now) }
    ensures only { IfOk result (IsOnlyInputOf Form.Script bytes.now) }
    ensures refused { IfErr result (IsRefusalBy Form.Script bytes.now) }
{
    match read_script(alloc, bytes) {
        Ok(script) => Ok(Input::Script(script)),
        Err(fault) => Err(fault),
    }
}

/// The one trace that these bytes spell.
fn read_as_trace(alloc: Global, bytes: &[u8]) -> Result<Input, ReadScript>
    ensures spelled { IfOk result (SpellsInput Form.Trace bytes.now) }
    ensures only { IfOk result (IsOnlyInputOf Form.Trace bytes.now) }
    ensures refused { IfErr result (IsRefusalBy Form.Trace bytes.now) }
{
    match read_trace(alloc, bytes) {
        Ok(trace) => Ok(Input::Trace(trace)),
        Err(ReadTrace::Refused(fault)) => Err(ReadScript::Refused(fault)),
        Err(ReadTrace::NoMemory) => Err(ReadScript::NoMemory),
    }
}

/// The one script of works that these bytes spell.
fn read_as_works(alloc: Global, bytes: &[u8]) -> Result<Input, ReadScript>
    ensures spelled { IfOk result (SpellsInput Form.Works bytes.now) }
    ensures only { IfOk result (IsOnlyInputOf Form.Works bytes.now) }
    ensures refused { IfErr result (IsRefusalBy Form.Works bytes.now) }
{
    match read_works(alloc, bytes) {
        Ok(works) => Ok(Input::Works(works)),
        Err(fault) => Err(fault),
    }
}

/// The one input of this form that these bytes spell. A refusal tells the first line at fault, from
/// 1, and of the kinds that apply to it the first.
pub fn read_input(alloc: Global, form: Form, bytes: &[u8]) -> Result<Input, ReadScript>
    ensures spelled { IfOk result (SpellsInput form bytes.now) }
    ensures only { IfOk result (IsOnlyInputOf form bytes.now) }
    ensures refused { IfErr result (IsRefusalBy form bytes.now) }
{
    match form {
        Form::Script => read_as_script(alloc, bytes),
        Form::Trace => read_as_trace(alloc, bytes),
        Form::Works => read_as_works(alloc, bytes),
    }
}
