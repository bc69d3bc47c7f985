//! What may stand on a line of a trace of steps.

ghost use Rattle.std.specs.Prelude.{◌≡◌};
ghost use Rattle.view_hints.specs.Forms.{step_form, step_form_later, trace_form};

use crate::lines::is_first_word;
use crate::script_forms::head_form;

/// What may stand on a line of steps, by its first word.
fn step_form(line: &[u8]) -> &'static [u8]
    ensures { result.now ≡ step_form line.now }
{
    if is_first_word(line, b"clock") {
        return b"'clock JIFFY'";
    }
    if is_first_word(line, b"enter") {
        return b"'enter CPU'";
    }
    if is_first_word(line, b"leave") {
        return b"'leave CPU'";
    }
    if is_first_word(line, b"arm") {
        return b"'arm CPU TIMER CLASS EXPIRES JOB ARG LINE'";
    }
    if is_first_word(line, b"cancel") {
        return b"'cancel CPU TIMER BY LINE'";
    }
    if is_first_word(line, b"hand") {
        return b"'hand CPU TIMER RUNNER'";
    }
    if is_first_word(line, b"ticked") {
        return b"'ticked CPU CLASS RUNNER'";
    }
    if is_first_word(line, b"move") {
        return b"'move FROM TO TIMER'";
    }
    if is_first_word(line, b"idle") {
        return b"'idle CPU'";
    }
    if is_first_word(line, b"wake") {
        return b"'wake CPU'";
    }
    step_form_later(line)
}

/// What may stand on a line of steps, by its first word, of those that come later.
fn step_form_later(line: &[u8]) -> &'static [u8]
    ensures { result.now ≡ step_form_later line.now }
{
    if is_first_word(line, b"offline") {
        return b"'offline CPU'";
    }
    if is_first_word(line, b"online") {
        return b"'online CPU'";
    }
    if is_first_word(line, b"reeval") {
        return b"'reeval CPU'";
    }
    if is_first_word(line, b"take") {
        return b"'take CPU BY'";
    }
    if is_first_word(line, b"carry") {
        return b"'carry CPU'";
    }
    if is_first_word(line, b"release") {
        return b"'release CPU'";
    }
    if is_first_word(line, b"walk") {
        return b"'walk CPU'";
    }
    if is_first_word(line, b"handon") {
        return b"'handon CPU TO'";
    }
    if is_first_word(line, b"why") {
        return b"'why CPU TIMER'";
    }
    if is_first_word(line, b"end") {
        return b"'end'";
    }
    b"a step, 'why CPU TIMER' or 'end'"
}

/// What may stand on a line of a trace of steps, by its number from 1.
pub(crate) fn trace_form(number: u32, line: &[u8]) -> &'static [u8]
    ensures { result.now ≡ trace_form number line.now }
{
    if number <= 1 {
        return b"'trace 1'";
    }
    if number <= 5 {
        return head_form(number);
    }
    step_form(line)
}
