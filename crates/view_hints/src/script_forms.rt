//! What may stand on a line of a script.

ghost use Rattle.std.specs.Prelude.{◌≡◌};
ghost use Rattle.view_hints.specs.Forms.{head_form, operation_form, script_form};

use crate::lines::is_first_word;

/// What stands on the first lines behind the version, by their numbers from 1.
pub(crate) fn head_form(number: u32) -> &'static [u8]
    ensures { result.now ≡ head_form number }
{
    if number == 2 {
        return b"'nodes N', N from 1 to 8,";
    }
    if number == 3 {
        return b"'cpus P', P from 1 to 64,";
    }
    if number == 4 {
        return b"'timers T', T from 1 to 4096,";
    }
    b"'isolated', with ascending CPUs behind it or none,"
}

/// What may stand on a line of moments, by its first word.
fn operation_form(line: &[u8]) -> &'static [u8]
    ensures { result.now ≡ operation_form line.now }
{
    if is_first_word(line, b"at") {
        return b"'at A', after the moment before,";
    }
    if is_first_word(line, b"end") {
        return b"'end E', not before the last moment,";
    }
    if is_first_word(line, b"arm") {
        return b"'arm CPU TIMER CLASS DELAY JOB ARG'";
    }
    if is_first_word(line, b"cancel") {
        return b"'cancel CPU TIMER'";
    }
    if is_first_word(line, b"idle") {
        return b"'idle CPU'";
    }
    if is_first_word(line, b"wake") {
        return b"'wake CPU'";
    }
    if is_first_word(line, b"offline") {
        return b"'offline CPU', last in its moment,";
    }
    if is_first_word(line, b"online") {
        return b"'online CPU', last in its moment,";
    }
    b"'at A', an operation of that moment or 'end E'"
}

/// What may stand on a line of a script, by its number from 1, where the script has so many lines
/// in front of its moments.
pub(crate) fn script_form(heads: u32, number: u32, line: &[u8]) -> &'static [u8]
    ensures { result.now ≡ script_form heads number line.now }
{
    if number <= 1 {
        return b"'tmig 1' or 'tmig 2'";
    }
    if number <= heads {
        return head_form(number);
    }
    if number == heads + 1 {
        return b"'at A' or 'end E'";
    }
    operation_form(line)
}
