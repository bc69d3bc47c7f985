//! The words of commands that have one option or none.

ghost use Rattle.std.specs.Prelude.{◌≡◌, string_bytes};
ghost use Rattle.std.specs.Str.{bytes_eq};
ghost use Rattle.view_main.specs.Words.{explain_with, form_in, form_of, is_all, is_alone};
ghost use Rattle.view_main.specs.Words.{other_command, stat_with};

use crate::words::Command;
use view_stat::Form;

/// Whether a word is this one.
pub(crate) fn is_word(word: &String, name: &[u8]) -> bool
    ensures { result ≡ bytes_eq (string_bytes word.now) name.now }
{
    word.as_bytes() == name
}

/// Whether the words ask for all misfits of a kernel's trace.
fn is_all(words: &[String]) -> bool
    ensures { result ≡ is_all words.now }
{
    match words {
        [word, option] => is_word(word, b"linux") && is_word(option, b"--all"),
        _ => false,
    }
}

/// Whether the words ask for a script's play and the same without the hierarchy.
fn is_alone(words: &[String]) -> bool
    ensures { result ≡ is_alone words.now }
{
    match words {
        [word, option] => is_word(word, b"stat") && is_word(option, b"--alone"),
        _ => false,
    }
}

/// The form of what is counted that an option asks for.
fn form_in(option: &[u8]) -> Option<Form>
    ensures { result ≡ form_in option.now }
{
    if option == b"--rows".as_slice() {
        return Some(Form::Rows);
    }
    if option == b"--wakeups".as_slice() {
        return Some(Form::Wakeups);
    }
    None
}

/// The form of what is counted that the words ask for.
fn form_of(words: &[String]) -> Option<Form>
    ensures { result ≡ form_of words.now }
{
    match words {
        [word] if is_word(word, b"stat") => Some(Form::Columns),
        [word, option] if is_word(word, b"stat") => form_in(option.as_bytes()),
        _ => None,
    }
}

/// A command that counts in this form, which may be none.
fn stat_with(form: Option<Form>) -> Command
    ensures { result ≡ stat_with form }
{
    match form {
        Some(form) => Command::Stat(form),
        None => Command::Other,
    }
}

/// What words say that are none of a chart or of a trace of steps.
pub(crate) fn other_command(words: &[String]) -> Command
    ensures { result ≡ other_command words.now }
{
    if is_all(words) {
        return Command::All;
    }
    if is_alone(words) {
        return Command::Alone;
    }
    stat_with(form_of(words))
}

/// What the words behind `explain` say.
pub(crate) fn explain_with(words: &[String]) -> Command
    ensures { result ≡ explain_with words.now }
{
    match words {
        [] => Command::Explain,
        _ => Command::Other,
    }
}
