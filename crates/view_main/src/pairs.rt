//! Two scripts: the words that name them, and what is written of them.

ghost use Rattle.std.specs.Prelude.{◌≡◌, ◌++◌, IfOk, Some, string_bytes};
ghost use Rattle.tm_script.specs.Faults.{fault_of};
ghost use Rattle.tm_script.specs.Grammar.{IsScript};
ghost use Rattle.view_stat.specs.Comparing.{IsPairTold};
ghost use Rattle.view_main.specs.Pairs.{IsPairCounting, IsPairOutput, IsRefused};
ghost use Rattle.view_main.specs.Pairs.{IsSecondCounting};
ghost use Rattle.view_main.specs.Pairs.{IsSecondOutput, RunsPair, excess_line, is_named};
ghost use Rattle.view_main.specs.Refusals.{script_text};
ghost use Rattle.view_main.specs.Pairs.{is_pair, name_of, unread_line};

use crate::forms::is_word;
use crate::outputs::Output;
use crate::program::{output_of, write_output};
use crate::refusals::script_refused;
use linux_view::{MOST_TRACE_BYTES, NO_MEMORY, NO_TRACE, READ_FAULT, TOO_LONG};
use std::alloc::Global;
use text_words::push_bytes;
use tm_base::NoMemory;
use tm_io::{ReadFault, Sink, Source, read_all};
use tm_script::{ReadScript, Script, ScriptFault, read_script};
use view_stat::tell_pair;

/// Which of two scripts.
#[derive(Clone, Copy)]
pub enum Which {
    First,
    Second,
}

/// Whether a word names a file: it doesn't begin as an option does.
fn is_named(word: &String) -> bool
    ensures { result ≡ is_named (string_bytes word.now) }
{
    !word.as_bytes().starts_with(b"--")
}

/// Whether the words are `stat` and the names of two files.
pub fn is_pair(words: &[String]) -> bool
    ensures { result ≡ is_pair words.now }
{
    match words {
        [word, one, two] => is_word(word, b"stat") && is_named(one) && is_named(two),
        _ => false,
    }
}

/// What stands in front of what is told of a script.
fn name_of(which: Which) -> &'static [u8]
    ensures { result.now ≡ name_of which }
{
    match which {
        Which::First => b"script 1: ",
        Which::Second => b"script 2: ",
    }
}

/// That a script could not be read.
fn unread_line(which: Which) -> &'static [u8]
    ensures { result.now ≡ unread_line which }
{
    match which {
        Which::First => b"tmigview: script 1 could not be read\n",
        Which::Second => b"tmigview: script 2 could not be read\n",
    }
}

/// That a script has too many bytes.
fn excess_line(which: Which) -> &'static [u8]
    ensures { result.now ≡ excess_line which }
{
    match which {
        Which::First => b"tmigview: script 1 has more than 67108864 bytes\n",
        Which::Second => b"tmigview: script 2 has more than 67108864 bytes\n",
    }
}

/// The text where one of the scripts is none.
#[tactic(auto, using(crate::proofs::Joined::onto))]
fn refused_text(
    alloc: Global,
    which: Which,
    bytes: &[u8],
    fault: ScriptFault,
) -> Result<Vec<u8>, NoMemory>
    ensures { IfOk result (λ text. text.items ≡ name_of which ++ script_text bytes.now fault) }
{
    let told = script_refused(alloc, bytes, fault)?;
    let mut text = Vec::new(alloc);
    push_bytes(&mut text, name_of(which))?;
    push_bytes(&mut text, &told)?;
    Ok(text)
}

/// The output there.
fn refused(
    alloc: Global,
    which: Which,
    bytes: &[u8],
    fault: ScriptFault,
) -> Result<Output, NoMemory>
    requires { fault_of bytes.now ≡ Some fault }
    ensures { IfOk result (λ o. IsRefused which bytes.now o.text.items o.status) }
{
    Ok(Output {
        text: refused_text(alloc, which, bytes, fault)?,
        status: NO_TRACE,
    })
}

/// What is written of two scripts.
fn count_scripts(alloc: Global, one: &Script, two: &Script) -> Result<Output, NoMemory>
    requires one { IsScript one.now }
    requires two { IsScript two.now }
    ensures { IfOk result (λ o. IsPairTold one.now two.now o.text.items o.status) }
{
    let told = tell_pair(alloc, one, two)?;
    Ok(Output {
        text: told.text,
        status: told.status,
    })
}

/// What is written of a script and of the bytes of another one.
fn count_second(alloc: Global, one: &Script, bytes: &[u8]) -> Result<Output, NoMemory>
    requires { IsScript one.now }
    ensures { IfOk result (λ o. IsSecondCounting one.now bytes.now o.text.items o.status) }
{
    match read_script(alloc, bytes) {
        Ok(two) => count_scripts(alloc, one, &two),
        Err(ReadScript::Refused(fault)) => refused(alloc, Which::Second, bytes, fault),
        Err(ReadScript::NoMemory) => Err(NoMemory),
    }
}

/// What is written of the bytes of two scripts.
fn count_pair(alloc: Global, ones: &[u8], twos: &[u8]) -> Result<Output, NoMemory>
    ensures { IfOk result (λ o. IsPairCounting ones.now twos.now o.text.items o.status) }
{
    match read_script(alloc, ones) {
        Ok(one) => count_second(alloc, &one, twos),
        Err(ReadScript::Refused(fault)) => refused(alloc, Which::First, ones, fault),
        Err(ReadScript::NoMemory) => Err(NoMemory),
    }
}

/// What is written of the bytes of a first script and of the source of a second one, which is read
/// to its end.
fn second_output<T: Source>(alloc: Global, ones: &[u8], second: &mut T) -> Result<Output, NoMemory>
    ensures { IfOk result (λ o. IsSecondOutput ones.now
        (T.seen second.old) (T.seen second.new) o.text.items o.status) }
{
    match read_all(alloc, second, MOST_TRACE_BYTES) {
        Ok(twos) => count_pair(alloc, ones, &twos),
        Err(ReadFault::Read) => output_of(alloc, unread_line(Which::Second), READ_FAULT),
        Err(ReadFault::TooLong) => output_of(alloc, excess_line(Which::Second), TOO_LONG),
        Err(ReadFault::NoMemory) => Err(NoMemory),
    }
}

/// What is written of the sources of two scripts: the first is read to its end, and then the second.
fn pair_output<S: Source, T: Source>(
    alloc: Global,
    first: &mut S,
    second: &mut T,
) -> Result<Output, NoMemory>
    ensures { IfOk result (λ o. IsPairOutput (S.seen first.old) (S.seen first.new)
        (T.seen second.old) (T.seen second.new) o.text.items o.status) }
{
    match read_all(alloc, first, MOST_TRACE_BYTES) {
        Ok(ones) => second_output(alloc, &ones, second),
        Err(ReadFault::Read) => output_of(alloc, unread_line(Which::First), READ_FAULT),
        Err(ReadFault::TooLong) => output_of(alloc, excess_line(Which::First), TOO_LONG),
        Err(ReadFault::NoMemory) => Err(NoMemory),
    }
}

/// Does what the words `stat SCRIPT1 SCRIPT2` ask for, where the sources give the two scripts: what
/// happens in both plays is counted, and both counts and by how much the second differs are
/// written, or which of the two is no script, and why. The second source is read only where the
/// first was. Answers the exit status.
pub fn run_pair<S: Source, T: Source, K: Sink>(
    alloc: Global,
    first: &mut S,
    second: &mut T,
    sink: &mut K,
) -> u8
    ensures { RunsPair (S.seen first.old) (S.seen first.new)
        (T.seen second.old) (T.seen second.new) (K.seen sink.old) (K.seen sink.new) result }
{
    match pair_output(alloc, first, second) {
        Ok(output) => write_output(sink, &output),
        Err(_) => NO_MEMORY,
    }
}
