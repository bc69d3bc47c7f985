//! The words of a command.

ghost use Rattle.std.specs.Prelude.{◌≡◌, ◌<◌, ◌==◌, IfSome, length};
ghost use Rattle.std.specs.List.{position};
ghost use Rattle.text_words.specs.Numbers.{number_of};
ghost use Rattle.view_main.specs.Words.{awaiting, both, chart_with, chosen, command_of, cpu_in};
ghost use Rattle.view_main.specs.Words.{cpus_in, first_options, look_of, looking, option_in};
ghost use Rattle.view_main.specs.Words.{options_from, take_word, with_cpus, with_from};
ghost use Rattle.view_main.specs.Words.{with_option, with_to};

use crate::forms::{explain_with, is_word, other_command};
use text_words::read_number;
use tm_base::CpuId;
use view_chart::Choice;
use view_stat::Form;

/// CPUs have numbers below this.
pub const CPU_NUMBERS: u64 = 65_536;

/// The byte between two CPUs.
pub const HYPHEN: u8 = b'-';

/// What a word of `chart` has to give.
#[derive(Clone, Copy)]
pub enum Awaited {
    /// Nothing: an option may come.
    Nothing,
    /// The first jiffy.
    From,
    /// The last jiffy.
    To,
    /// The first and the last CPU.
    Cpus,
}

/// How a report is drawn.
#[derive(Clone, Copy)]
pub struct Look {
    /// What of it is.
    pub choice: Choice,
    /// As text, for a terminal.
    pub text: bool,
    /// With who answers for idle CPUs.
    pub covers: bool,
}

/// What the words of `chart` have given so far.
#[derive(Clone, Copy)]
pub struct Options {
    pub look: Look,
    pub awaited: Awaited,
}

/// What the program's words say.
#[derive(Clone, Copy)]
pub enum Command {
    /// A report is drawn.
    Chart(Look),
    /// A trace of steps is told.
    Explain,
    /// All misfits of a kernel's trace are told.
    All,
    /// What happens in a script's play is counted, in this form.
    Stat(Form),
    /// .. and in the play of the same script without the hierarchy.
    Alone,
    /// The words are those of a kernel's trace, or no command.
    Other,
}

/// The number of a CPU.
fn cpu_in(word: &[u8]) -> Option<CpuId>
    ensures { result ≡ cpu_in word.now }
{
    let Some(number) = read_number(word) else {
        return None;
    };
    if number < CPU_NUMBERS {
        Some(CpuId(number as u16))
    } else {
        None
    }
}

/// Where the first hyphen of a word stands.
fn hyphen_in(word: &[u8]) -> Option<usize>
    ensures at { result ≡ position (λ b. b == HYPHEN) word.now }
    ensures within { IfSome result (λ at. at < length word.now) }
{
    word.iter().position(|b| *b == HYPHEN)
}

/// Two CPUs, if there are two.
fn both(first: Option<CpuId>, last: Option<CpuId>) -> Option<(CpuId, CpuId)>
    ensures { result ≡ both first last }
{
    let Some(first) = first else {
        return None;
    };
    let Some(last) = last else {
        return None;
    };
    Some((first, last))
}

/// Two CPUs with a hyphen between them.
fn cpus_in(word: &[u8]) -> Option<(CpuId, CpuId)>
    ensures { result ≡ cpus_in word.now }
{
    let Some(at) = hyphen_in(word) else {
        return None;
    };
    both(cpu_in(&word[..at]), cpu_in(&word[at + 1..]))
}

/// What a word awaits behind it, if it is an option.
fn option_in(word: &[u8]) -> Option<Awaited>
    ensures { result ≡ option_in word.now }
{
    if word == b"--from".as_slice() {
        return Some(Awaited::From);
    }
    if word == b"--to".as_slice() {
        return Some(Awaited::To);
    }
    if word == b"--cpus".as_slice() {
        return Some(Awaited::Cpus);
    }
    None
}

/// The first jiffy is chosen by a word.
fn with_from(choice: Choice, word: &[u8]) -> Option<Choice>
    ensures { result ≡ with_from choice (number_of word.now) }
{
    match read_number(word) {
        Some(number) => Some(Choice {
            from: Some(number),
            ..choice
        }),
        None => None,
    }
}

/// The last jiffy is.
fn with_to(choice: Choice, word: &[u8]) -> Option<Choice>
    ensures { result ≡ with_to choice (number_of word.now) }
{
    match read_number(word) {
        Some(number) => Some(Choice {
            to: Some(number),
            ..choice
        }),
        None => None,
    }
}

/// The CPUs are.
fn with_cpus(choice: Choice, word: &[u8]) -> Option<Choice>
    ensures { result ≡ with_cpus choice (cpus_in word.now) }
{
    match cpus_in(word) {
        Some(cpus) => Some(Choice {
            cpus: Some(cpus),
            ..choice
        }),
        None => None,
    }
}

/// Options with another choice, of which an option's word comes next.
fn chosen(look: Look, choice: Option<Choice>) -> Option<Options>
    ensures { result ≡ chosen look choice }
{
    match choice {
        Some(choice) => Some(Options {
            look: Look { choice, ..look },
            awaited: Awaited::Nothing,
        }),
        None => None,
    }
}

/// Options that await what this option does.
fn awaiting(options: Options, awaited: Option<Awaited>) -> Option<Options>
    ensures { result ≡ awaiting options awaited }
{
    match awaited {
        Some(awaited) => Some(Options {
            look: options.look,
            awaited,
        }),
        None => None,
    }
}

/// Options with a look.
fn looking(look: Look) -> Options
    ensures { result ≡ looking look }
{
    Options {
        look,
        awaited: Awaited::Nothing,
    }
}

/// Options with an option's word.
fn with_option(options: Options, word: &[u8]) -> Option<Options>
    ensures { result ≡ with_option options word.now }
{
    let look = options.look;
    if word == b"--text".as_slice() {
        return Some(looking(Look { text: true, ..look }));
    }
    if word == b"--covers".as_slice() {
        return Some(looking(Look {
            covers: true,
            ..look
        }));
    }
    awaiting(options, option_in(word))
}

/// Options with one more word, if it may stand there.
fn take_word(options: Options, word: &[u8]) -> Option<Options>
    ensures { result ≡ take_word options word.now }
{
    match options.awaited {
        Awaited::Nothing => with_option(options, word),
        Awaited::From => chosen(options.look, with_from(options.look.choice, word)),
        Awaited::To => chosen(options.look, with_to(options.look.choice, word)),
        Awaited::Cpus => chosen(options.look, with_cpus(options.look.choice, word)),
    }
}

/// What options choose, if nothing is awaited any more.
fn look_of(options: Options) -> Option<Look>
    ensures { result ≡ look_of options }
{
    match options.awaited {
        Awaited::Nothing => Some(options.look),
        Awaited::From => None,
        Awaited::To => None,
        Awaited::Cpus => None,
    }
}

/// What the words behind `chart` choose.
fn read_options(words: &[String]) -> Option<Look>
    ensures { result ≡ options_from first_options words.now }
{
    let mut options = Options {
        look: Look {
            choice: Choice {
                from: None,
                to: None,
                cpus: None,
            },
            text: false,
            covers: false,
        },
        awaited: Awaited::Nothing,
    };
    for word in words {
        match take_word(options, word.as_bytes()) {
            Some(more) => options = more,
            None => return None,
        }
    }
    look_of(options)
}

/// A command of these options.
fn chart_with(look: Option<Look>) -> Command
    ensures { result ≡ chart_with look }
{
    match look {
        Some(look) => Command::Chart(look),
        None => Command::Other,
    }
}

/// What the program's words say.
pub(crate) fn command_of(words: &[String]) -> Command
    ensures { result ≡ command_of words.now }
{
    if words.is_empty() {
        return Command::Other;
    }
    if is_word(&words[0], b"chart") {
        return chart_with(read_options(&words[1..]));
    }
    if is_word(&words[0], b"explain") {
        return explain_with(&words[1..]);
    }
    other_command(words)
}
