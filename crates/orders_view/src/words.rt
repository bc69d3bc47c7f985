//! The words of the command.

ghost use Rattle.std.specs.Prelude.{◌≡◌, string_bytes};
ghost use Rattle.std.specs.Str.{bytes_eq};
ghost use Rattle.text_words.specs.Numbers.{number_of};
ghost use Rattle.orders_view.specs.Words.{asked_in, asked_of, awaiting, first_options, once};
ghost use Rattle.orders_view.specs.Words.{option_in, options_from, rule_or, states_or, take_word};
ghost use Rattle.orders_view.specs.Words.{with_rule, with_show, with_states};
ghost use Rattle.orders_threads.specs.Names.{rule_of};

use orders_threads::rule_of;
use orders_try::Rule;
use text_words::read_number;

/// So many states are met at most where the words don't say how many.
pub const MOST_STATES: u64 = 1_000_000;

/// What the next word has to give.
#[derive(Clone, Copy)]
pub enum Awaited {
    /// Nothing: an option may come.
    Nothing,
    /// The name of a rule.
    RuleName,
    /// The number of an end.
    EndNumber,
    /// How many states are met at most.
    StateCount,
}

/// What the words have given so far.
#[derive(Clone, Copy)]
pub struct Options {
    pub rule: Option<Rule>,
    /// The number of an end, from 1.
    pub show: Option<u64>,
    /// How many states are met at most.
    pub states: Option<u64>,
    pub awaited: Awaited,
}

/// What the words ask for.
#[derive(Clone, Copy)]
pub struct Asked {
    /// The rule of the walks.
    pub rule: Rule,
    /// The number, from 1, of the end of which an order is shown; None where all ends are told.
    pub show: Option<u64>,
    /// How many states are met at most.
    pub states: u64,
}

/// An option's word awaits this, where the option didn't come before.
fn once(came: bool, awaited: Awaited) -> Option<Awaited>
    ensures { result ≡ once came awaited }
{
    if came { None } else { Some(awaited) }
}

/// What a word awaits behind it, if it is an option that may still come.
fn option_in(options: Options, word: &[u8]) -> Option<Awaited>
    ensures { result ≡ option_in options word.now }
{
    if word == b"--rule".as_slice() {
        return once(options.rule.is_some(), Awaited::RuleName);
    }
    if word == b"--show".as_slice() {
        return once(options.show.is_some(), Awaited::EndNumber);
    }
    if word == b"--states".as_slice() {
        return once(options.states.is_some(), Awaited::StateCount);
    }
    None
}

/// Options that await this.
fn awaiting(options: Options, awaited: Option<Awaited>) -> Option<Options>
    ensures { result ≡ awaiting options awaited }
{
    match awaited {
        Some(awaited) => Some(Options { awaited, ..options }),
        None => None,
    }
}

/// The rule is chosen by its name.
fn with_rule(options: Options, word: &[u8]) -> Option<Options>
    ensures { result ≡ with_rule options (rule_of word.now) }
{
    match rule_of(word) {
        Some(rule) => Some(Options {
            rule: Some(rule),
            awaited: Awaited::Nothing,
            ..options
        }),
        None => None,
    }
}

/// The end is chosen by its number.
fn with_show(options: Options, word: &[u8]) -> Option<Options>
    ensures { result ≡ with_show options (number_of word.now) }
{
    match read_number(word) {
        Some(number) => Some(Options {
            show: Some(number),
            awaited: Awaited::Nothing,
            ..options
        }),
        None => None,
    }
}

/// The limit of states is chosen.
fn with_states(options: Options, word: &[u8]) -> Option<Options>
    ensures { result ≡ with_states options (number_of word.now) }
{
    match read_number(word) {
        Some(number) => Some(Options {
            states: Some(number),
            awaited: Awaited::Nothing,
            ..options
        }),
        None => None,
    }
}

/// Options with one more word, if it may stand there.
fn take_word(options: Options, word: &[u8]) -> Option<Options>
    ensures { result ≡ take_word options word.now }
{
    match options.awaited {
        Awaited::Nothing => awaiting(options, option_in(options, word)),
        Awaited::RuleName => with_rule(options, word),
        Awaited::EndNumber => with_show(options, word),
        Awaited::StateCount => with_states(options, word),
    }
}

/// The rule, which is tmig's own where none is chosen.
fn rule_or(rule: Option<Rule>) -> Rule
    ensures { result ≡ rule_or rule }
{
    match rule {
        Some(rule) => rule,
        None => Rule::Tmig,
    }
}

/// The limit of states.
fn states_or(states: Option<u64>) -> u64
    ensures { result ≡ states_or states }
{
    match states {
        Some(states) => states,
        None => MOST_STATES,
    }
}

/// What options ask for, if nothing is awaited any more.
fn asked_of(options: Options) -> Option<Asked>
    ensures { result ≡ asked_of options }
{
    match options.awaited {
        Awaited::Nothing => Some(Asked {
            rule: rule_or(options.rule),
            show: options.show,
            states: states_or(options.states),
        }),
        Awaited::RuleName => None,
        Awaited::EndNumber => None,
        Awaited::StateCount => None,
    }
}

/// What the words behind `orders` ask for.
fn read_options(words: &[String]) -> Option<Asked>
    ensures { result ≡ options_from first_options words.now }
{
    let mut options = Options {
        rule: None,
        show: None,
        states: None,
        awaited: Awaited::Nothing,
    };
    for word in words {
        match take_word(options, word.as_bytes()) {
            Some(more) => options = more,
            None => return None,
        }
    }
    asked_of(options)
}

/// Whether a word is this one.
fn is_word(word: &String, name: &[u8]) -> bool
    ensures { result ≡ bytes_eq (string_bytes word.now) name.now }
{
    word.as_bytes() == name
}

/// What the words of the command ask for; None where they aren't such.
pub(crate) fn asked_in(words: &[String]) -> Option<Asked>
    ensures { result ≡ asked_in words.now }
{
    if words.is_empty() {
        return None;
    }
    if is_word(&words[0], b"orders") {
        return read_options(&words[1..]);
    }
    None
}
