//! The words of the command line.

ghost use Rattle.std.specs.Prelude.{◌≡◌, ◌≤◌, IfSome};
ghost use Rattle.program_texts.specs.Words.{IsRecipe, form_of, lone_command, program_command_of};
ghost use Rattle.program_texts.specs.Words.{making_command, number_within, recipe_in, recipe_of};

use crate::inputs::Form;
use text_words::read_number;
use tm_base::{MOST_CPUS_V1, MOST_TIMERS};
use tm_generate::MOST_MOMENTS;

/// The greatest number that a script is generated from.
pub const MOST_NUMBER: u32 = u32::MAX;

/// What a script is generated from.
#[derive(Clone, Copy)]
pub struct Recipe {
    /// The number from which the draws start.
    pub number: u32,
    /// How many CPUs there are.
    pub cpus: u8,
    /// How many timers there are.
    pub timers: u16,
    /// How many moments of one operation there are.
    pub moments: u16,
}

/// What the program is told to do.
#[derive(Clone, Copy)]
pub enum Command {
    /// Writes the report of the play of a script that is read.
    Play,
    /// Writes the report of a run by threads of a script that is read.
    Run,
    /// Writes the tree of the machine of a script that is read.
    Tree,
    /// Writes a generated script.
    Generate(Recipe),
    /// Plays a generated script, and writes what that came to.
    Day(Recipe),
    /// Tells whether a trace that is read is a run of the core's steps, and who answers for timers.
    Check,
    /// Writes the report of the play of a script that is read, under one broadcast device.
    Deep,
    /// Writes what comes of a script of works that is read.
    Works,
}

impl Command {
    /// The recipe of the script, where the command generates one; None where it reads one.
    pub fn recipe(self) -> Option<Recipe>
        ensures { result ≡ recipe_in self }
    {
        match self {
            Command::Play | Command::Run | Command::Tree => None,
            Command::Check | Command::Deep | Command::Works => None,
            Command::Generate(recipe) | Command::Day(recipe) => Some(recipe),
        }
    }

    /// What the command works on.
    pub fn form(self) -> Form
        ensures { result ≡ form_of self }
    {
        match self {
            Command::Play | Command::Run | Command::Tree | Command::Deep => Form::Script,
            Command::Generate(_) | Command::Day(_) => Form::Script,
            Command::Check => Form::Trace,
            Command::Works => Form::Works,
        }
    }
}

/// The number that a word spells, where it is within these limits.
#[tactic(auto, unfolding(crate::specs::Words::number_within))]
fn number_within(word: &[u8], least: u64, most: u64) -> Option<u64>
    ensures value { result ≡ number_within least most word.now }
    ensures least { IfSome result (λ n. least ≤ n) }
    ensures most { IfSome result (λ n. n ≤ most) }
{
    let number = read_number(word)?;
    if least <= number && number <= most {
        Some(number)
    } else {
        None
    }
}

/// What the four words say from which a script is generated.
#[tactic(auto, unfolding(crate::specs::Words::recipe_of))]
fn read_recipe(number: &[u8], cpus: &[u8], timers: &[u8], moments: &[u8]) -> Option<Recipe>
    ensures value { result ≡ recipe_of number.now cpus.now timers.now moments.now }
    ensures limits { IfSome result IsRecipe }
{
    let number = number_within(number, 0, u64::from(MOST_NUMBER))?;
    let cpus = number_within(cpus, 1, u64::from(MOST_CPUS_V1))?;
    let timers = number_within(timers, 1, u64::from(MOST_TIMERS))?;
    let moments = number_within(moments, 1, u64::from(MOST_MOMENTS))?;
    Some(Recipe {
        number: number as u32,
        cpus: cpus as u8,
        timers: timers as u16,
        moments: moments as u16,
    })
}

/// The command of one word.
fn lone_command(word: &[u8]) -> Option<Command>
    ensures value { result ≡ lone_command word.now }
    ensures reads { IfSome result (λ command. recipe_in command ≡ None) }
{
    if word == b"play".as_slice() {
        Some(Command::Play)
    } else if word == b"run".as_slice() {
        Some(Command::Run)
    } else if word == b"tree".as_slice() {
        Some(Command::Tree)
    } else if word == b"check".as_slice() {
        Some(Command::Check)
    } else if word == b"deep".as_slice() {
        Some(Command::Deep)
    } else if word == b"works".as_slice() {
        Some(Command::Works)
    } else {
        None
    }
}

/// The command of a word and a recipe.
fn making_command(word: &[u8], recipe: Recipe) -> Option<Command>
    ensures value { result ≡ making_command word.now recipe }
    ensures makes { IfSome result (λ command. recipe_in command ≡ Some recipe) }
{
    if word == b"generate".as_slice() {
        Some(Command::Generate(recipe))
    } else if word == b"day".as_slice() {
        Some(Command::Day(recipe))
    } else {
        None
    }
}

/// The command that the words name, where they stand in the table; what it is to generate a script
/// from is within the limits of `generate`.
pub fn read_command(words: &[String]) -> Option<Command>
    ensures value { result ≡ program_command_of words.now }
    ensures limits { IfSome result (λ command. IfSome (recipe_in command) IsRecipe) }
{
    match words {
        [word] => lone_command(word.as_bytes()),
        [word, number, cpus, timers, moments] => {
            let recipe = read_recipe(
                number.as_bytes(),
                cpus.as_bytes(),
                timers.as_bytes(),
                moments.as_bytes(),
            )?;
            making_command(word.as_bytes(), recipe)
        }
        _ => None,
    }
}
