//! Draws episodes of four threads that share a table, and looks at what each of their runs leaves.
//! Its words are `SEED ROUNDS`: the first seed, and how many runs there are, several in an episode;
//! with no words it makes a few. Of a run that isn't as it has to be it writes the seed, which run
//! of its episode it is, what was found, and its turns; the word `SEED` alone makes that episode
//! again. At the end it writes how many runs there were; and with words, how often CPUs were
//! answered what.
#![tactic(auto)]

mod texts;

use crate::texts::{tell_broken, tell_tally};
use std::env;
use std::sync::Wait;
use std::thread::Threads;
use table_stress::{RUNS, Tally, episode};
use text_words::read_number;
use tm_base::NoMemory;

/// The first seed and how many runs there are, where no words say so.
const FEW: (u64, u64) = (0, 100);

/// The fault of an episode for which memory is wanting.
fn no_memory(_: NoMemory) -> anyhow::Error {
    anyhow::anyhow!("memory")
}

/// The number that a word spells.
fn spelled(word: &str) -> anyhow::Result<u64> {
    match read_number(word.as_bytes()) {
        Some(number) => Ok(number),
        None => anyhow::bail!("a word is no number"),
    }
}

/// The first seed, and how many runs there are; and whether words said so.
fn asked(rt: &HostRuntime) -> anyhow::Result<(u64, u64, bool)> {
    let words: Vec<String> = env::args(rt)?.skip(1).collect(rt.alloc())?;
    let (seed, rounds) = FEW;
    match words.as_slice() {
        [] => Ok((seed, rounds, false)),
        [seed] => Ok((spelled(seed)?, u64::from(RUNS), true)),
        [seed, rounds] => Ok((spelled(seed)?, spelled(rounds)?, true)),
        _ => anyhow::bail!("words: SEED ROUNDS"),
    }
}

fn main(rt: HostRuntime) -> anyhow::Result<()> {
    let (first, rounds, told) = asked(&rt)?;
    let each = u64::from(RUNS);
    let episodes = rounds.div_ceil(each);
    let mut tally = Tally::new();
    for place in 0..episodes {
        let seed = first.wrapping_add(place);
        match episode(&rt, rt.alloc(), seed).map_err(no_memory)? {
            Ok(answered) => tally = tally.with(answered),
            Err(broken) => {
                tell_broken(&rt, seed, &broken)?;
                anyhow::bail!("a run isn't as it has to be");
            },
        }
    }
    let made = episodes.saturating_mul(each);
    println!(&rt; "runs {made}")?;
    if told {
        tell_tally(&rt, &tally)?;
    }
    Ok(())
}
