//! Timers from lines. `in 250 hello` puts one in, for 250 ticks from now, and prints its number;
//! `again 3 40` has timer 3 ask for 40 ticks from now, `cancel 3` takes it out, and `wait 100` lets
//! 100 ticks pass and prints what goes out.
#![tactic(auto)]

use timer_queue::{Key, TimerQueue};

/// The queue, the keys by the numbers that were printed, and the tick.
#[derive(Drop)]
struct Desk {
    queue: TimerQueue<String>,
    keys: Vec<Key>,
    now: u64,
}

/// The number that a word is.
fn number(word: &str) -> Option<u64> {
    word.parse().ok()
}

/// The key of a printed number.
fn key_of(desk: &Desk, word: &str) -> Option<Key> {
    let at = number(word)?;
    desk.keys.get(at as usize).copied()
}

/// Puts a timer in.
fn put(rt: &HostRuntime, desk: &mut Desk, delay: &str, text: &str) -> anyhow::Result<()> {
    let Some(ticks) = number(delay) else {
        println!(rt; "{delay} is no number")?;
        return Ok(());
    };
    let text = String::from_str(rt.alloc(), text)?;
    let key = desk.queue.insert(desk.now.saturating_add(ticks), text)?;
    println!(rt; "timer {}", desk.keys.len())?;
    desk.keys.push(key)?;
    Ok(())
}

/// Has a timer ask for another tick.
fn again(rt: &HostRuntime, desk: &mut Desk, word: &str, delay: &str) -> anyhow::Result<()> {
    let Some(key) = key_of(desk, word) else {
        println!(rt; "no timer {word}")?;
        return Ok(());
    };
    let Some(ticks) = number(delay) else {
        println!(rt; "{delay} is no number")?;
        return Ok(());
    };
    match desk.queue.reset(key, desk.now.saturating_add(ticks)) {
        Ok(()) => println!(rt; "timer {word} again")?,
        Err(error) => println!(rt; "timer {word}: {error}")?,
    }
    Ok(())
}

/// Takes a timer out.
fn cancel(rt: &HostRuntime, desk: &mut Desk, word: &str) -> anyhow::Result<()> {
    let Some(key) = key_of(desk, word) else {
        println!(rt; "no timer {word}")?;
        return Ok(());
    };
    match desk.queue.cancel(key) {
        Some(text) => println!(rt; "cancelled {text}")?,
        None => println!(rt; "timer {word} is gone")?,
    }
    Ok(())
}

/// Prints what is due.
fn print_due(rt: &HostRuntime, desk: &mut Desk) -> anyhow::Result<()> {
    for (key, expires, text) in desk.queue.due(desk.now) {
        println!(rt; "{expires}: {text} (timer {})", key.number())?;
    }
    Ok(())
}

/// Lets ticks pass.
fn wait(rt: &HostRuntime, desk: &mut Desk, delay: &str) -> anyhow::Result<()> {
    let Some(ticks) = number(delay) else {
        println!(rt; "{delay} is no number")?;
        return Ok(());
    };
    desk.now = desk.now.saturating_add(ticks);
    print_due(rt, desk)?;
    println!(rt; "it is {}, and {} wait", desk.now, desk.queue.len())?;
    Ok(())
}

/// Does what a line says.
fn obey(rt: &HostRuntime, desk: &mut Desk, line: &str) -> anyhow::Result<()> {
    let (word, rest) = line.split_once(' ').unwrap_or((line, ""));
    let (first, text) = rest.split_once(' ').unwrap_or((rest, ""));
    if word == "in" {
        put(rt, desk, first, text)
    } else if word == "again" {
        again(rt, desk, first, text)
    } else if word == "cancel" {
        cancel(rt, desk, rest)
    } else if word == "wait" {
        wait(rt, desk, rest)
    } else {
        println!(rt; "what is {word}?")?;
        Ok(())
    }
}

fn main(rt: HostRuntime) -> anyhow::Result<()> {
    let mut desk = Desk {
        queue: TimerQueue::with_capacity(rt.alloc(), 16)?,
        keys: Vec::new(rt.alloc()),
        now: 0,
    };
    for line in rt.lines(rt.alloc()) {
        obey(&rt, &mut desk, line?.as_str())?;
    }
    Ok(())
}
