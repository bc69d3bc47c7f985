//! What the program writes.

use table_stress::{Act, Broken, Flaw, Tally, Turn};

/// What was found, in words.
fn flaw_text(flaw: Flaw) -> &'static str {
    match flaw {
        Flaw::NotAtRest => "a walk or an interrupt is under way",
        Flaw::Behind => "a timer is behind the clock of its base",
        Flaw::NotCovered => "an idle CPU isn't answered for, or a group isn't as its CPUs are",
        Flaw::NotOnce =>
            "an arming has two ends, or a timer isn't queued where the journals say so",
        Flaw::Receipts => "receipts aren't exactly the new entries",
        Flaw::Runs => "as many timers didn't run as went out",
        Flaw::LeftDue => "something due is left where an interrupt ended last",
        Flaw::LeftOver => "something due is left after all interrupts",
        Flaw::Answers => "a CPU has no answer, or one that can't be",
    }
}

/// Writes a turn.
fn tell_turn(rt: &HostRuntime, turn: &Turn) -> anyhow::Result<()> {
    let cpu = turn.cpu.0;
    match turn.act {
        Act::Arm(asked) => {
            let timer = asked.timer.0;
            let class = asked.class.word();
            let delay = asked.delay;
            println!(rt;
                "cpu {cpu} arm {timer} {class} {delay} job {} {}",
                asked.job, asked.arg
            )?;
        },
        Act::Cancel { timer } => {
            let timer = timer.0;
            println!(rt; "cpu {cpu} cancel {timer}")?;
        },
        Act::Rest => println!(rt; "cpu {cpu} idle")?,
        Act::Wake => println!(rt; "cpu {cpu} wake")?,
        Act::Interrupt => println!(rt; "cpu {cpu} interrupt")?,
    }
    Ok(())
}

/// Writes which run isn't as it has to be, what was found, and its turns.
pub(crate) fn tell_broken(rt: &HostRuntime, seed: u64, broken: &Broken) -> anyhow::Result<()> {
    let run = broken.run;
    let flaw = flaw_text(broken.flaw);
    println!(rt; "seed {seed} run {run}: {flaw}")?;
    for turn in broken.turns.as_slice() {
        tell_turn(rt, turn)?;
    }
    Ok(())
}

/// Writes how often CPUs were answered what.
pub(crate) fn tell_tally(rt: &HostRuntime, tally: &Tally) -> anyhow::Result<()> {
    println!(rt; "armed {} queued {}", tally.armed, tally.queued)?;
    println!(rt; "cancelled {} nowhere {}", tally.cancelled, tally.nowhere)?;
    println!(rt;
        "idle {} stay {} wake {}",
        tally.rested, tally.stayed, tally.woken
    )?;
    println!(rt; "interrupts {} ran {}", tally.interrupted, tally.ran)?;
    println!(rt; "refused {}", tally.refused)?;
    Ok(())
}
