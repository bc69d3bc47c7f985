//! What tmigview writes only where there is something to say.

ghost use Rattle.std.specs.Prelude.{◌≡◌, ◌++◌, OnOk};
ghost use Rattle.linux_view.specs.Notes.{asleep_note, clock_note, count_text, lost_note, notes_text};
ghost use Rattle.linux_view.specs.Notes.{past_text, run_notes_text, unknown_note, walk_note};

use linux_all::{Open, Tally};
use linux_runs::Runs;
use text_words::{push_bytes, push_number};
use tm_base::{CpuId, NoMemory};

/// A number behind these bytes.
#[tactic(auto, using(std::proofs::lemmas::List::append_assoc), unfolding(crate::specs::Notes::count_text))]
pub fn push_count(text: &mut Vec<u8>, before: &[u8], n: u64) -> Result<(), NoMemory>
    ensures { OnOk result (text.new.items ≡ text.old.items ++ count_text before.now n) }
{
    push_bytes(text, before)?;
    push_number(text, n)?;
    Ok(())
}

/// Lines that don't count, since what some CPUs wrote then was overwritten.
#[tactic(auto, using(std::proofs::lemmas::List::append_assoc), unfolding(crate::specs::Notes::lost_note))]
fn push_lost(text: &mut Vec<u8>, lost: u64) -> Result<(), NoMemory>
    ensures { OnOk result (text.new.items ≡ text.old.items ++ lost_note lost) }
{
    if lost != 0 {
        push_count(text, b"lost: ", lost)?;
        push_bytes(
            text,
            b" lines, which stand before the start of a CPU's buffer\n",
        )?;
    }
    Ok(())
}

/// Events of timer migration that aren't known.
#[tactic(auto, using(std::proofs::lemmas::List::append_assoc), unfolding(crate::specs::Notes::unknown_note))]
fn push_unknown(text: &mut Vec<u8>, tally: Tally) -> Result<(), NoMemory>
    ensures { OnOk result (text.new.items ≡ text.old.items ++ unknown_note tally) }
{
    if tally.unknown != 0 {
        push_count(text, b"unknown: ", tally.unknown)?;
        push_count(
            text,
            b" events of timer migration, the first of them on line ",
            tally.unknown_at,
        )?;
        push_bytes(text, b"\n")?;
    }
    Ok(())
}

/// Whose walk is open at the end, and since which line there was no rest.
#[tactic(auto, using(std::proofs::lemmas::List::append_assoc), unfolding(crate::specs::Notes::walk_note))]
fn push_walk(text: &mut Vec<u8>, walker: Option<CpuId>, rested: u64) -> Result<(), NoMemory>
    ensures { OnOk result (text.new.items ≡ text.old.items ++ walk_note walker rested) }
{
    if let Some(cpu) = walker {
        push_count(text, b"walk: CPU ", u64::from(cpu.0))?;
        push_count(
            text,
            b" is in the middle of one, and there was no rest since line ",
            rested,
        )?;
        push_bytes(text, b"\n")?;
    }
    Ok(())
}

/// How many of the expiries that CPUs tell as they fall asleep are past.
#[tactic(auto, using(std::proofs::lemmas::List::append_assoc), unfolding(crate::specs::Notes::past_text))]
fn push_past(text: &mut Vec<u8>, runs: Runs) -> Result<(), NoMemory>
    ensures { OnOk result (text.new.items ≡ text.old.items ++ past_text runs) }
{
    push_count(text, b"clock: ", runs.past)?;
    push_count(text, b" of ", runs.told)?;
    push_bytes(
        text,
        b" expiries told at tmigr_cpu_idle were past by then, so the trace clock isn't mono\n",
    )?;
    Ok(())
}

/// Most of the expiries that CPUs tell as they fall asleep are past.
#[tactic(auto, using(std::proofs::lemmas::List::append_assoc), unfolding(crate::specs::Notes::clock_note))]
fn push_clock(text: &mut Vec<u8>, runs: Runs) -> Result<(), NoMemory>
    ensures { OnOk result (text.new.items ≡ text.old.items ++ clock_note runs) }
{
    if runs.told / 2 < runs.past {
        push_past(text, runs)?;
    }
    Ok(())
}

/// Walks that ended at a group that was asleep by then (`tmigr_inactive_up`).
#[tactic(auto, using(std::proofs::lemmas::List::append_assoc), unfolding(crate::specs::Notes::asleep_note))]
fn push_asleep(text: &mut Vec<u8>, runs: Runs) -> Result<(), NoMemory>
    ensures { OnOk result (text.new.items ≡ text.old.items ++ asleep_note runs) }
{
    if runs.stopped != 0 {
        push_count(text, b"tmigr_inactive_up: ", runs.stopped)?;
        push_bytes(
            text,
            b" walks ended at a group that their update found asleep\n",
        )?;
    }
    Ok(())
}

/// The notes on runs.
#[tactic(auto, using(std::proofs::lemmas::List::append_assoc), unfolding(crate::specs::Notes::run_notes_text))]
fn push_run_notes(text: &mut Vec<u8>, runs: Runs) -> Result<(), NoMemory>
    ensures { OnOk result (text.new.items ≡ text.old.items ++ run_notes_text runs) }
{
    push_clock(text, runs)?;
    push_asleep(text, runs)?;
    Ok(())
}

/// All notes.
#[tactic(auto, using(std::proofs::lemmas::List::append_assoc), unfolding(crate::specs::Notes::notes_text))]
pub fn push_notes(text: &mut Vec<u8>, tally: Tally, ends: Open) -> Result<(), NoMemory>
    ensures { OnOk result (text.new.items ≡ text.old.items ++ notes_text tally ends) }
{
    push_lost(text, tally.lost)?;
    push_unknown(text, tally)?;
    push_walk(text, ends.walker, tally.rested)?;
    push_run_notes(text, tally.runs)?;
    Ok(())
}
