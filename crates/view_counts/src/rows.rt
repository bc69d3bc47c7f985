//! What was counted, in rows of words and numbers.

ghost use Rattle.std.specs.Prelude.{◌≡◌, ◌++◌, IfOk, OnOk, codes};
ghost use Rattle.view_counts.specs.Rows.{both, counts_text, cpu_row, cpu_rows, field_text};
ghost use Rattle.view_counts.specs.Rows.{rows_text, runs_text, times_text, total, wakeups_text};

use crate::counts::{CpuCounts, no_counts};
use std::alloc::Global;
use text_words::{push_bytes, push_number};
use tm_base::{Jiffy, NoMemory};

/// A word with its number.
pub(crate) fn push_field(text: &mut Vec<u8>, word: &[u8], n: u64) -> Result<(), NoMemory>
    ensures { OnOk result (text.new.items ≡ text.old.items ++ field_text word.now n) }
{
    push_bytes(text, word)?;
    push_number(text, n)?;
    Ok(())
}

/// How long a CPU was what.
#[tactic(auto, using(crate::proofs::Joined::onto), unfolding(crate::specs::Rows::times_text))]
fn push_times(text: &mut Vec<u8>, counts: CpuCounts) -> Result<(), NoMemory>
    ensures { OnOk result (text.new.items ≡ text.old.items ++ times_text counts) }
{
    push_field(text, b" awake ", counts.awake)?;
    push_field(text, b" asleep ", counts.asleep)?;
    push_field(text, b" offline ", counts.offline)?;
    push_field(text, b" longest ", counts.longest)
}

/// How often it woke, and what for.
#[tactic(auto, using(crate::proofs::Joined::onto), unfolding(crate::specs::Rows::wakeups_text))]
fn push_wakeups(text: &mut Vec<u8>, counts: CpuCounts) -> Result<(), NoMemory>
    ensures { OnOk result (text.new.items ≡ text.old.items ++ wakeups_text counts) }
{
    push_field(text, b" wakeups ", counts.wakeups)?;
    push_field(text, b" pinned ", counts.pinned)?;
    push_field(text, b" global ", counts.global)?;
    push_field(text, b" others ", counts.others)?;
    push_field(text, b" deferrable ", counts.deferrable)?;
    push_field(text, b" nothing ", counts.nothing)
}

/// Whose timers it ran, who ran its own, and how long it was migrator.
#[tactic(auto, using(crate::proofs::Joined::onto), unfolding(crate::specs::Rows::runs_text))]
fn push_runs(text: &mut Vec<u8>, counts: CpuCounts) -> Result<(), NoMemory>
    ensures { OnOk result (text.new.items ≡ text.old.items ++ runs_text counts) }
{
    push_field(text, b" runs_for ", counts.runs_for)?;
    push_field(text, b" runs_by ", counts.runs_by)?;
    push_field(text, b" migrator ", counts.migrator)?;
    push_bytes(text, b"\n")?;
    Ok(())
}

/// All that was counted of a CPU.
#[tactic(auto, using(crate::proofs::Joined::onto))]
fn push_counts(text: &mut Vec<u8>, counts: CpuCounts) -> Result<(), NoMemory>
    ensures { OnOk result (text.new.items ≡ text.old.items ++ counts_text counts) }
{
    push_times(text, counts)?;
    push_wakeups(text, counts)?;
    push_runs(text, counts)
}

/// The row of a CPU.
#[tactic(auto, using(crate::proofs::Joined::onto))]
fn push_cpu(text: &mut Vec<u8>, cpu: usize, counts: CpuCounts) -> Result<(), NoMemory>
    ensures { OnOk result (text.new.items ≡ text.old.items ++ cpu_row cpu counts) }
{
    push_field(text, b"cpu ", cpu as u64)?;
    push_counts(text, counts)
}

/// The rows of all CPUs.
#[tactic(auto, using(std::proofs::lemmas::List::append_assoc), unfolding(crate::specs::Rows::cpu_rows))]
fn push_cpus(text: &mut Vec<u8>, cpus: &[CpuCounts]) -> Result<(), NoMemory>
    ensures { OnOk result (text.new.items ≡ text.old.items ++ cpu_rows 0 cpus.now) }
{
    for (cpu, counts) in cpus.iter().enumerate() {
        push_cpu(text, cpu, *counts)?;
    }
    Ok(())
}

/// What was counted of two together.
fn both(a: CpuCounts, b: CpuCounts) -> CpuCounts
    ensures { result ≡ both a b }
{
    CpuCounts {
        awake: a.awake.saturating_add(b.awake),
        asleep: a.asleep.saturating_add(b.asleep),
        offline: a.offline.saturating_add(b.offline),
        sleep: 0,
        longest: a.longest.max(b.longest),
        wakeups: a.wakeups.saturating_add(b.wakeups),
        pinned: a.pinned.saturating_add(b.pinned),
        global: a.global.saturating_add(b.global),
        others: a.others.saturating_add(b.others),
        deferrable: a.deferrable.saturating_add(b.deferrable),
        nothing: a.nothing.saturating_add(b.nothing),
        runs_for: a.runs_for.saturating_add(b.runs_for),
        runs_by: a.runs_by.saturating_add(b.runs_by),
        migrator: a.migrator.saturating_add(b.migrator),
    }
}

/// What was counted of all.
pub fn total(cpus: &[CpuCounts]) -> CpuCounts
    ensures { result ≡ total cpus.now }
{
    let mut all = no_counts();
    for counts in cpus {
        all = both(all, *counts);
    }
    all
}

/// The row of all CPUs, and the end.
#[tactic(auto, using(crate::proofs::Joined::onto))]
fn push_last(text: &mut Vec<u8>, end: Jiffy, cpus: &[CpuCounts]) -> Result<(), NoMemory>
    ensures { OnOk result (text.new.items ≡ text.old.items
        ++ ((codes "all" ++ counts_text (total cpus.now))
        ++ (field_text (codes "end ") end ++ codes "\n"))) }
{
    push_bytes(text, b"all")?;
    push_counts(text, total(cpus))?;
    push_field(text, b"end ", end)?;
    push_bytes(text, b"\n")?;
    Ok(())
}

/// What was counted in a play that ended there, for scripts: a row for each CPU, one for all, and
/// the end.
#[tactic(auto, using(crate::proofs::Joined::onto), unfolding(crate::specs::Rows::rows_text))]
pub fn print_rows(alloc: Global, end: Jiffy, cpus: &[CpuCounts]) -> Result<Vec<u8>, NoMemory>
    ensures { IfOk result (λ text. text.items ≡ rows_text end cpus.now) }
{
    let mut text = Vec::new(alloc);
    push_cpus(&mut text, cpus)?;
    push_last(&mut text, end, cpus)?;
    Ok(text)
}
