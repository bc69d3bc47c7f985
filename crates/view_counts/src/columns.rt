//! What was counted, in columns.

ghost use Rattle.std.specs.Prelude.{◌≡◌, ◌++◌, IfOk, OnOk};
ghost use Rattle.std.specs.Fmt.{decimal};
ghost use Rattle.view_counts.specs.Columns.{cell, columns_text, cpu_lines, heading, line_of, right};
ghost use Rattle.view_counts.specs.Columns.{run_cells, share, time_cells, wakeup_cells, whole};

use crate::counts::CpuCounts;
use crate::rows::total;
use std::alloc::Global;
use text_words::{push_bytes, push_number};
use tm_base::NoMemory;

/// How wide a number's column is, apart from the space in front.
pub const CELL: u8 = 8;

/// How wide the column of CPUs is.
pub const LABEL: u8 = 3;

/// The byte between columns.
pub const SPACE: u8 = b' ';

/// What stands above the columns.
pub(crate) fn heading() -> &'static [u8]
    ensures { result.now ≡ heading }
{
    b"CPU    awake   asleep  offline   asleep  longest  wakeups   pinned   global   others   defer.  nothing  ran for   ran by migrator\n     jiffies  jiffies  jiffies  percent  jiffies\n"
}

/// A text at the right end of so many columns.
pub(crate) fn push_right(text: &mut Vec<u8>, width: u8, piece: &[u8]) -> Result<(), NoMemory>
    ensures { OnOk result (text.new.items ≡ text.old.items ++ right width piece.now) }
{
    let gap = usize::from(width).saturating_sub(piece.len());
    let wide = text.len() + gap;
    text.resize(wide, SPACE)?;
    push_bytes(text, piece)?;
    Ok(())
}

/// A number in its column.
#[tactic(auto, using(crate::proofs::Joined::onto))]
fn push_cell(alloc: Global, text: &mut Vec<u8>, n: u64) -> Result<(), NoMemory>
    ensures { OnOk result (text.new.items ≡ text.old.items ++ cell n) }
{
    let mut digits = Vec::new(alloc);
    push_number(&mut digits, n)?;
    push_bytes(text, b" ")?;
    push_right(text, CELL, &digits)
}

/// How long all was.
fn whole(counts: CpuCounts) -> u64
    ensures { result ≡ whole counts }
{
    counts
        .awake
        .saturating_add(counts.asleep)
        .saturating_add(counts.offline)
}

/// Of a hundred parts of that time so many asleep.
pub(crate) fn share(counts: CpuCounts) -> u64
    ensures { result ≡ share counts }
{
    let whole = whole(counts);
    if whole == 0 {
        return 0;
    }
    counts.asleep.saturating_mul(100) / whole
}

/// How long a CPU was what.
#[tactic(auto, using(crate::proofs::Joined::onto), unfolding(crate::specs::Columns::time_cells))]
fn push_times(alloc: Global, text: &mut Vec<u8>, counts: CpuCounts) -> Result<(), NoMemory>
    ensures { OnOk result (text.new.items ≡ text.old.items ++ time_cells counts) }
{
    push_cell(alloc, text, counts.awake)?;
    push_cell(alloc, text, counts.asleep)?;
    push_cell(alloc, text, counts.offline)?;
    push_cell(alloc, text, share(counts))?;
    push_cell(alloc, text, counts.longest)
}

/// How often it woke, and what for.
#[tactic(auto, using(crate::proofs::Joined::onto), unfolding(crate::specs::Columns::wakeup_cells))]
fn push_wakeups(alloc: Global, text: &mut Vec<u8>, counts: CpuCounts) -> Result<(), NoMemory>
    ensures { OnOk result (text.new.items ≡ text.old.items ++ wakeup_cells counts) }
{
    push_cell(alloc, text, counts.wakeups)?;
    push_cell(alloc, text, counts.pinned)?;
    push_cell(alloc, text, counts.global)?;
    push_cell(alloc, text, counts.others)?;
    push_cell(alloc, text, counts.deferrable)?;
    push_cell(alloc, text, counts.nothing)
}

/// Whose timers it ran, who ran its own, and how long it was migrator.
#[tactic(auto, using(crate::proofs::Joined::onto), unfolding(crate::specs::Columns::run_cells))]
fn push_runs(alloc: Global, text: &mut Vec<u8>, counts: CpuCounts) -> Result<(), NoMemory>
    ensures { OnOk result (text.new.items ≡ text.old.items ++ run_cells counts) }
{
    push_cell(alloc, text, counts.runs_for)?;
    push_cell(alloc, text, counts.runs_by)?;
    push_cell(alloc, text, counts.migrator)?;
    push_bytes(text, b"\n")?;
    Ok(())
}

/// The line of a CPU, or of all.
#[tactic(auto, using(crate::proofs::Joined::onto))]
fn push_line(
    alloc: Global,
    text: &mut Vec<u8>,
    label: &[u8],
    counts: CpuCounts,
) -> Result<(), NoMemory>
    ensures { OnOk result (text.new.items ≡ text.old.items ++ line_of label.now counts) }
{
    push_right(text, LABEL, label)?;
    push_times(alloc, text, counts)?;
    push_wakeups(alloc, text, counts)?;
    push_runs(alloc, text, counts)
}

/// The line of a CPU.
fn push_cpu(
    alloc: Global,
    text: &mut Vec<u8>,
    cpu: usize,
    counts: CpuCounts,
) -> Result<(), NoMemory>
    ensures { OnOk result (text.new.items ≡ text.old.items ++ line_of (decimal cpu) counts) }
{
    let mut label = Vec::new(alloc);
    push_number(&mut label, cpu as u64)?;
    push_line(alloc, text, &label, counts)
}

/// The lines of all CPUs.
#[tactic(auto, using(std::proofs::lemmas::List::append_assoc), unfolding(crate::specs::Columns::cpu_lines))]
fn push_cpus(alloc: Global, text: &mut Vec<u8>, cpus: &[CpuCounts]) -> Result<(), NoMemory>
    ensures { OnOk result (text.new.items ≡ text.old.items ++ cpu_lines 0 cpus.now) }
{
    for (cpu, counts) in cpus.iter().enumerate() {
        push_cpu(alloc, text, cpu, *counts)?;
    }
    Ok(())
}

/// What was counted in a play, for people: a heading, a line for each CPU, and one for all.
#[tactic(auto, using(crate::proofs::Joined::onto), unfolding(crate::specs::Columns::columns_text))]
pub fn print_columns(alloc: Global, cpus: &[CpuCounts]) -> Result<Vec<u8>, NoMemory>
    ensures { IfOk result (λ text. text.items ≡ columns_text cpus.now) }
{
    let mut text = Vec::new(alloc);
    push_bytes(&mut text, heading())?;
    push_cpus(alloc, &mut text, cpus)?;
    push_line(alloc, &mut text, b"all", total(cpus))?;
    Ok(text)
}
