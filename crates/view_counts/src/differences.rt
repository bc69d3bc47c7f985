//! Two plays compared, in columns.

ghost use Rattle.std.specs.Prelude.{◌≡◌, ◌++◌, IfOk, OnOk, length, max};
ghost use Rattle.std.specs.Fmt.{decimal};
ghost use Rattle.view_counts.specs.Differences.{comparison_text, counts_at, difference_line};
ghost use Rattle.view_counts.specs.Differences.{difference_lines, difference_text};
ghost use Rattle.view_counts.specs.Differences.{run_differences, signed_cell, signed_text};
ghost use Rattle.view_counts.specs.Differences.{time_differences, wakeup_differences};

use crate::columns::{CELL, LABEL, heading, print_columns, push_right, share};
use crate::counts::{CpuCounts, no_counts};
use crate::rows::total;
use std::alloc::Global;
use text_words::{push_bytes, push_number};
use tm_base::NoMemory;

/// By how much the second number differs from the first, with its sign.
fn push_signed(text: &mut Vec<u8>, one: u64, two: u64) -> Result<(), NoMemory>
    ensures { OnOk result (text.new.items ≡ text.old.items ++ signed_text one two) }
{
    if one < two {
        return push_more(text, b"+", two - one);
    }
    if two < one {
        return push_more(text, b"-", one - two);
    }
    push_bytes(text, b"0")?;
    Ok(())
}

/// A number behind its sign.
#[tactic(auto, using(crate::proofs::Joined::onto))]
fn push_more(text: &mut Vec<u8>, sign: &[u8], number: u64) -> Result<(), NoMemory>
    ensures { OnOk result (text.new.items ≡ text.old.items ++ (sign.now ++ decimal number)) }
{
    push_bytes(text, sign)?;
    push_number(text, number)?;
    Ok(())
}

/// A difference in its column.
#[tactic(auto, using(crate::proofs::Joined::onto))]
fn push_cell(alloc: Global, text: &mut Vec<u8>, one: u64, two: u64) -> Result<(), NoMemory>
    ensures { OnOk result (text.new.items ≡ text.old.items ++ signed_cell one two) }
{
    let mut digits = Vec::new(alloc);
    push_signed(&mut digits, one, two)?;
    push_bytes(text, b" ")?;
    push_right(text, CELL, &digits)
}

/// How long a CPU was what.
#[tactic(auto, using(crate::proofs::Joined::onto), unfolding(crate::specs::Differences::time_differences))]
fn push_times(
    alloc: Global,
    text: &mut Vec<u8>,
    one: CpuCounts,
    two: CpuCounts,
) -> Result<(), NoMemory>
    ensures { OnOk result (text.new.items ≡ text.old.items ++ time_differences one two) }
{
    push_cell(alloc, text, one.awake, two.awake)?;
    push_cell(alloc, text, one.asleep, two.asleep)?;
    push_cell(alloc, text, one.offline, two.offline)?;
    push_cell(alloc, text, share(one), share(two))?;
    push_cell(alloc, text, one.longest, two.longest)
}

/// How often it woke, and what for.
#[tactic(auto, using(crate::proofs::Joined::onto), unfolding(crate::specs::Differences::wakeup_differences))]
fn push_wakeups(
    alloc: Global,
    text: &mut Vec<u8>,
    one: CpuCounts,
    two: CpuCounts,
) -> Result<(), NoMemory>
    ensures { OnOk result (text.new.items ≡ text.old.items ++ wakeup_differences one two) }
{
    push_cell(alloc, text, one.wakeups, two.wakeups)?;
    push_cell(alloc, text, one.pinned, two.pinned)?;
    push_cell(alloc, text, one.global, two.global)?;
    push_cell(alloc, text, one.others, two.others)?;
    push_cell(alloc, text, one.deferrable, two.deferrable)?;
    push_cell(alloc, text, one.nothing, two.nothing)
}

/// Whose timers it ran, who ran its own, and how long it was migrator.
#[tactic(auto, using(crate::proofs::Joined::onto), unfolding(crate::specs::Differences::run_differences))]
fn push_runs(
    alloc: Global,
    text: &mut Vec<u8>,
    one: CpuCounts,
    two: CpuCounts,
) -> Result<(), NoMemory>
    ensures { OnOk result (text.new.items ≡ text.old.items ++ run_differences one two) }
{
    push_cell(alloc, text, one.runs_for, two.runs_for)?;
    push_cell(alloc, text, one.runs_by, two.runs_by)?;
    push_cell(alloc, text, one.migrator, two.migrator)?;
    push_bytes(text, b"\n")?;
    Ok(())
}

/// The line of a CPU, or of all.
#[tactic(auto, using(crate::proofs::Joined::onto))]
fn push_line(
    alloc: Global,
    text: &mut Vec<u8>,
    label: &[u8],
    one: CpuCounts,
    two: CpuCounts,
) -> Result<(), NoMemory>
    ensures { OnOk result (text.new.items ≡ text.old.items ++ difference_line label.now one two) }
{
    push_right(text, LABEL, label)?;
    push_times(alloc, text, one, two)?;
    push_wakeups(alloc, text, one, two)?;
    push_runs(alloc, text, one, two)
}

/// What was counted of a CPU; of one that there isn't nothing.
fn counts_at(cpus: &[CpuCounts], cpu: usize) -> CpuCounts
    ensures { result ≡ counts_at cpus.now cpu }
{
    if cpu < cpus.len() {
        cpus[cpu]
    } else {
        no_counts()
    }
}

/// The line of a CPU.
fn push_cpu(
    alloc: Global,
    text: &mut Vec<u8>,
    cpu: usize,
    ones: &[CpuCounts],
    twos: &[CpuCounts],
) -> Result<(), NoMemory>
    ensures { OnOk result (text.new.items ≡ text.old.items
        ++ difference_line (decimal cpu) (counts_at ones.now cpu) (counts_at twos.now cpu)) }
{
    let mut label = Vec::new(alloc);
    push_number(&mut label, cpu as u64)?;
    push_line(
        alloc,
        text,
        &label,
        counts_at(ones, cpu),
        counts_at(twos, cpu),
    )
}

/// The lines of all CPUs.
fn push_cpus(
    alloc: Global,
    text: &mut Vec<u8>,
    ones: &[CpuCounts],
    twos: &[CpuCounts],
) -> Result<(), NoMemory>
    ensures { OnOk result (text.new.items ≡ text.old.items
        ++ difference_lines (max (length ones.now) (length twos.now)) 0 ones.now twos.now) }
{
    let count = ones.len().max(twos.len());
    for cpu in 0..count {
        push_cpu(alloc, text, cpu, ones, twos)?;
    }
    Ok(())
}

/// By how much what was counted in the second play differs.
#[tactic(auto, using(crate::proofs::Joined::onto), unfolding(crate::specs::Differences::difference_text))]
fn push_difference(
    alloc: Global,
    text: &mut Vec<u8>,
    ones: &[CpuCounts],
    twos: &[CpuCounts],
) -> Result<(), NoMemory>
    ensures { OnOk result (text.new.items ≡ text.old.items ++ difference_text ones.now twos.now) }
{
    push_bytes(text, heading())?;
    push_cpus(alloc, text, ones, twos)?;
    push_line(alloc, text, b"all", total(ones), total(twos))
}

/// What was counted in one play, in another, and by how much the other differs.
#[tactic(auto, using(crate::proofs::Joined::onto), unfolding(crate::specs::Differences::comparison_text))]
pub fn print_comparison(
    alloc: Global,
    one: &[u8],
    two: &[u8],
    less: &[u8],
    ones: &[CpuCounts],
    twos: &[CpuCounts],
) -> Result<Vec<u8>, NoMemory>
    ensures { IfOk result (λ text. text.items ≡
        comparison_text (record { one = one.now; two = two.now; less = less.now })
        ones.now twos.now) }
{
    let mut text = Vec::new(alloc);
    push_bytes(&mut text, one)?;
    push_bytes(&mut text, &print_columns(alloc, ones)?)?;
    push_bytes(&mut text, two)?;
    push_bytes(&mut text, &print_columns(alloc, twos)?)?;
    push_bytes(&mut text, less)?;
    push_difference(alloc, &mut text, ones, twos)?;
    Ok(text)
}
