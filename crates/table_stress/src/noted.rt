//! Receipts, held against the journals.

use cpu_bases::{Act, Entry};
use idle_wakeup::{Core, Pass, Receipt};
use std::alloc::Global;
use tm_base::{CpuId, NoMemory};
use wheel_base::WheelBase;

/// The receipts of passes, in their order.
pub(crate) fn noted(alloc: Global, passes: &[Pass]) -> Result<Vec<Receipt>, NoMemory> {
    let mut all = Vec::new(alloc);
    for pass in passes {
        let receipts = pass.receipts();
        for i in 0..receipts.len() {
            if let Some(receipt) = receipts.get(i) {
                all.push(*receipt)?;
            }
        }
    }
    Ok(all)
}

/// The entry of a CPU's journal at a place, if there are such a CPU and place.
fn entry_at(core: &Core<WheelBase>, cpu: CpuId, place: usize) -> Option<Entry> {
    if cpu.0 >= core.count() {
        return None;
    }
    core.bases(cpu).journal().get(place).copied()
}

/// How many entries the journal of each CPU has.
pub(crate) fn lengths(alloc: Global, core: &Core<WheelBase>) -> Result<Vec<usize>, NoMemory> {
    let mut all = Vec::new(alloc);
    for cpu in 0..core.count() {
        all.push(core.bases(CpuId(cpu)).journal().len())?;
    }
    Ok(all)
}

/// Whether the entry that a receipt names is the receipt's, and is behind the first so many of its
/// journal.
fn is_new(core: &Core<WheelBase>, before: &[usize], receipt: &Receipt) -> bool {
    let Some(first) = before.get(usize::from(receipt.cpu.0)) else {
        return false;
    };
    *first <= receipt.place && entry_at(core, receipt.cpu, receipt.place) == Some(receipt.entry)
}

/// A place for each new entry of a CPU's journal, not marked.
fn no_marks(
    alloc: Global,
    core: &Core<WheelBase>,
    before: &[usize],
) -> Result<Vec<Vec<bool>>, NoMemory> {
    let mut all = Vec::new(alloc);
    for cpu in 0..core.count() {
        let first = before.get(usize::from(cpu)).copied().unwrap_or(0);
        let mut marks = Vec::new(alloc);
        for _entry in first..core.bases(CpuId(cpu)).journal().len() {
            marks.push(false)?;
        }
        all.push(marks)?;
    }
    Ok(all)
}

/// Marks the entry that a receipt names; false where it was marked, or there is no such entry.
fn mark(marks: &mut Vec<Vec<bool>>, before: &[usize], receipt: &Receipt) -> bool {
    let cpu = usize::from(receipt.cpu.0);
    let first = before.get(cpu).copied().unwrap_or(0);
    let place = receipt.place.saturating_sub(first);
    if cpu >= marks.len() || place >= marks[cpu].len() || marks[cpu][place] {
        return false;
    }
    marks[cpu][place] = true;
    true
}

/// Whether the receipts of a run are exactly its new entries, each once: those behind the first so
/// many of each CPU's journal.
pub(crate) fn are_new_entries(
    alloc: Global,
    core: &Core<WheelBase>,
    before: &[usize],
    receipts: &[Receipt],
) -> Result<bool, NoMemory> {
    let mut marks = no_marks(alloc, core, before)?;
    for receipt in receipts {
        if !is_new(core, before, receipt) || !mark(&mut marks, before, receipt) {
            return Ok(false);
        }
    }
    for of_cpu in marks.as_slice() {
        for is_marked in of_cpu.as_slice() {
            if !*is_marked {
                return Ok(false);
            }
        }
    }
    Ok(true)
}

/// How many receipts are of timers that went out for their jobs to run.
pub(crate) fn handed(receipts: &[Receipt]) -> u64 {
    let mut count = 0u64;
    for receipt in receipts {
        if receipt.entry.act == Act::Handed {
            count = count.saturating_add(1);
        }
    }
    count
}
