//! The first line.

ghost use Rattle.std.specs.Prelude.{◌≡◌, ◌-◌, ◌++◌, IfOk, OnOk, length, replicate, take};
ghost use Rattle.page_rows.specs.Sheets.{head_of, heading, heads_from, others_text};
ghost use Rattle.page_rows.specs.declared.rows.TheConstants.{SPACE};

use crate::rows::{LABEL, count_of, push_spaces, push_words};
use crate::sheets::Sheet;
use std::alloc::Global;
use text_words::push_number;
use tm_base::NoMemory;

/// The name of a CPU.
#[tactic(auto, using(std::proofs::lemmas::List::append_assoc))]
pub fn head_of(alloc: Global, cpu: u16) -> Result<Vec<u8>, NoMemory>
    ensures { IfOk result (λ text. text.items ≡ head_of cpu) }
{
    let mut text = Vec::new(alloc);
    push_words(&mut text, b"CPU ")?;
    push_number(&mut text, u64::from(cpu))?;
    Ok(text)
}

/// The name of a CPU behind so many spaces, and how many stand behind it before the next.
#[tactic(auto, using(std::proofs::lemmas::List::append_assoc))]
fn push_head(
    alloc: Global,
    text: &mut Vec<u8>,
    width: u64,
    gap: u64,
    cpu: u16,
) -> Result<u64, NoMemory>
    ensures text { OnOk result
        (text.new.items ≡ text.old.items ++ (replicate gap SPACE ++ head_of cpu)) }
    ensures next { IfOk result (λ next. next ≡ width - length (head_of cpu)) }
{
    let name = head_of(alloc, cpu)?;
    push_spaces(text, gap)?;
    push_words(text, &name)?;
    Ok(width.saturating_sub(count_of(&name)))
}

/// The names of CPUs.
fn push_heads(
    alloc: Global,
    text: &mut Vec<u8>,
    width: u64,
    first: u64,
    cpus: &[u16],
) -> Result<(), NoMemory>
    ensures { OnOk result (text.new.items ≡ text.old.items ++ heads_from width first cpus.now) }
{
    let mut gap = first;
    for cpu in cpus {
        gap = push_head(alloc, text, width, gap, *cpu)?;
    }
    Ok(())
}

/// The first of these CPUs.
fn firsts(cpus: &[u16], count: u16) -> &[u16]
    ensures { result.now ≡ take count cpus.now }
{
    &cpus[..cpus.len().min(usize::from(count))]
}

/// What ends the first line.
fn others_text(sheet: Sheet, count: usize) -> &'static [u8]
    ensures { result.now ≡ others_text sheet count }
{
    if usize::from(sheet.columns) < count {
        b" and others\n"
    } else {
        b"\n"
    }
}

/// The first line: whose each column is.
#[tactic(auto, using(std::proofs::lemmas::List::append_assoc), unfolding(crate::specs::Sheets::heading))]
pub fn push_heading(
    alloc: Global,
    text: &mut Vec<u8>,
    sheet: Sheet,
    cpus: &[u16],
) -> Result<(), NoMemory>
    ensures { OnOk result (text.new.items ≡ text.old.items ++ heading sheet cpus.now) }
{
    push_words(text, b"step")?;
    push_heads(
        alloc,
        text,
        u64::from(sheet.width),
        u64::from(LABEL - 4),
        firsts(cpus, sheet.columns),
    )?;
    push_words(text, others_text(sheet, cpus.len()))?;
    Ok(())
}
