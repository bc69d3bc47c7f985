//! How wide the columns of a page are, and where each is.

ghost use Rattle.std.specs.Prelude.{◌≡◌, ◌+◌, ◌*◌, ◌<◌, ◌≤◌, ◌==◌, length, unwrap_or};
ghost use Rattle.std.specs.List.{position};
ghost use Rattle.page_rows.specs.Sheets.{column_of, place_at, place_for, sheet_of};

use crate::rows::{GAP, LABEL};

/// A column has at least so many characters, as far as the page is wide.
pub const LEAST: u16 = 20;

/// The columns of a page.
#[derive(Clone, Copy)]
pub struct Sheet {
    /// How many there are, at least 1. Where more CPUs make steps the last one is that of all CPUs
    /// from there on.
    pub columns: u16,
    /// How many characters each has.
    pub width: u16,
    /// How many characters they have together.
    pub across: u16,
}

/// Where a text stands.
#[derive(Clone, Copy)]
pub struct Place {
    /// Behind so many characters.
    pub indent: u64,
    /// Within so many.
    pub width: u64,
    /// Whether several CPUs have that place.
    pub shared: bool,
}

/// The columns of a page that is so many characters wide, on which so many CPUs make steps.
pub fn sheet_of(page: u16, count: u16) -> Sheet
    ensures { result ≡ sheet_of page count }
{
    let across = page.saturating_sub(LABEL).max(LEAST);
    let columns = count.min(across / LEAST).max(1);
    Sheet {
        columns,
        width: across / columns,
        across,
    }
}

/// Where a CPU stands in a list.
fn position_of(cpus: &[u16], cpu: u16) -> Option<usize>
    ensures { result ≡ position (λ c. c == cpu) cpus.now }
{
    cpus.iter().position(|c| *c == cpu)
}

/// Where a CPU stands in a list, and 0 where it doesn't.
fn index_of(cpus: &[u16], cpu: u16) -> usize
    ensures { result ≡ unwrap_or (position (λ c. c == cpu) cpus.now) 0 }
{
    position_of(cpus, cpu).unwrap_or(0)
}

/// The number of a CPU's column, from 0.
fn column_of(cpus: &[u16], columns: u16, cpu: u16) -> u16
    ensures { result ≡ column_of cpus.now columns cpu }
{
    index_of(cpus, cpu).min(usize::from(columns.saturating_sub(1))) as u16
}

/// The place that is a column.
fn place_at(sheet: Sheet, count: usize, column: u16) -> Place
    ensures { result ≡ place_at sheet count column }
{
    Place {
        indent: u64::from(LABEL) + u64::from(column) * u64::from(sheet.width),
        width: u64::from(sheet.width.saturating_sub(GAP)),
        shared: usize::from(sheet.columns) < count
            && u32::from(column) + 1 == u32::from(sheet.columns),
    }
}

/// The place of what a CPU does, and of what no CPU does: across all columns.
pub fn place_for(sheet: Sheet, cpus: &[u16], actor: Option<u16>) -> Place
    ensures { result ≡ place_for sheet cpus.now actor }
{
    match actor {
        Some(cpu) => place_at(sheet, cpus.len(), column_of(cpus, sheet.columns, cpu)),
        None => Place {
            indent: u64::from(LABEL),
            width: u64::from(sheet.across),
            shared: true,
        },
    }
}
