//! Writing the text of a day.

ghost use Rattle.std.specs.Prelude.{◌≡◌, map, IfOk};
ghost use Rattle.program_texts.specs.Entries.{entry_line};
ghost use Rattle.program_replies.specs.DayText.Days.{day_lines, day_text};

use program_texts::{Entry, push_entries};
use run_moments::Summary;
use std::alloc::Global;
use tm_base::NoMemory;

/// The numbers of a summary, in the order of their lines.
fn entries(summary: &Summary) -> [Entry; 11]
    ensures { map entry_line result ≡ day_lines summary.now }
{
    [
        (b"moments", u64::from(summary.moments)),
        (b"runs", u64::from(summary.runs)),
        (b"remote", u64::from(summary.remote)),
        (b"armed", u64::from(summary.armed)),
        (b"cancels", u64::from(summary.cancels)),
        (b"idles", u64::from(summary.idles)),
        (b"stays", u64::from(summary.stays)),
        (b"wakes", u64::from(summary.wakes)),
        (b"refused", u64::from(summary.refused)),
        (b"left", u64::from(summary.left)),
        (b"end", summary.end),
    ]
}

/// The text of a day, a line for each number of its summary. The only error is want of memory.
#[tactic(auto, unfolding(crate::specs::DayText::Days::day_text))]
pub fn print_day(alloc: Global, summary: &Summary) -> Result<Vec<u8>, NoMemory>
    ensures { IfOk result (λ text. text.items ≡ day_text summary.now) }
{
    let mut text = Vec::new(alloc);
    push_entries(&mut text, &entries(summary))?;
    Ok(text)
}
