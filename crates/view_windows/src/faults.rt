//! Why what is chosen of a report can't be drawn.

ghost use Rattle.std.specs.Prelude.{◌≡◌, ◌++◌, IfOk, OnOk};
ghost use Rattle.std.specs.Fmt.{decimal};
ghost use Rattle.view_windows.specs.Windows.{cpus_fault, everything, jiffies_fault};
ghost use Rattle.view_windows.specs.Windows.{highest_cpu, refused_window, window_fault};
ghost use Rattle.view_windows.specs.Windows.{window_text};

use std::alloc::Global;
use text_words::{push_bytes, push_number};
use tm_base::{CpuId, Jiffy, NoMemory};
use tm_report::Line;
use view_chart::{Choice, window_of};

/// Why what is chosen of a report can't be drawn.
#[derive(Clone, Copy)]
pub enum WindowFault {
    /// The report has no line.
    NoLine,
    /// It would begin behind its end, both in jiffies.
    BeginsBehind { from: Jiffy, to: Jiffy },
    /// The first CPU is behind the last.
    CpusFall { first: CpuId, last: CpuId },
    /// The last CPU is behind the highest that the report names.
    NoSuchCpu { last: CpuId, highest: CpuId },
}

/// The choice of a whole report.
fn everything() -> Choice
    ensures { result ≡ everything }
{
    Choice {
        from: None,
        to: None,
        cpus: None,
    }
}

/// The highest CPU that a report names.
fn highest_cpu(lines: &[Line]) -> CpuId
    ensures { result ≡ highest_cpu lines.now }
{
    window_of(everything(), lines).last
}

/// What is wrong with CPUs that are chosen.
fn cpus_fault(cpus: (CpuId, CpuId), highest: CpuId) -> Option<WindowFault>
    ensures { result ≡ cpus_fault cpus highest }
{
    let (first, last) = cpus;
    if last.0 < first.0 {
        return Some(WindowFault::CpusFall { first, last });
    }
    if highest.0 < last.0 {
        return Some(WindowFault::NoSuchCpu { last, highest });
    }
    None
}

/// What is wrong with the jiffy at which a chart is to begin.
fn jiffies_fault(from: Option<Jiffy>, to: Jiffy) -> Option<WindowFault>
    ensures { result ≡ jiffies_fault from to }
{
    let Some(from) = from else {
        return None;
    };
    if to < from {
        return Some(WindowFault::BeginsBehind { from, to });
    }
    None
}

/// Why what is chosen of a report can't be drawn, where it can't: the report has no line, the chart
/// would begin behind its end, its first CPU is behind its last, or the report names no such CPU.
/// It costs two walks over the lines.
pub fn window_fault(choice: Choice, lines: &[Line]) -> Option<WindowFault>
    ensures { result ≡ window_fault choice lines.now }
{
    if lines.is_empty() {
        return Some(WindowFault::NoLine);
    }
    if let Some(fault) = jiffies_fault(choice.from, window_of(choice, lines).to) {
        return Some(fault);
    }
    let Some(cpus) = choice.cpus else {
        return None;
    };
    cpus_fault(cpus, highest_cpu(lines))
}

/// Two numbers, each behind a piece.
#[tactic(auto, using(std::proofs::lemmas::List::append_assoc))]
fn push_two(text: &mut Vec<u8>, front: &[u8], m: u64, middle: &[u8], n: u64) -> Result<(), NoMemory>
    ensures { OnOk result (text.new.items
        ≡ text.old.items ++ (front.now ++ (decimal m ++ (middle.now ++ decimal n)))) }
{
    push_bytes(text, front)?;
    push_number(text, m)?;
    push_bytes(text, middle)?;
    push_number(text, n)?;
    Ok(())
}

/// Bytes behind a text.
fn push_words(text: &mut Vec<u8>, words: &[u8]) -> Result<(), NoMemory>
    ensures { OnOk result (text.new.items ≡ text.old.items ++ words.now) }
{
    push_bytes(text, words)?;
    Ok(())
}

/// What is wrong.
fn push_fault(text: &mut Vec<u8>, fault: WindowFault) -> Result<(), NoMemory>
    ensures { OnOk result (text.new.items ≡ text.old.items ++ window_text fault) }
{
    match fault {
        WindowFault::NoLine => push_words(text, b"the report has no line"),
        WindowFault::BeginsBehind { from, to } => {
            push_two(
                text,
                b"it would begin at jiffy ",
                from,
                b", behind its end at ",
                to,
            )
        }
        WindowFault::CpusFall { first, last } => push_two(
            text,
            b"the first CPU, ",
            u64::from(first.0),
            b", is behind the last, ",
            u64::from(last.0),
        ),
        WindowFault::NoSuchCpu { last, highest } => push_two(
            text,
            b"the report names no CPU ",
            u64::from(last.0),
            b"; the highest is ",
            u64::from(highest.0),
        ),
    }
}

/// The text where a chart can't be drawn. The only error is want of memory.
#[tactic(auto, using(std::proofs::lemmas::List::append_assoc), unfolding(crate::specs::Windows::refused_window))]
pub fn window_refused(alloc: Global, fault: WindowFault) -> Result<Vec<u8>, NoMemory>
    ensures { IfOk result (λ text. text.items ≡ refused_window fault) }
{
    let mut text = Vec::new(alloc);
    push_words(&mut text, b"chart refused: ")?;
    push_fault(&mut text, fault)?;
    push_words(&mut text, b"\n")?;
    Ok(text)
}
