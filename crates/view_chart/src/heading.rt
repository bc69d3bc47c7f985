//! What stands at the head of a picture: its size, its title and what it shows, in words, and how
//! bars, arrows and notes look.

ghost use Rattle.std.specs.Prelude.{◌≡◌, ◌++◌, OnOk};
ghost use Rattle.view_chart.specs.Heading.{frame_text, head_of_arrow, numbers_text, size_text};
ghost use Rattle.view_chart.specs.Heading.{style_text, summary_text, title_text};

use crate::model::Window;
use crate::pieces::{push_two, push_words};
use tm_base::NoMemory;

/// The size of a picture, and where it begins.
#[tactic(auto, using(crate::proofs::Joined::onto), unfolding(crate::specs::Heading::frame_text))]
fn push_frame(text: &mut Vec<u8>, width: u64, height: u64) -> Result<(), NoMemory>
    ensures { OnOk result (text.new.items ≡ text.old.items ++ frame_text width height) }
{
    push_two(text, b" width=\"", width, b"ex\" height=\"", height)?;
    push_two(text, b"ex\" viewBox=\"-10 -4 ", width, b" ", height)?;
    Ok(())
}

/// What begins a picture of this size.
#[tactic(auto, using(crate::proofs::Joined::onto), unfolding(crate::specs::Heading::size_text))]
pub(crate) fn push_size(text: &mut Vec<u8>, width: u64, height: u64) -> Result<(), NoMemory>
    ensures { OnOk result (text.new.items ≡ text.old.items ++ size_text width height) }
{
    push_words(
        text,
        b"<svg xmlns=\"http://www.w3.org/2000/svg\" role=\"img\"",
    )?;
    push_frame(text, width, height)?;
    push_words(text, b"\">\n")?;
    Ok(())
}

/// What the numbers of notes are, in words, if there are notes.
fn push_numbers(text: &mut Vec<u8>, covers: bool) -> Result<(), NoMemory>
    ensures { OnOk result (text.new.items ≡ text.old.items ++ numbers_text covers) }
{
    if covers {
        return push_words(
            text,
            b" A number below a CPU that sleeps: the CPU that answers for its timers.",
        );
    }
    Ok(())
}

/// What a picture shows, in words.
#[tactic(auto, using(crate::proofs::Joined::onto), unfolding(crate::specs::Heading::summary_text))]
fn push_summary(text: &mut Vec<u8>, covers: bool) -> Result<(), NoMemory>
    ensures { OnOk result (text.new.items ≡ text.old.items ++ summary_text covers) }
{
    push_words(
        text,
        b"</title>\n<desc>A row for each CPU, time from left to right, long rests folded. ",
    )?;
    push_words(
        text,
        b"Thick bar: awake; thin line: asleep; dots: offline. ",
    )?;
    push_words(
        text,
        b"An arrow goes from a timer's home, with a dot, to the CPU that ran it.",
    )?;
    push_numbers(text, covers)?;
    push_words(text, b"</desc>\n")?;
    Ok(())
}

/// How bars and arrows look, on a light page and on a dark one.
#[tactic(auto, using(crate::proofs::Joined::onto), unfolding(crate::specs::Heading::style_text))]
fn push_style(text: &mut Vec<u8>) -> Result<(), NoMemory>
    ensures { OnOk result (text.new.items ≡ text.old.items ++ style_text) }
{
    push_words(
        text,
        b"<style>text{font:1.4px sans-serif;fill:#222}.c{text-anchor:end}",
    )?;
    push_words(
        text,
        b"path{fill:none;stroke:#444}.a{stroke-width:.8;stroke:#999}.s{stroke-width:.15}",
    )?;
    push_words(
        text,
        b".o{stroke-width:.15;stroke-dasharray:.2 .6}.n text{font-size:1.2px}\
          .r,.w{stroke-width:.2;stroke:#000;marker-end:url(#h)}.r{marker-start:url(#d)}",
    )?;
    push_words(
        text,
        b".h{fill:#000;stroke:none}@media(prefers-color-scheme:dark){text{fill:#ddd}\
          path{stroke:#aaa}.a{stroke:#777}.r,.w{stroke:#fff}.h{fill:#fff}}</style>\n",
    )?;
    Ok(())
}

/// The head of an arrow, and the dot at its tail.
#[tactic(auto, using(crate::proofs::Joined::onto), unfolding(crate::specs::Heading::head_of_arrow))]
fn push_head(text: &mut Vec<u8>) -> Result<(), NoMemory>
    ensures { OnOk result (text.new.items ≡ text.old.items ++ head_of_arrow) }
{
    push_words(
        text,
        b"<marker id=\"h\" orient=\"auto\" refX=\"3\" refY=\"2\" \
          markerWidth=\"4\" markerHeight=\"4\">",
    )?;
    push_words(text, b"<path class=\"h\" d=\"M0 0L4 2L0 4z\"/></marker>\n")?;
    push_words(
        text,
        b"<marker id=\"d\" refX=\"2\" refY=\"2\" markerWidth=\"4\" markerHeight=\"4\">\
          <circle class=\"h\" cx=\"2\" cy=\"2\" r=\"1.6\"/></marker>\n",
    )?;
    Ok(())
}

/// The title of a picture, what it shows, and how bars and arrows look.
#[tactic(auto, using(crate::proofs::Joined::onto), unfolding(crate::specs::Heading::title_text))]
pub(crate) fn push_title(text: &mut Vec<u8>, window: &Window, covers: bool) -> Result<(), NoMemory>
    ensures { OnOk result (text.new.items ≡ text.old.items ++ title_text window.now covers) }
{
    push_two(
        text,
        b"<title>Timers and CPUs, jiffies ",
        window.from,
        b" to ",
        window.to,
    )?;
    push_summary(text, covers)?;
    push_style(text)?;
    push_head(text)?;
    Ok(())
}
