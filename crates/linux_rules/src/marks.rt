//! Where the buffers of all CPUs have begun.

ghost use Rattle.std.specs.Prelude.{◌≡◌, cond};
ghost use Rattle.text_words.specs.Words.{lines_of};
ghost use Rattle.linux_rules.specs.Marks.{kept_lines, lost_lines};

use linux_lines::is_mark;
use text_words::cut;

/// The later of two starts, each with the number of lines before it, where the later one is one.
fn later<'a>(
    is_start: bool,
    passed: usize,
    rest: &'a [u8],
    lost: usize,
    kept: &'a [u8],
) -> (usize, &'a [u8])
    ensures lost { result.0 ≡ cond is_start passed lost }
    ensures kept { lines_of result.1.now ≡ cond is_start (lines_of rest.now) (lines_of kept.now) }
{
    if is_start {
        (passed, rest)
    } else {
        (lost, kept)
    }
}

/// The number of lines before the last one that says that a CPU's buffer begins there, and what
/// stands from that on; 0 and all where no line says so.
pub fn last_start(bytes: &[u8]) -> (usize, &[u8])
    ensures lost { result.0 ≡ lost_lines (lines_of bytes.now) }
    ensures kept { lines_of result.1.now ≡ kept_lines (lines_of bytes.now) }
{
    let mut last = (0, bytes);
    let mut rest = bytes;
    let mut passed = 0;
    while let Some((text, after)) = cut(rest, b'\n') {
        last = later(is_mark(text), passed, rest, last.0, last.1);
        rest = after;
        passed += 1;
    }
    later(is_mark(rest), passed, rest, last.0, last.1)
}
