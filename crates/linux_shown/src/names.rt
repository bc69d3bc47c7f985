//! The name of an event of timer migration that isn't known.

ghost use Rattle.std.specs.Prelude.{◌≡◌, ◌<◌, [], ◌∷◌, length, codes, false, is_some};
ghost use Rattle.std.specs.Prelude.{IfSome, IfNone};
ghost use Rattle.linux_lines.specs.Lines.{are_digits_or_dots, bare, is_migration, is_stamp};
ghost use Rattle.linux_lines.specs.Parts.{before, or_all, parts_of, without};
ghost use Rattle.linux_shown.specs.Names.{name_from, strange_name};

use text_words::cut;

/// The first part of a line, and what stands behind it; None where there are blanks alone.
fn next_part(bytes: &[u8]) -> Option<(&[u8], &[u8])>
    ensures found { IfSome result (λ x. parts_of bytes.now ≡ x.0.now ∷ parts_of x.1.now) }
    ensures none { IfNone result (parts_of bytes.now ≡ []) }
    ensures shorter { IfSome result (λ x. length x.1.now < length bytes.now) }
{
    let mut left = bytes;
    while let Some((word, after)) = cut(left, b' ') {
        if !word.is_empty() {
            return Some((word, after));
        }
        left = after;
    }
    if left.is_empty() {
        None
    } else {
        Some((left, b"".as_slice()))
    }
}

fn are_digits_or_dots(bytes: &[u8]) -> bool
    ensures { result ≡ are_digits_or_dots bytes.now }
{
    bytes.iter().all(|b| b.is_ascii_digit() || *b == b'.')
}

/// Whether a part is a time: digits and dots, and a colon at the end.
fn is_stamp(part: &[u8]) -> bool
    ensures { result ≡ is_stamp part.now }
{
    match part.strip_suffix(b":".as_slice()) {
        Some(digits) => !digits.is_empty() && are_digits_or_dots(digits),
        None => false,
    }
}

/// A part without these first bytes, where it begins so.
fn without<'a>(part: &'a [u8], first: &[u8]) -> &'a [u8]
    ensures { result.now ≡ without first.now part.now }
{
    match part.strip_prefix(first) {
        Some(rest) => rest,
        None => part,
    }
}

/// An event's own name: `perf script` puts its system in front.
#[tactic(auto, unfolding(linux_lines::specs::Lines::bare))]
fn bare(name: &[u8]) -> &[u8]
    ensures { result.now ≡ bare name.now }
{
    without(
        without(without(name, b"timer_migration:"), b"timer:"),
        b"irq:",
    )
}

/// Whether a name begins as those of timer migration do.
fn is_migration(name: &[u8]) -> bool
    ensures { result ≡ is_migration name.now }
{
    name.strip_prefix(b"tmigr_".as_slice()).is_some()
}

/// The first part behind a time that begins as a name of timer migration.
fn name_in(bytes: &[u8]) -> &[u8]
    ensures { result.now ≡ name_from false (parts_of bytes.now) }
{
    let mut left = bytes;
    let mut is_behind = false;
    while let Some((part, after)) = next_part(left) {
        let name = bare(part);
        if is_behind && is_migration(name) {
            return name;
        }
        is_behind = is_stamp(part);
        left = after;
    }
    b""
}

/// The name in the line of an event of timer migration that isn't known, without the colon at its
/// end; nothing where the line has none.
#[tactic(auto, unfolding(crate::specs::Names::strange_name))]
pub fn strange_name(line: &[u8]) -> &[u8]
    ensures { result.now ≡ strange_name line.now }
{
    let name = name_in(line);
    match name.strip_suffix(b":".as_slice()) {
        Some(bare) => bare,
        None => name,
    }
}
