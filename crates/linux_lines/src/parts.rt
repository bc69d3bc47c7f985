//! The parts of a line: what stands between its runs of blanks.

ghost use Rattle.std.specs.Prelude.{◌≡◌, ◌<◌, [], ◌∷◌, length, Ok, Err, IfSome, IfNone};
ghost use Rattle.std.specs.Prelude.{MatchOption, MatchResult, is_some};
ghost use Rattle.linux_lines.specs.Parts.{parts_of, before, behind, bracketed, value_in, without};

use crate::LineFault;
use text_words::cut;

/// The first part, and what stands behind it; None where there are blanks alone.
pub fn next_part(bytes: &[u8]) -> Option<(&[u8], &[u8])>
    ensures found { IfSome result (λ x. parts_of bytes.now ≡ x.0.now ∷ parts_of x.1.now) }
    ensures none { IfNone result (parts_of bytes.now ≡ []) }
    ensures shorter { IfSome result (λ x. length x.1.now < length bytes.now) }
{
    let mut left = bytes;
    while let Some((word, after)) = cut(left, b' ') {
        if !word.is_empty() {
            return Some((word, after));
        }
        left = after;
    }
    if left.is_empty() {
        None
    } else {
        Some((left, b"".as_slice()))
    }
}

/// What stands behind these first bytes of a part; None where it begins otherwise.
pub fn behind<'a>(part: &'a [u8], first: &[u8]) -> Option<&'a [u8]>
    ensures { MatchOption result
        (behind first.now part.now ≡ None)
        (λ rest. behind first.now part.now ≡ Some rest.now) }
{
    part.strip_prefix(first)
}

/// A part without these first bytes, where it begins so.
pub fn without<'a>(part: &'a [u8], first: &[u8]) -> &'a [u8]
    ensures { result.now ≡ without first.now part.now }
{
    match part.strip_prefix(first) {
        Some(rest) => rest,
        None => part,
    }
}

/// Whether a part ends in these bytes.
pub fn ends_in(part: &[u8], last: &[u8]) -> bool
    ensures { result ≡ is_some (before last.now part.now) }
{
    part.strip_suffix(last).is_some()
}

/// What stands in square brackets, where the part is that.
pub fn bracketed(part: &[u8]) -> Option<&[u8]>
    ensures { MatchOption result
        (bracketed part.now ≡ None)
        (λ inner. bracketed part.now ≡ Some inner.now) }
{
    let Some(rest) = part.strip_prefix(b"[".as_slice()) else {
        return None;
    };
    rest.strip_suffix(b"]".as_slice())
}

/// The value of the first part that begins with this key; the key ends in an equals sign.
pub fn value_in<'a>(bytes: &'a [u8], key: &[u8]) -> Result<&'a [u8], LineFault>
    ensures { MatchResult result
        (λ value. value_in key.now (parts_of bytes.now) ≡ Ok value.now)
        (λ fault. value_in key.now (parts_of bytes.now) ≡ Err fault) }
{
    let mut left = bytes;
    while let Some((part, after)) = next_part(left) {
        if let Some(value) = behind(part, key) {
            return Ok(value);
        }
        left = after;
    }
    Err(LineFault::FieldMissing)
}
