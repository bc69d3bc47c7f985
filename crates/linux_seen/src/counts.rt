//! Counts that stay within their type.

ghost use Rattle.std.specs.Prelude.{◌≡◌};
ghost use Rattle.linux_seen.specs.Counts.{counted, counted_if};

/// One more, or the same at the end of the type.
pub fn counted(n: u64) -> u64
    ensures { result ≡ counted n }
{
    if n < u64::MAX { n + 1 } else { n }
}

/// One more where this holds.
pub fn counted_if(counts: bool, n: u64) -> u64
    ensures { result ≡ counted_if counts n }
{
    if counts { counted(n) } else { n }
}
