//! Writing texts piece by piece. Without memory for a piece the text stays as it was.

ghost use Rattle.std.specs.Prelude.{◌≡◌, ◌+◌, ◌<◌, [], ◌∷◌, ◌++◌, length, take, OnOk, OnErr};
ghost use Rattle.std.specs.Fmt.{decimal};

use std::alloc::AllocError;

/// Writes these bytes behind a text.
pub fn push_bytes(text: &mut Vec<u8>, bytes: &[u8]) -> Result<(), AllocError>
    ensures ok { OnOk result (text.new.items ≡ text.old.items ++ bytes.now) }
    ensures err { OnErr result (text.new.items ≡ text.old.items) }
{
    text.extend_from_slice(bytes)
}

/// Writes a number in decimal behind a text.
pub fn push_number(text: &mut Vec<u8>, n: u64) -> Result<(), AllocError>
    ensures ok { OnOk result (text.new.items ≡ text.old.items ++ decimal n) }
    ensures err { OnErr result (text.new.items ≡ text.old.items) }
{
    let had = text.len();
    let pushed = push_digits(text, n);
    if pushed.is_err() {
        text.truncate(had);
    }
    pushed
}

// The digits of a number, one at a time. Without memory some of them stand behind the text.
#[tactic(auto, using(std::proofs::lemmas::Fmt::decimal_digit, std::proofs::lemmas::Fmt::decimal_step, std::proofs::lemmas::List::append_assoc))]
fn push_digits(text: &mut Vec<u8>, n: u64) -> Result<(), AllocError>
    ensures ok { OnOk result (text.new.items ≡ text.old.items ++ decimal n) }
    ensures err { OnErr result (take (length text.old.items) text.new.items ≡ text.old.items) }
{
    if n < 10 {
        return push_digit(text, n as u8);
    }
    push_digits(text, n / 10)?;
    push_digit(text, (n % 10) as u8)
}

// One digit.
fn push_digit(text: &mut Vec<u8>, digit: u8) -> Result<(), AllocError>
    requires { digit < 10 }
    ensures ok { OnOk result (text.new.items ≡ text.old.items ++ (48 + digit) ∷ []) }
    ensures err { OnErr result (text.new.items ≡ text.old.items) }
{
    text.push(b'0' + digit)?;
    Ok(())
}
