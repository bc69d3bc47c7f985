//! Cutting bytes into lines and lines into words, and reading the numbers among them.

ghost use Rattle.std.specs.Prelude.{◌≡◌, ◌+◌, ◌<◌, ◌^◌, ◌==◌, [], ◌∷◌, length, IsTrue, IfSome};
ghost use Rattle.std.specs.Prelude.{IfNone};
ghost use Rattle.std.specs.Char.{is_ascii_digit};
ghost use Rattle.std.specs.List.{list_all, position};
ghost use Rattle.text_words.specs.Numbers.{are_digits, is_plain, is_number, value_of, number_of};
ghost use Rattle.text_words.specs.Words.{split};

/// What stands before the first `separator`, and what stands behind it; None where there is none.
pub fn cut(bytes: &[u8], separator: u8) -> Option<(&[u8], &[u8])>
    ensures found { IfSome result
        (λ x. split separator bytes.now ≡ x.0.now ∷ split separator x.1.now) }
    ensures none { IfNone result (split separator bytes.now ≡ bytes.now ∷ []) }
    ensures shorter { IfSome result
        (λ x. length x.0.now + 1 + length x.1.now ≡ length bytes.now) }
{
    let at = find(bytes, separator)?;
    Some((&bytes[..at], &bytes[at + 1..]))
}

fn find(bytes: &[u8], separator: u8) -> Option<usize>
    ensures value { result ≡ position (λ b. b == separator) bytes.now }
    ensures within { IfSome result (λ at. at < length bytes.now) }
{
    bytes.iter().position(|b| *b == separator)
}

/// Whether a word is a number: one to thirteen digits, and no zero in front of another digit.
#[tactic(auto, unfolding(crate::specs::Numbers::is_number))]
pub fn is_number(word: &[u8]) -> bool
    ensures { result ≡ is_number word.now }
{
    are_digits(word) && is_plain(word)
}

/// The number that a word spells: one to thirteen digits, and no zero in front of another digit.
#[tactic(auto, unfolding(crate::specs::Numbers::number_of, crate::specs::Numbers::is_number))]
pub fn read_number(word: &[u8]) -> Option<u64>
    ensures value { result ≡ number_of word.now }
    ensures bound { IfSome result (λ n. n < 10 ^ 13) }
{
    if is_number(word) {
        Some(value(word))
    } else {
        None
    }
}

/// Whether a word is one to thirteen digits.
fn are_digits(word: &[u8]) -> bool
    ensures { result ≡ are_digits word.now }
{
    if word.is_empty() || word.len() > 13 {
        return false;
    }
    all_digits(word)
}

fn all_digits(word: &[u8]) -> bool
    ensures { result ≡ list_all is_ascii_digit word.now }
{
    word.iter().all(|b| b.is_ascii_digit())
}

/// Whether no zero stands in front of another digit.
fn is_plain(word: &[u8]) -> bool
    requires { 0 < length word.now }
    ensures { result ≡ is_plain word.now }
{
    !(word[0] == b'0' && word.len() > 1)
}

/// The number of at most thirteen digits.
#[tactic(auto, unfolding(crate::specs::Numbers::value_of))]
fn value(word: &[u8]) -> u64
    requires { IsTrue (are_digits word.now) }
    ensures value { result ≡ value_of word.now }
    ensures bound { result < 10 ^ 13 }
{
    let mut number = 0;
    for digit in word {
        number = number * 10 + u64::from(*digit - b'0');
    }
    number
}
