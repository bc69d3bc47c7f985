//! The word of a group's lock: 0 where it is free, or one more than the number of the CPU whose
//! walk holds it.

ghost use Rattle.std.specs.Prelude.{◌≡◌, ◌<◌, ◌^◌, ◌↔◌, ℕ, IsNone, Option, option_map};
ghost use Rattle.std.specs.Option.{ForSome};
ghost use Rattle.shared_words.specs.Words.{cpu_number, holder_of, lock_word};

use tm_base::CpuId;

/// The word of a lock that this CPU's walk holds, or that is free.
pub fn pack_lock(holder: Option<CpuId>) -> u64
    ensures { result ≡ lock_word (option_map cpu_number holder) }
{
    match holder {
        Some(cpu) => 1 + u64::from(cpu.0),
        None => 0,
    }
}

/// The CPU whose walk holds the lock, or None exactly where the word is 0. Of a word that no lock
/// has the lower 16 bits are read.
pub fn unpack_lock(word: u64) -> Option<CpuId>
    ensures exact { option_map cpu_number result ≡ holder_of word }
    ensures free { IsNone result ↔ (word ≡ 0) }
    ensures back { (h : Option ℕ) → ForSome h (λ c. c < 2 ^ 16) → lock_word h ≡ word
        → option_map cpu_number result ≡ h }
{
    if word == 0 {
        return None;
    }
    Some(CpuId((word - 1 & 0xffff) as u16))
}
