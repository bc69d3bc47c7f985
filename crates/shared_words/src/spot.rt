//! The word of a timer: 0 where it isn't queued, or one more than the number of the base in which
//! it is, where each CPU has three, in the order of the classes.

ghost use Rattle.std.specs.Prelude.{◌≡◌, ◌<◌, ◌↔◌, IsNone, Option};
ghost use Rattle.std.specs.Option.{ForSome};
ghost use Rattle.shared_words.specs.Words.{FitsSpot, class_number, class_of, spot_of, spot_word};

use tm_base::{Class, CpuId};

/// The bases of a CPU, one for each class.
pub const CLASSES: u64 = 3;

/// Where a timer is queued.
#[derive(Clone, Copy, Debug, PartialEq, Eq)]
pub struct Spot {
    /// The CPU in one of whose bases it is.
    pub cpu: CpuId,
    /// Which of them.
    pub class: Class,
}

/// The word of a timer that is queued there, or nowhere.
pub fn pack_spot(spot: Option<Spot>) -> u64
    ensures { result ≡ spot_word spot }
{
    match spot {
        Some(spot) => 1 + CLASSES * u64::from(spot.cpu.0) + number_of(spot.class),
        None => 0,
    }
}

/// Where the timer of a word is queued, or None exactly where the word is 0. Of a word that no
/// timer has, the CPU is read from the lower 16 bits of the number that stands for it.
pub fn unpack_spot(word: u64) -> Option<Spot>
    ensures exact { result ≡ spot_of word }
    ensures nowhere { IsNone result ↔ (word ≡ 0) }
    ensures back { (s : Option Spot) → ForSome s FitsSpot → spot_word s ≡ word → result ≡ s }
{
    if word == 0 {
        return None;
    }
    let base = word - 1;
    Some(Spot {
        cpu: CpuId((base / CLASSES & 0xffff) as u16),
        class: class_at(base % CLASSES),
    })
}

/// The place of a class among the bases of a CPU.
fn number_of(class: Class) -> u64
    ensures { result ≡ class_number class }
{
    match class {
        Class::Pinned => 0,
        Class::Global => 1,
        Class::Deferrable => 2,
    }
}

/// The class of such a place; whatever isn't 0 or 1 is taken for the last.
fn class_at(number: u64) -> Class
    ensures { result ≡ class_of number }
{
    match number {
        0 => Class::Pinned,
        1 => Class::Global,
        _ => Class::Deferrable,
    }
}
