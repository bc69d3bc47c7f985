//! The word of a slot.

ghost use Rattle.std.specs.Prelude.{◌≡◌, ◌<◌, ◌↔◌, Option, IfSome, IsNone};
ghost use Rattle.std.specs.Option.{ForSome};
ghost use Rattle.std.specs.Int.{bit_at};
ghost use Rattle.event_queue.specs.EventMap.{FitsWord};
ghost use Rattle.event_queue.specs.Word.{slot_word, slot_of};

use crate::Event;
use tm_base::CpuId;

/// The bits of a word that are the expiry.
const EXPIRY: u64 = 0xffff_ffff_ffff;

/// The word of a slot: bits 0 to 47 are the expiry, 48 to 57 the CPU, bit 58 says that the event is
/// ignored, and bit 59 that there is one. The word of an empty slot is 0.
pub fn pack_event(event: Option<Event>) -> u64
    requires { ForSome event FitsWord }
    ensures { result ≡ slot_word event }
{
    let Some(event) = event else {
        return 0;
    };
    (1 << 59) | (u64::from(event.ignored) << 58) | (u64::from(event.cpu.0) << 48) | event.expiry
}

/// The event that a word holds, or None exactly where bit 59 isn't set, whatever the other bits
/// say. The bits from 60 on are passed over.
pub fn unpack_event(word: u64) -> Option<Event>
    ensures exact { result ≡ slot_of word }
    ensures none { IsNone result ↔ (bit_at word 59 ≡ 0) }
    ensures fits { IfSome result FitsWord }
    ensures back { (s : Option Event) → ForSome s FitsWord → slot_word s ≡ word → result ≡ s }
{
    if (word >> 59) & 1 == 0 {
        return None;
    }
    Some(Event {
        expiry: word & EXPIRY,
        cpu: CpuId((word >> 48 & 0x3ff) as u16),
        ignored: (word >> 58) & 1 == 1,
    })
}
