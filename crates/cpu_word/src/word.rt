//! The word of a CPU's state: bits 0 to 47 are the wakeup, bit 48 says that it is online, 49 that
//! it is idle and 50 that it is inside its interrupt; bits 51 to 60 are one more than the number of
//! the CPU that marked it, or 0; the rest is 0.

ghost use Rattle.std.specs.Prelude.{◌≡◌, ◌<◌, IfNone, IfSome, Some};
ghost use Rattle.std.specs.Option.{ForSome};
ghost use Rattle.cpu_word.specs.declared.state.TheConstants.{MARKER_LIMIT};
ghost use Rattle.cpu_word.specs.Word.{FitsWord, IsStateOf, cpu_word, mark_of, cpu_of_mark};

use crate::CpuState;
use tm_base::CpuId;

/// The bits of a word that are the wakeup.
const WAKEUP: u64 = 0xffff_ffff_ffff;

/// The word of a state that fits one.
pub fn pack_cpu(state: CpuState) -> u64
    requires { FitsWord state }
    ensures { result ≡ cpu_word state }
{
    (u64::from(mark(state.remote)) << 51)
        | (u64::from(state.inside) << 50)
        | (u64::from(state.idle) << 49)
        | (u64::from(state.online) << 48)
        | state.wakeup
}

/// The state that has this word, or None exactly where none that fits has it: where a bit from 61
/// on is set.
pub fn unpack_cpu(word: u64) -> Option<CpuState>
    ensures found { IfSome result (IsStateOf word) }
    ensures back { (s : CpuState) → IsStateOf word s → result ≡ Some s }
    ensures none { IfNone result ((s : CpuState) → IsStateOf word s → ⊥) }
{
    if word >> 61 != 0 {
        return None;
    }
    Some(CpuState {
        online: (word >> 48) & 1 == 1,
        idle: (word >> 49) & 1 == 1,
        inside: (word >> 50) & 1 == 1,
        remote: marker((word >> 51 & 0x3ff) as u16),
        wakeup: word & WAKEUP,
    })
}

/// One more than the number of a CPU, or 0 where there is none.
fn mark(remote: Option<CpuId>) -> u16
    requires { ForSome remote (λ c. c.0 < MARKER_LIMIT) }
    ensures { result ≡ mark_of remote }
{
    match remote {
        Some(cpu) => 1 + cpu.0,
        None => 0,
    }
}

/// The CPU of such a number.
fn marker(mark: u16) -> Option<CpuId>
    ensures { result ≡ cpu_of_mark mark }
{
    if mark == 0 {
        None
    } else {
        Some(CpuId(mark - 1))
    }
}
