//! Sources of bytes, and reading one to its end.

ghost use Rattle.std.specs.Prelude.{◌≡◌, ◌≢◌, ◌+◌, ◌≤◌, ◌++◌, ℕ, List, length, min, take, drop};
ghost use Rattle.std.specs.Prelude.{vec_len, IfOk, OnErr, IfErr, IfSome, IsErrOf};
ghost use Rattle.std.specs.Io.KnownBytes.{Consumes, IsAtEnd};
ghost use Rattle.tm_io.specs.Seen.{SourceSeen, SourceFailed, SourceUnbroken};
ghost use Rattle.tm_io.specs.Sources.{Takes, TakesAll, TakesBefore, IsAnswerTo};

use crate::IoFault;
use std::alloc::Global;

/// A source of bytes that may fail at any call.
pub trait Source {
    /// The bytes that are left, where the source tells them, and how often it has failed: a count
    /// of 64 bits that never falls.
    ghost seen: { Self → SourceSeen };

    /// Fills the front of the room with the next bytes and answers how many. It answers 0 for a
    /// room that isn't empty only at the end of the input.
    fn take(&mut self, room: &mut [u8]) -> Result<usize, IoFault>
        ensures takes { Takes (seen self.old) (seen self.new) result room.old room.new };
}

/// Why reading to the end was refused. The bytes taken by then stay taken.
#[derive(Clone, Copy, Debug, PartialEq, Eq)]
pub enum ReadFault {
    /// The source failed.
    Read,
    /// The source has more bytes than were allowed.
    TooLong,
    /// Want of memory.
    NoMemory,
}

// The most bytes that a source is asked for at once. No clause says so; a test does.
pub(crate) const ROOM: usize = 4_096;

/// Reads a source to its end, which has to come within `most` bytes. It asks for 4,096 bytes at
/// once, or for fewer where fewer are left of `most + 1`.
pub fn read_all<S: Source>(alloc: Global, source: &mut S, most: usize) -> Result<Vec<u8>, ReadFault>
    ensures ok { IfOk result
        (λ bytes. TakesAll (S.seen source.old) (S.seen source.new) most bytes.items) }
    ensures err { IfErr result
        (λ fault. TakesBefore fault (S.seen source.old) (S.seen source.new) most) }

    // The count of faults rises exactly where the source failed.
    ensures read { IsErrOf result ReadFault.Read
        → SourceFailed (S.seen source.old) (S.seen source.new) }
    ensures unbroken { result ≢ Err ReadFault.Read
        → SourceUnbroken (S.seen source.old) (S.seen source.new) }

    // Where the source tells its bytes and no fault comes, they decide.
    ensures answer { IfSome (S.seen source.old).left (λ bytes.
        ¬ SourceFailed (S.seen source.old) (S.seen source.new) → IsAnswerTo bytes most result) }
{
    let mut taken = Vec::new(alloc);
    while taken.len() <= most {
        let count = take_more(source, &mut taken, most)?;
        if count == 0 {
            return Ok(taken);
        }
    }
    Err(ReadFault::TooLong)
}

// Takes once, and puts what comes behind what was taken before; 0 only at the end.
fn take_more<S: Source>(
    source: &mut S,
    taken: &mut Vec<u8>,
    most: usize,
) -> Result<usize, ReadFault>
    requires { vec_len taken.old ≤ most }
    ensures grows { IfOk result (λ n. vec_len taken.new ≡ vec_len taken.old + n) }
    ensures within { vec_len taken.new ≤ most + 1 }
    ensures taken { (bytes : List ℕ) × (taken.new.items ≡ taken.old.items ++ bytes)
        × Consumes (S.seen source.old).left (S.seen source.new).left bytes }
    ensures end { IfOk result (λ n. n ≡ 0 → IsAtEnd (S.seen source.new).left) }
    ensures err { OnErr result (taken.new.items ≡ taken.old.items) }
    ensures read { IsErrOf result ReadFault.Read
        → SourceFailed (S.seen source.old) (S.seen source.new) }
    ensures unbroken { result ≢ Err ReadFault.Read
        → SourceUnbroken (S.seen source.old) (S.seen source.new) }
    ensures not_too_long { IsErrOf result ReadFault.TooLong → ⊥ }
{
    let wanted = (most - taken.len()).min(ROOM - 1) + 1;
    if taken.reserve(wanted).is_err() {
        return Err(ReadFault::NoMemory);
    }
    let mut room = [0u8; ROOM];
    match source.take(&mut room[..wanted]) {
        Ok(count) => {
            taken.extend_from_slice(&room[..count]).unwrap();
            Ok(count)
        }
        Err(IoFault::Failed) => Err(ReadFault::Read),
        Err(IoFault::NoMemory) => Err(ReadFault::NoMemory),
    }
}

// Copies as many bytes as both have to the front of the room, and answers how many.
pub(crate) fn fill_front(room: &mut [u8], bytes: &[u8]) -> usize
    ensures count { result ≡ min (length room.old) (length bytes.now) }
    ensures front { take result room.new ≡ take result bytes.now }
    ensures rest { drop result room.new ≡ drop result room.old }
{
    let count = room.len().min(bytes.len());
    room[..count].copy_from_slice(&bytes[..count]);
    count
}
