//! Sinks for bytes, and writing all of a text into one.

ghost use Rattle.std.specs.Prelude.{◌≡◌, ◌≢◌, ◌<◌, ◌≤◌, length};
ghost use Rattle.std.specs.Prelude.{IfOk, OnOk, IfErr, IsErrOf};
ghost use Rattle.std.specs.Io.KnownBytes.{Appends, WriteAppends};
ghost use Rattle.tm_io.specs.Seen.{SinkSeen, SinkFailed, SinkUnbroken, SinkRefused, SinkTook};
ghost use Rattle.tm_io.specs.Sinks.{Puts, StopsBy, AppendsFront, refusals_after};

use crate::IoFault;

/// A sink for bytes that may fail, or take nothing, at any call.
pub trait Sink {
    /// The bytes that it holds, where the sink tells them, and two counts of 64 bits that never
    /// fall: how often it has failed, and how often it took nothing of a piece that wasn't empty.
    ghost seen: { Self → SinkSeen };

    /// Appends a front of the bytes and answers its length. It may be shorter than they are.
    fn put(&mut self, bytes: &[u8]) -> Result<usize, IoFault>
        ensures puts { Puts (seen self.old) (seen self.new) result bytes.now };
}

/// Why writing stopped before the last byte.
#[derive(Clone, Copy, Debug, PartialEq, Eq)]
pub enum WriteCause {
    /// The sink failed.
    Failed,
    /// The sink took nothing of a piece that wasn't empty.
    TookNothing,
    /// Want of memory.
    NoMemory,
}

/// Writing stopped before the last byte.
#[derive(Clone, Copy, Debug, PartialEq, Eq)]
pub struct WriteFault {
    /// How many bytes the sink took by then.
    pub written: usize,
    /// Why it stopped.
    pub cause: WriteCause,
}

// The most bytes that a sink is handed at once. No clause says so; a test does.
const PIECE: usize = 4_096;

/// Writes all of the bytes, in pieces of at most 4,096. What the sink took before an Err it keeps.
pub fn write_all<K: Sink>(sink: &mut K, bytes: &[u8]) -> Result<(), WriteFault>
    ensures ok { OnOk result (Appends (K.seen sink.old).held (K.seen sink.new).held bytes.now) }
    ensures err { IfErr result (λ fault.
        AppendsFront (K.seen sink.old) (K.seen sink.new) fault.written bytes.now) }

    // The count of faults rises exactly where the sink failed.
    ensures failed { StopsBy result WriteCause.Failed
        → SinkFailed (K.seen sink.old) (K.seen sink.new) }
    ensures unbroken { ¬ StopsBy result WriteCause.Failed
        → SinkUnbroken (K.seen sink.old) (K.seen sink.new) }

    // The other count rises exactly where the sink took nothing.
    ensures took_nothing { StopsBy result WriteCause.TookNothing
        → SinkRefused (K.seen sink.old) (K.seen sink.new) }
    ensures took_some { ¬ StopsBy result WriteCause.TookNothing
        → SinkTook (K.seen sink.old) (K.seen sink.new) }
{
    let mut written = 0;
    while written < bytes.len() {
        match put_piece(sink, &bytes[written..]) {
            Ok(count) => written += count,
            Err(cause) => return Err(WriteFault { written, cause }),
        }
    }
    Ok(())
}

// Puts the first piece of the bytes, and answers how many of them the sink took: some.
fn put_piece<K: Sink>(sink: &mut K, bytes: &[u8]) -> Result<usize, WriteCause>
    requires { 0 < length bytes.now }
    ensures within { IfOk result (λ n. n ≤ length bytes.now) }
    ensures some { IfOk result (λ n. 0 < n) }
    ensures put { WriteAppends (K.seen sink.old).held (K.seen sink.new).held result bytes.now }
    ensures failed { IsErrOf result WriteCause.Failed
        → SinkFailed (K.seen sink.old) (K.seen sink.new) }
    ensures unbroken { result ≢ Err WriteCause.Failed
        → SinkUnbroken (K.seen sink.old) (K.seen sink.new) }
    ensures took_nothing { IsErrOf result WriteCause.TookNothing
        → SinkRefused (K.seen sink.old) (K.seen sink.new) }
    ensures took_some { result ≢ Err WriteCause.TookNothing
        → SinkTook (K.seen sink.old) (K.seen sink.new) }
{
    let piece = &bytes[..bytes.len().min(PIECE)];
    match sink.put(piece) {
        Ok(0) => Err(WriteCause::TookNothing),
        Ok(count) => Ok(count),
        Err(IoFault::Failed) => Err(WriteCause::Failed),
        Err(IoFault::NoMemory) => Err(WriteCause::NoMemory),
    }
}

// The count of refusals after a put of these bytes that took so many of them.
pub(crate) fn count_refusal(refusals: u64, taken: usize, bytes: &[u8]) -> u64
    ensures exact { result ≡ refusals_after refusals taken bytes.now }
{
    if taken == 0 && !bytes.is_empty() {
        refusals.saturating_add(1)
    } else {
        refusals
    }
}
