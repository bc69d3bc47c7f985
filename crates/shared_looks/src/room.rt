//! Room for what a call writes.

ghost use Rattle.std.specs.Prelude.{◌≡◌, OnErr, OnOk};
ghost use Rattle.shared_cpus.specs.shared_rule.Passes.{with_receipts_room};
ghost use Rattle.shared_looks.specs.Rooms.{drain_entries, with_more_room};

use shared_cpus::{BoxPart, Pass, RunName};
use tm_base::{Class, NoMemory};
use wheel_core::TimerBase;

/// Makes room in a part for so many timers more in each base and for so many entries, and then in a
/// pass for as many receipts. Want of memory leaves the pass as it was, and of the part all but its
/// room.
pub fn take_room<N: RunName, B: TimerBase>(
    part: &mut BoxPart<N, B>,
    pass: &mut Pass,
    timers: usize,
    entries: usize,
) -> Result<(), NoMemory>
    ensures ok { OnOk result (part.new ≡ with_more_room timers entries part.old) }
    ensures pass { OnOk result (pass.new ≡ with_receipts_room entries pass.old) }
    ensures kept { part.new.box ≡ part.old.box }
    ensures brought { part.new.brought ≡ part.old.brought }
    ensures err { OnErr result (pass.new ≡ pass.old) }
{
    part.bases.reserve(timers, entries)?;
    pass.reserve(entries)
}

/// Makes room in the part of a CPU and in a pass for a whole drain of a class: an entry and a
/// receipt for each of its timers, and one of each more. After want of memory timers, journal and
/// receipts are as they were.
pub fn make_room<N: RunName, B: TimerBase>(
    part: &mut BoxPart<N, B>,
    pass: &mut Pass,
    class: Class,
) -> Result<(), NoMemory>
    ensures ok { OnOk result
        (part.new ≡ with_more_room 0 (drain_entries class part.old) part.old) }
    ensures pass { OnOk result
        (pass.new ≡ with_receipts_room (drain_entries class part.old) pass.old) }
    ensures kept { part.new.box ≡ part.old.box }
    ensures brought { part.new.brought ≡ part.old.brought }
    ensures err { OnErr result (pass.new ≡ pass.old) }
{
    let Some(entries) = part.bases().base(class).len().checked_add(1) else {
        return Err(NoMemory);
    };
    take_room(part, pass, 0, entries)
}
