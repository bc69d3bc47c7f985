//! Receipts.

ghost use Rattle.std.specs.Prelude.{◌≡◌, ◌<◌, Some, length, slice_get};
ghost use Rattle.cpu_bases.specs.declared.entry.Entry.{Entry};
ghost use Rattle.shared_rule.specs.Shows.{receipt_of};
ghost use Rattle.shared_timers.specs.Entries.{with_receipt};

use cpu_bases::Bases;
use shared_rule::{Guest, Receipt};
use tm_base::CpuId;
use wheel_core::TimerBase;

/// Writes the receipt of an entry of a CPU's journal into the bytes of a pass, where there is room
/// for it.
pub fn note<B: TimerBase>(guest: &mut Guest, cpu: CpuId, bases: &Bases<B>, place: usize)
    requires room { length guest.old.receipts.receipts < guest.old.receipts.capacity }
    requires there { (e : Entry) × (slice_get bases.now.plain.journal place ≡ Some e) }
    ensures { (e : Entry) → slice_get bases.now.plain.journal place ≡ Some e
        → guest.new ≡ with_receipt (receipt_of cpu.0 place e) guest.old }
{
    match bases.journal().get(place) {
        Some(entry) => guest.receipts.write(Receipt {
            line: entry.line,
            cpu,
            place,
            entry: *entry,
        }),
        None => unreachable!(),
    }
}
