//! One pass over a list of items.

ghost use Rattle.std.specs.Prelude.{◌≡◌, ◌+◌, ◌<◌, ◌==◌, Some, None, MatchOption};
ghost use Rattle.std.specs.Prelude.{length, position, take};
ghost use Rattle.wheel_core.specs.PlainBase.{HasDistinctIds, OutIsDue};
ghost use Rattle.wheel_core.specs.PlainBase.{item_of, least, out_at, sooner};
ghost use Rattle.wheel_core.specs.Scan.{IsNext, IsPlaceOf, IsScan};

use crate::Item;

/// What goes out of a list first, and what is left then.
#[derive(Clone, Copy)]
pub(crate) struct Scan {
    /// The place of the item that goes out first.
    pub(crate) out: Option<usize>,
    /// The least wheel expiry of the other items.
    pub(crate) others: Option<u64>,
}

/// The sooner of an expiry and another one that may be there.
pub(crate) fn sooner_of(wheel: u64, other: Option<u64>) -> u64
    ensures { result ≡ sooner wheel other }
{
    match other {
        Some(other) => wheel.min(other),
        None => wheel,
    }
}

/// The least wheel expiry.
fn least_of(items: &[Item]) -> Option<u64>
    ensures { result ≡ least items.now }
{
    let mut first = None;
    for item in items {
        first = Some(sooner_of(item.wheel, first));
    }
    first
}

/// The least wheel expiry of what is left after an item of the expiry `gone` went, given that
/// before.
pub(crate) fn least_left(items: &[Item], gone: u64, before: Option<u64>) -> Option<u64>
    requires { before ≡ Some (sooner gone (least items.now)) }
    ensures { result ≡ least items.now }
{
    if before == Some(gone) {
        return least_of(items);
    }
    before
}

/// The first place of an id.
fn position_of(items: &[Item], id: u32) -> Option<usize>
    ensures { result ≡ position (λ item. item.id == id) items.now }
{
    items.iter().position(|item| item.id == id)
}

/// The place of the item of an id.
pub(crate) fn place_by_id(items: &[Item], id: u32) -> Option<usize>
    ensures { MatchOption result (item_of id items.now ≡ None) (IsPlaceOf id items.now) }
{
    position_of(items, id)
}

/// The scan of one item more, at a place whose front was scanned.
fn scan_more(items: &[Item], wheel: u64, place: usize, front: Scan) -> Scan
    requires within { place < length items.now }
    requires front { IsScan wheel (take place items.now) front }
    ensures { IsScan wheel (take (place + 1) items.now) result }
{
    let item = items[place];
    if item.wheel == wheel {
        let Some(best) = front.out else {
            return Scan {
                out: Some(place),
                others: front.others,
            };
        };
        if items[best].level <= item.level {
            return Scan {
                out: Some(place),
                others: Some(sooner_of(wheel, front.others)),
            };
        }
    }
    Scan {
        out: front.out,
        others: Some(sooner_of(item.wheel, front.others)),
    }
}

/// What of the items of a wheel expiry goes out first, in one pass.
#[tactic(auto, unfolding(crate::specs::PlainBase::first_out))]
fn scan_for(items: &[Item], wheel: u64) -> Scan
    ensures { IsScan wheel items.now result }
{
    let mut scan = Scan {
        out: None,
        others: None,
    };
    for place in 0..items.len() {
        scan = scan_more(items, wheel, place, scan);
    }
    scan
}

/// What of a list goes out at a time, given its least wheel expiry. Where nothing is due no item
/// is looked at.
#[tactic(auto, using(crate::proofs::HandOut::out_is_due))]
pub(crate) fn scan_at(items: &[Item], first: Option<u64>, now: u64) -> Scan
    requires first { first ≡ least items.now }
    requires distinct { HasDistinctIds items.now }
    ensures next { IsNext now items.now result }
    ensures due { OutIsDue now items.now (out_at now (least items.now) items.now) }
{
    match first {
        Some(wheel) if wheel <= now => scan_for(items, wheel),
        others => Scan { out: None, others },
    }
}
