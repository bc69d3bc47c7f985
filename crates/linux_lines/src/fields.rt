//! The fields of an event.

ghost use Rattle.std.specs.Prelude.{◌≡◌, ◌≤◌, ◌<◌, IfOk};
ghost use Rattle.linux_lines.specs.Parts.{has_key, parts_of};
ghost use Rattle.linux_lines.specs.Fields.{number_at, mask_at, pointer_at, bit_at, node_at};
ghost use Rattle.linux_lines.specs.Fields.{expiry_at, place_at};
ghost use Rattle.linux_lines.specs.Fields.{child_at, child_of};

use crate::numbers::{Base, read_mask, read_number, read_pointer, within};
use crate::parts::value_in;
use crate::{LineFault, NO_EXPIRY, Place};

/// A decimal field of at most this.
#[tactic(auto, unfolding(crate::specs::Fields::number_at))]
pub fn number_at(bytes: &[u8], key: &[u8], most: u64) -> Result<u64, LineFault>
    ensures value { result ≡ number_at key.now most (parts_of bytes.now) }
    ensures bound { IfOk result (λ n. n ≤ most) }
{
    let word = value_in(bytes, key)?;
    let number = read_number(Base::Ten, word)?;
    within(most, number)
}

/// An expiry, or that there is none.
#[tactic(auto, unfolding(crate::specs::Fields::expiry_at))]
pub fn expiry_at(bytes: &[u8], key: &[u8]) -> Result<u64, LineFault>
    ensures { result ≡ expiry_at key.now (parts_of bytes.now) }
{
    number_at(bytes, key, NO_EXPIRY)
}

/// A mask of at most this.
#[tactic(auto, unfolding(crate::specs::Fields::mask_at))]
pub fn mask_at(bytes: &[u8], key: &[u8], most: u64) -> Result<u64, LineFault>
    ensures value { result ≡ mask_at key.now most (parts_of bytes.now) }
    ensures bound { IfOk result (λ n. n ≤ most) }
{
    let word = value_in(bytes, key)?;
    let number = read_mask(word)?;
    within(most, number)
}

/// A pointer.
#[tactic(auto, unfolding(crate::specs::Fields::pointer_at))]
pub fn pointer_at(bytes: &[u8], key: &[u8]) -> Result<u64, LineFault>
    ensures { result ≡ pointer_at key.now (parts_of bytes.now) }
{
    let word = value_in(bytes, key)?;
    read_pointer(word)
}

/// The child whose bit alone makes this mask.
#[tactic(auto, unfolding(crate::specs::Fields::child_of))]
fn child_of(mask: u64) -> Result<u8, LineFault>
    ensures value { result ≡ child_of mask }
    ensures bound { IfOk result (λ k. k < 8) }
{
    match mask {
        1 => Ok(0),
        2 => Ok(1),
        4 => Ok(2),
        8 => Ok(3),
        16 => Ok(4),
        32 => Ok(5),
        64 => Ok(6),
        128 => Ok(7),
        _ => Err(LineFault::OutOfRange),
    }
}

/// A child's number, from a mask with its bit alone.
#[tactic(auto, unfolding(crate::specs::Fields::bit_at))]
pub fn bit_at(bytes: &[u8], key: &[u8]) -> Result<u8, LineFault>
    ensures value { result ≡ bit_at key.now (parts_of bytes.now) }
    ensures bound { IfOk result (λ k. k < 8) }
{
    let mask = mask_at(bytes, key, 255)?;
    child_of(mask)
}

/// Whether a field of this key stands there.
#[tactic(auto, unfolding(crate::specs::Parts::has_key))]
pub fn has_key(bytes: &[u8], key: &[u8]) -> bool
    ensures { result ≡ has_key key.now (parts_of bytes.now) }
{
    match value_in(bytes, key) {
        Ok(_) => true,
        Err(_) => false,
    }
}

/// The number of the child that a group or a CPU is: Linux 6.9 names the field `childmask`, and
/// from 6.10 on the lines of the tree have `groupmask`.
#[tactic(auto, unfolding(crate::specs::Fields::child_at))]
pub fn child_at(bytes: &[u8]) -> Result<u8, LineFault>
    ensures value { result ≡ child_at (parts_of bytes.now) }
    ensures bound { IfOk result (λ k. k < 8) }
{
    if has_key(bytes, b"groupmask=") {
        bit_at(bytes, b"groupmask=")
    } else {
        bit_at(bytes, b"childmask=")
    }
}

/// The node: none where it is -1.
#[tactic(auto, unfolding(crate::specs::Fields::node_at))]
pub fn node_at(bytes: &[u8]) -> Result<Option<u64>, LineFault>
    ensures { result ≡ node_at (parts_of bytes.now) }
{
    let word = value_in(bytes, b"numa=")?;
    if word == b"-1".as_slice() {
        return Ok(None);
    }
    let number = read_number(Base::Ten, word)?;
    Ok(Some(number))
}

/// A group with its level and node, by the key of its pointer.
#[tactic(auto, unfolding(crate::specs::Fields::place_at))]
pub fn place_at(bytes: &[u8], key: &[u8]) -> Result<Place, LineFault>
    ensures { result ≡ place_at key.now (parts_of bytes.now) }
{
    let group = pointer_at(bytes, key)?;
    let level = number_at(bytes, b"lvl=", 255)?;
    let node = node_at(bytes)?;
    Ok(Place {
        group,
        level: level as u8,
        node,
    })
}
