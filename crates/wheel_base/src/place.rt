//! Where an item stands in the wheel.

ghost use Rattle.std.specs.Prelude.{◌≡◌, ℕ, ◌%◌, ◌<◌, ◌≤◌};
ghost use Rattle.wheel_core.specs.WheelExpiry.{granularity};
ghost use Rattle.wheel_base.specs.Files.{place_at};

/// The place, 0 to 63, of a wheel expiry in its level.
#[inline(always)]
pub(crate) fn wheel_place(level: u8, wheel: u64) -> u8
    requires { level < 9 }
    ensures place { result ≡ place_at level wheel }
    ensures below { result < 64 }
{
    let shift = 3 * level;
    (wheel >> shift & 63) as u8
}

/// The highest level of which a wheel expiry can be.
#[inline(always)]
pub(crate) fn top_level(wheel: u64) -> u8
    ensures below { result < 9 }
    ensures top { (level : ℕ) → level < 9 → wheel % granularity level ≡ 0 → level ≤ result }
{
    (wheel.trailing_zeros() / 3).min(8) as u8
}
