//! What the parts of the flash are called.
ghost use Rattle.std.specs.Prelude.{◌≡◌, ◌≤◌, length};
ghost use Rattle.printed_text.specs.Names as names;

use flash_traits::{Mark, Region};

/// The name of a region: `s0`, `s1` or `guard`.
pub fn region_name(region: Region) -> &'static [u8]
    ensures name { result.now ≡ names.region_name region }
    ensures short { length result.now ≤ 5 }
{
    match region {
        Region::S0 => b"s0",
        Region::S1 => b"s1",
        Region::Guard => b"guard",
    }
}

/// The name of a sector's mark: `available`, `inuse` or `full`.
pub fn mark_name(mark: Mark) -> &'static [u8]
    ensures name { result.now ≡ names.mark_name mark }
    ensures short { length result.now ≤ 9 }
{
    match mark {
        Mark::Available => b"available",
        Mark::InUse => b"inuse",
        Mark::Full => b"full",
    }
}
