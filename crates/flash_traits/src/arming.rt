//! How much of the storage may be written while armed.
ghost use Rattle.flash_traits.specs.Words.{IsSectorSize};
ghost use Rattle.flash_traits.specs.Budget.{budget_of};
ghost use Rattle.std.specs.Prelude.{◌≡◌};

use crate::{CHUNKS, COPY_BYTES, Geometry};

/// The bytes of a sector's header.
const HEADER_BYTES: u32 = 4;

/// The bytes of an entry of one line.
const LINE_BYTES: u32 = 10;

/// The arming budget: how many lines may be written while armed, since nothing is erased then.
pub fn budget(geometry: Geometry) -> u32
    requires { IsSectorSize geometry.sector_bytes }
    ensures { result ≡ budget_of geometry.sector_bytes }
{
    let copy = HEADER_BYTES + COPY_BYTES * CHUNKS + COPY_BYTES;
    geometry.sector_bytes.saturating_sub(copy) / LINE_BYTES
}
