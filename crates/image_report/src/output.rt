//! One piece of a text, on its way out.
ghost use Rattle.image_report.specs.Steps.Writes.{Writes};

use flash_traits::{Failed, Sink};

/// Writes a piece.
pub(crate) fn write<K: Sink>(out: &mut K, piece: &[u8]) -> Result<(), Failed>
    ensures { Writes K.Sink out.old out.new result piece.now }
{
    out.write_all(piece)
}
