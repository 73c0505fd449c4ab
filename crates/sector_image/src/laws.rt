//! The law that words of the right lengths stand for one list of bytes or have one first foreign
//! word.
ghost use Rattle.sector_image.specs.Laws.{OneOfBoth};

/// Words of the right lengths stand for one list of bytes or have one first foreign word, and never
/// both.
pub fn one_of_both()
    ensures { OneOfBoth }
{}
