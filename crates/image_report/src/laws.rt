//! Each text is one, and these words have it.
ghost use Rattle.image_report.specs.Laws.{OneText};

/// Words have at most one dump, and one exactly where they stand for bytes. Words of right lengths
/// have one report.
pub fn one_text()
    ensures { OneText }
{}
