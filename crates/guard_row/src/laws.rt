//! The laws of guard rows and their counts.
ghost use Rattle.guard_row.specs.Laws.{OneOfBoth, HomeOrVoid};

/// Each list of halfwords is a guard row with one count or has one first failing place, and never
/// both.
pub fn one_of_both()
    ensures { OneOfBoth }
{}

/// Each count says which sector is home or which is void, and a step goes from the one to the
/// other.
pub fn home_or_void()
    ensures { HomeOrVoid }
{}
