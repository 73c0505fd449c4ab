//! What the definitions say of a rule's writes, on a function that does nothing.
ghost use Rattle.param_convert.specs.Steps.{ConvertsInSteps};

/// A rule write by write: after each prefix the new record is absent or whole, and every row of
/// another record reads as before.
pub fn converts_in_steps()
    ensures { ConvertsInSteps }
{}
