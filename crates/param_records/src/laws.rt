//! What the definitions say of records, of setting and of formatting, on functions that do nothing.
ghost use Rattle.param_records.specs.Steps.{RecordsRead, SetsInSteps, FormatsInSteps, NumbersKept};

/// The records of bytes are the one list that they spell up to the first end.
pub fn records_are_read()
    ensures { RecordsRead }
{}

/// Setting a row write by write: after each prefix every other row reads as before, and a new
/// record is absent or whole.
pub fn sets_in_steps()
    ensures { SetsInSteps }
{}

/// Formatting write by write: before the last one the storage is as unformatted as it was.
pub fn formats_in_steps()
    ensures { FormatsInSteps }
{}

/// A row's bytes keep each number that a pattern is for its kind, and each whole number in its
/// range.
pub fn numbers_are_kept()
    ensures { NumbersKept }
{}
