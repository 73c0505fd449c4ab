//! Laws of what is stored: it comes back, it fits its record, and each item has one result.

ghost use Rattle.mission_commands.specs.Back.{ComesBack};
ghost use Rattle.mission_commands.specs.Results.{EachHasOneResult};
ghost use Rattle.mission_commands.specs.Storable.{StoresFit};

/// The stored fields of an item come back: whole numbers by value, other patterns as they are, the
/// frame by its flags.
pub fn comes_back()
    ensures { ComesBack }
{}

/// What is stored of an item fits the fifteen bytes of a command.
pub fn stores_fit()
    ensures { StoresFit }
{}

/// Each item is stored in one way, or refused with one answer.
pub fn has_one_result()
    ensures { EachHasOneResult }
{}
