//! What holds of every message, on functions that do nothing.

ghost use Rattle.mission_service.specs.Asked.{AsksOneThing, AsksWhatFits};

/// A message asks for one thing, or for nothing. Its numbers may be any, with more bits than their
/// fields too.
pub fn asks_one_thing()
    ensures { AsksOneThing }
{}

/// What a message gives can be stored, and no item is refused with 0.
pub fn asks_what_fits()
    ensures { AsksWhatFits }
{}
