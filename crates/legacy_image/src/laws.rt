//! The laws of legacy images.
ghost use Rattle.legacy_image.specs.Laws.{OneReading, RoundTrip};

/// An input is a legacy image of one list of storage bytes or is refused for one reason, and never
/// both.
pub fn one_reading()
    ensures { OneReading }
{}

/// What is made of storage bytes is read as these bytes and as no others.
pub fn round_trip()
    ensures { RoundTrip }
{}
