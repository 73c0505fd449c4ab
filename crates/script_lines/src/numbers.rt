//! The limits of a script and of the numbers in it.

ghost use Rattle.std.specs.Prelude.{◌≡◌};

/// The most lines of a script, the line `e` among them.
pub const SCRIPT_LINES: u32 = 100_000;

/// The most bytes of a line, without its end.
pub const SCRIPT_LINE_BYTES: u32 = 4_200;

/// The bytes that a buffer of a script has room for: a longest line and one more piece.
pub const READ_BYTES: usize = 8_192;

/// The last program or erase call at which a script has power lost, counted from 1.
pub const LAST_CALL: u32 = 1_000_000;

/// How many ways there are of losing power at a call.
pub const LOSS_WAYS: u8 = 3;

/// The limits of a script have these numbers.
pub fn limits()
    ensures lines { (SCRIPT_LINES ≡ 100000) × (SCRIPT_LINE_BYTES ≡ 4200) }
    ensures losses { (LAST_CALL ≡ 1000000) × (LOSS_WAYS ≡ 3) }
{}
