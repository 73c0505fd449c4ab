//! How a call ended, as the number that the program ends with.

ghost use Rattle.std.specs.Prelude.{◌≡◌};

/// How a call ended: 0 where the command did all of its work.
#[derive(Clone, Copy, Debug, PartialEq, Eq)]
pub struct Status(pub u8);

/// The command did all of its work.
pub const DONE: u8 = 0;

/// The words are no command line.
pub const NO_COMMAND: u8 = 1;

/// There was no memory.
pub const NO_MEMORY: u8 = 2;

/// The words of the flash are no image.
pub const FOREIGN_WORD: u8 = 3;

/// A read failed.
pub const READ_FAILED: u8 = 4;

/// A program or an erase failed.
pub const FLASH_FAILED: u8 = 5;

/// A call of the link failed.
pub const LINK_FAILED: u8 = 6;

/// A sector is to be voided and the guard row is used up.
pub const WORN: u8 = 7;

/// All turns were taken, and no event was the end.
pub const TURNS_OVER: u8 = 8;

/// A read of the input failed.
pub const INPUT_FAILED: u8 = 9;

/// The output failed.
pub const OUTPUT_FAILED: u8 = 10;

/// A line of the script is refused.
pub const SCRIPT_REFUSED: u8 = 11;

/// The attach failed.
pub const ATTACH_FAILED: u8 = 13;

/// The statuses have these numbers.
pub fn statuses()
    ensures done { (DONE ≡ 0) × (WORN ≡ 7) × (TURNS_OVER ≡ 8) }
    ensures refused { (NO_COMMAND ≡ 1) × (NO_MEMORY ≡ 2) × (FOREIGN_WORD ≡ 3)
        × (SCRIPT_REFUSED ≡ 11) }
    ensures failed { (READ_FAILED ≡ 4) × (FLASH_FAILED ≡ 5) × (LINK_FAILED ≡ 6)
        × (INPUT_FAILED ≡ 9) × (OUTPUT_FAILED ≡ 10) × (ATTACH_FAILED ≡ 13) }
{}
