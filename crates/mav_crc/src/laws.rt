//! That the register holds the remainder of the division, and that bytes have one CRC.

ghost use Rattle.std.specs.Prelude.{◌≡◌, ℕ, ◌<◌, ◌^◌, List, All};
ghost use Rattle.mav_crc.specs.Division.{IsCrc};
ghost use Rattle.mav_crc.specs.Register.{crc_of};

/// The register holds the remainder of the division.
pub fn crc_divides()
    ensures { (start : ℕ) (bytes : List ℕ) → start < 2 ^ 16 → All (λ b. b < 256) bytes
        → IsCrc start bytes (crc_of start bytes) }
{}

/// Bytes have one CRC.
pub fn one_crc()
    ensures { (start : ℕ) (bytes : List ℕ) (m n : ℕ)
        → IsCrc start bytes m → IsCrc start bytes n → m ≡ n }
{}
