//! Whole numbers and centimetres in the patterns of binary32 (IEEE 754), with no floating point.
//!
//! MAVLink carries parameters and altitudes as binary32. A pattern is its 32 bits as a `u32`: a
//! sign, eight bits of exponent and 23 bits of fraction. Rounding is to the nearest pattern, ties
//! to the one whose lowest bit is 0.
#![tactic(auto)]

ghost use Rattle.std.specs.Prelude.{◌≡◌, ◌≢◌, ℕ, ℤ, ◌+◌, ◌*◌, ◌^◌, ◌<◌, ◌≤◌, ◌↔◌, IsTrue, IfSome, IfNone, Some, unsigned_abs};
ghost use Rattle.word_bits.specs.Pattern.{exponent, magnitude, signed, IsCentimetres, IsWhole, IsFinite, IsNearest, HasOneCount};
ghost use Rattle.word_bits.specs.Rounding.{IsNearCount, IsNearestMagnitude};

/// The bit of the sign.
const SIGN: u32 = 1 << 31;

/// The one before the 23 bits of the fraction, and the lowest bit of the exponent.
const LEADING_ONE: u32 = 1 << 23;

/// How far below 0 the range of an `i32` ends.
const FURTHEST: u32 = 1 << 31;

/// The ends of the range of centimetres, 24 bits in two's complement.
const FEWEST_CENTIMETRES: i32 = -8_388_608;

const MOST_CENTIMETRES: i32 = 8_388_607;

/// Whether the pattern is that of a number, and not of an infinity or a NaN: its exponent bits
/// aren't all ones.
pub fn is_finite(bits: u32) -> bool
    ensures finite { IsTrue result ↔ IsFinite bits }
{
    (bits & !SIGN) >> 23 != 0xFF
}

/// The divisor, `place` binary places up.
fn unit_at(divisor: u32, place: u32) -> u64
    requires small { (0 < divisor) × (divisor ≤ 128) }
    requires near { place < 40 }
    ensures value { result ≡ divisor * 2 ^ place }
    ensures bounds { (0 < result) × (result < 2 ^ 48) }
{
    (divisor as u64) << place
}

/// A binary place above which `number / divisor` has no digit, 31 places up: for a divisor of 1 the
/// first digit's own.
fn highest_place(number: u32, divisor: u32) -> u32
    requires number { (0 < number) × (number ≤ 2 ^ 31) }
    requires divisor { 0 < divisor }
    ensures bounds { (0 < result) × (result < 40) }
    ensures above { number * 2 ^ 31 < 2 ^ 24 * (divisor * 2 ^ result) }
{
    if divisor == 1 {
        39 - number.leading_zeros()
    } else {
        39
    }
}

/// The pattern nearest to `number / divisor`, ties to even.
fn nearest_magnitude(number: u32, divisor: u32) -> u32
    requires number { (0 < number) × (number ≤ 2 ^ 31) }
    requires divisor { (0 < divisor) × (divisor ≤ 128) }
    ensures nearest { IsNearestMagnitude divisor (number * 2 ^ 149) result }
    ensures finite { (0 < result) × (result < 255 * 2 ^ 23) }
{
    let scaled = (number as u64) * 0x8000_0000;
    let mut place = highest_place(number, divisor);
    while scaled / unit_at(divisor, place) < LEADING_ONE as u64 {
        place -= 1;
    }
    let unit = unit_at(divisor, place);
    let digits = scaled / unit;
    let rest = scaled % unit;
    let low = (118 + place) * LEADING_ONE + digits as u32;
    // A tie goes to the even one.
    if 2 * rest + digits % 2 <= unit {
        low
    } else {
        low + 1
    }
}

/// The pattern nearest to `number / divisor`, ties to even, and never minus zero.
fn nearest_pattern(number: i32, divisor: u32) -> u32
    requires { (0 < divisor) × (divisor ≤ 128) }
    ensures nearest { IsNearest result number divisor }
    ensures no_minus_zero { result ≢ 2 ^ 31 }
{
    if number == 0 {
        return 0;
    }
    let magnitude = nearest_magnitude(number.unsigned_abs(), divisor);
    if number < 0 {
        magnitude + SIGN
    } else {
        magnitude
    }
}

/// The pattern nearest to the number, which is its own up to 2^24 on either side of 0.
pub fn bits_of(number: i32) -> u32
    ensures nearest { IsNearest result number 1 }
    ensures exact { unsigned_abs number ≤ 2 ^ 24 → IsWhole result number }
    ensures no_minus_zero { result ≢ 2 ^ 31 }
{
    nearest_pattern(number, 1)
}

/// The pattern nearest to the metres of `k` centimetres, for `k` of 24 bits: from -8,388,608 to
/// 8,388,607.
pub fn bits_of_centimetres(k: i32) -> u32
    requires { IsCentimetres k }
    ensures nearest { IsNearest result k 100 }
    ensures only { (j : ℤ) → IsCentimetres j → IsNearest result j 100 → j ≡ k }
    ensures no_minus_zero { result ≢ 2 ^ 31 }
{
    nearest_pattern(k, 100)
}

/// The whole number that a pattern without its sign is that of, if it is at most 2^31.
fn whole_magnitude(magnitude_bits: u32) -> Option<u32>
    requires { magnitude_bits < 2 ^ 31 }
    ensures number { IfSome result (λ n. (n ≤ 2 ^ 31) × (magnitude magnitude_bits ≡ n * 2 ^ 149)) }
    ensures none { IfNone result ((n : ℕ) → n ≤ 2 ^ 31 → magnitude magnitude_bits ≢ n * 2 ^ 149) }
{
    if magnitude_bits == 0 {
        return Some(0);
    }
    let exponent = magnitude_bits >> 23;
    if exponent < 127 || exponent > 158 {
        return None;
    }
    let digits = magnitude_bits % LEADING_ONE + LEADING_ONE;
    if exponent < 150 {
        let unit = 1 << (150 - exponent);
        if digits % unit == 0 {
            Some(digits / unit)
        } else {
            None
        }
    } else {
        let whole = (digits as u64) << (exponent - 150);
        if whole <= FURTHEST as u64 {
            Some(whole as u32)
        } else {
            None
        }
    }
}

/// The whole number whose pattern this is, if there is one in the range of an `i32`. Minus zero is
/// 0.
pub fn whole_of(bits: u32) -> Option<i32>
    ensures number { IfSome result (λ n. IsWhole bits n) }
    ensures none { IfNone result ((n : ℤ) → ¬ IsWhole bits n) }
{
    let whole = whole_magnitude(bits & !SIGN)?;
    if bits < SIGN {
        if whole == FURTHEST {
            None
        } else {
            Some(whole as i32)
        }
    } else {
        Some(-(whole as i64) as i32)
    }
}

/// A hundred times the value of a pattern without its sign, to the nearest whole number; None where
/// that is far above 2^23.
fn hundredfold(magnitude_bits: u32) -> Option<u32>
    requires { magnitude_bits < 2 ^ 31 }
    ensures bound { IfSome result (λ c. c < 2 ^ 31) }
    ensures only { IfSome result (λ c. (a : ℕ) → IsNearCount magnitude_bits a → a ≡ c) }
    ensures none { IfNone result ((a : ℕ) → a ≤ 2 ^ 23 → ¬ IsNearCount magnitude_bits a) }
{
    let exponent = magnitude_bits >> 23;
    if exponent >= 144 {
        return None;
    }
    if exponent < 119 {
        return Some(0);
    }
    let digits = (magnitude_bits % LEADING_ONE + LEADING_ONE) as u64;
    let half = 1u64 << (149 - exponent);
    Some(((100 * digits + half) / (2 * half)) as u32)
}

/// The count, or its negative.
fn with_sign(negative: bool, count: u32) -> i32
    requires { count < 2 ^ 31 }
    ensures { result ≡ signed negative count }
{
    if negative {
        -(count as i32)
    } else {
        count as i32
    }
}

/// The count of centimetres, from -8,388,608 to 8,388,607, to whose metres this pattern is nearest.
/// Minus zero is 0. There is none for a pattern between two such: an altitude is never rounded to a
/// centimetre.
pub fn centimetres_of(bits: u32) -> Option<i32>
    ensures count { IfSome result (λ k. IsCentimetres k × IsNearest bits k 100) }
    ensures none { IfNone result ((k : ℤ) → IsCentimetres k → ¬ IsNearest bits k 100) }
{
    let magnitude = bits & !SIGN;
    if magnitude == 0 {
        return Some(0);
    }
    let count = hundredfold(magnitude)?;
    let k = with_sign(bits >= SIGN, count);
    if k < FEWEST_CENTIMETRES || k > MOST_CENTIMETRES {
        return None;
    }
    if bits_of_centimetres(k) == bits {
        Some(k)
    } else {
        None
    }
}

/// A law: a pattern is nearest to the metres of one count at most.
pub fn one_count(bits: u32)
    ensures { HasOneCount bits }
{
    let _bits = bits;
}

#[cfg(test)]
mod tests {
    use super::*;

    #[test]
    fn patterns_are_read(rt: HostRuntime) {
        for (bits, finite, whole, centimetres) in [
            (0x0000_0000, true, Some(0), Some(0)),
            (0x8000_0000, true, Some(0), Some(0)),
            (0x3F80_0000, true, Some(1), Some(100)),
            (0x3F80_0001, true, None, None),
            (0x3E80_0000, true, None, Some(25)),
            (0xC2C8_0000, true, Some(-100), Some(-10_000)),
            (0x3C23_D709, true, None, None),
            (0x3C23_D70A, true, None, Some(1)),
            (0x3C23_D70B, true, None, None),
            (0xBC23_D70A, true, None, Some(-1)),
            (0x41F3_D70A, true, None, Some(3048)),
            // Both ends of the range of centimetres, and one beyond.
            (0x47A3_D709, true, None, Some(8_388_607)),
            (0x47A3_D70A, true, None, None),
            (0xC7A3_D70A, true, None, Some(-8_388_608)),
            (0xC7A3_D70C, true, None, None),
            // Both ends of the range of whole numbers, and one pattern beyond.
            (0x4EFF_FFFF, true, Some(2_147_483_520), None),
            (0x4F00_0000, true, None, None),
            (0xCF00_0000, true, Some(-2_147_483_648), None),
            (0xCF00_0001, true, None, None),
            // Subnormal numbers, the largest number, infinities and NaNs.
            (0x0000_0001, true, None, None),
            (0x807F_FFFF, true, None, None),
            (0x7F7F_FFFF, true, None, None),
            (0x7F80_0000, false, None, None),
            (0xFF80_0000, false, None, None),
            (0x7FC0_0000, false, None, None),
            (0xFFFF_FFFF, false, None, None),
        ] {
            assert_eq!(rt; is_finite(bits), finite, "at {bits}");
            assert_eq!(rt; whole_of(bits), whole, "at {bits}");
            assert_eq!(rt; centimetres_of(bits), centimetres, "at {bits}");
        }
    }

    #[test]
    fn whole_numbers_are_rounded_to_even(rt: HostRuntime) {
        for (number, bits) in [
            (0, 0x0000_0000),
            (1, 0x3F80_0000),
            (-1, 0xBF80_0000),
            (16_777_217, 0x4B80_0000),
            (16_777_219, 0x4B80_0002),
            (-16_777_217, 0xCB80_0000),
            (-16_777_219, 0xCB80_0002),
            (33_554_435, 0x4C00_0001),
            (2_147_483_647, 0x4F00_0000),
            (-2_147_483_648, 0xCF00_0000),
        ] {
            assert_eq!(rt; bits_of(number), bits, "at {number}");
        }
    }

    /// Proved for every count: it comes back from its pattern.
    fn through_pattern(k: i32) -> Option<i32>
        requires { IsCentimetres k }
        ensures { result ≡ Some k }
    {
        centimetres_of(bits_of_centimetres(k))
    }

    #[test]
    fn centimetres_come_back_from_their_patterns(rt: HostRuntime) {
        for (count, bits) in [
            (0, 0x0000_0000),
            (3048, 0x41F3_D70A),
            (8_388_607, 0x47A3_D709),
            (-8_388_608, 0xC7A3_D70A),
        ] {
            one_count(bits);
            assert_eq!(rt; bits_of_centimetres(count), bits, "at {count}");
            assert_eq!(rt; through_pattern(count), Some(count), "at {count}");
        }
    }
}
