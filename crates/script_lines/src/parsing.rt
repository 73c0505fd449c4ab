//! One line, read from its text.
ghost use Rattle.std.specs.Prelude.{◌≡◌, ◌≤◌, ◌<◌, ◌+◌, ◌*◌, ◌++◌, [], ◌∷◌, List, ℕ, length, IfSome, IfNone, Ok};
ghost use Rattle.flash_traits.specs.declared.numbers.TheConstants.{DATAGRAM_BYTES};
ghost use Rattle.hex.specs.Hex.{decode_of};
ghost use Rattle.script_lines.specs.declared.numbers.TheConstants.{LAST_CALL};
ghost use Rattle.script_lines.specs.Script as script;
ghost use Rattle.script_lines.specs.Script.{Spells, IsNumeral, SpellsDatagram, SpellsLossLater, datagram_text, loss_text};
ghost use Rattle.script_lines.specs.Seen.{script_line_of};

use crate::{LAST_CALL, LOSS_WAYS, ScriptLine, Waiting};
use arrayvec::ArrayVec;
use flash_traits::{DATAGRAM_BYTES, STATIONS};
use hex::decode_to_slice;

/// The most digits of a number.
const MOST_DIGITS: usize = 10;

/// The line of one byte.
fn one_byte(byte: u8) -> Option<ScriptLine>
    ensures some { IfSome result (λ line. Spells (script_line_of line) (byte ∷ [])) }
    ensures none { IfNone result ((line : script.ScriptLine) → Spells line (byte ∷ []) → ⊥) }
{
    match byte {
        b'i' => Some(ScriptLine::Idle),
        b'x' => Some(ScriptLine::LossNow),
        b'e' => Some(ScriptLine::End),
        _ => None,
    }
}

/// The bytes that an even number of digits are.
fn bytes_of(digits: &[u8]) -> Option<ArrayVec<u8, DATAGRAM_BYTES>>
    requires { length digits.now ≤ 2 * DATAGRAM_BYTES }
    ensures some { IfSome result (λ bytes. decode_of digits.now ≡ Ok bytes.items) }
    ensures none { IfNone result ((bytes : List ℕ) → decode_of digits.now ≡ Ok bytes → ⊥) }
{
    let count = digits.len() / 2;
    let mut bytes = [0; DATAGRAM_BYTES];
    let into = &mut bytes[..count];
    if decode_to_slice(digits, into).is_err() {
        return None;
    }
    let mut kept = ArrayVec::new();
    match kept.try_extend_from_slice(into) {
        Ok(()) => Some(kept),
        Err(_) => unreachable!(),
    }
}

/// The line `d S HEX`, of its station's digit and the digits of its bytes.
fn datagram(station: u8, digits: &[u8]) -> Option<ScriptLine>
    ensures some { IfSome result
        (λ line. Spells (script_line_of line) (datagram_text station digits.now)) }
    ensures none { IfNone result ((number : ℕ) (bytes : List ℕ)
        → SpellsDatagram number bytes (datagram_text station digits.now) → ⊥) }
{
    if station < b'0' || station >= b'0' + STATIONS {
        return None;
    }
    if digits.len() > 2 * DATAGRAM_BYTES {
        return None;
    }
    match bytes_of(digits) {
        Some(bytes) => Some(ScriptLine::Datagram {
            station: station - b'0',
            bytes,
        }),
        None => None,
    }
}

/// One to ten digits with a value from 1 to 1,000,000.
fn call_of(digits: &[u8]) -> Option<u32>
    ensures numeral { IfSome result (λ call. IsNumeral digits.now call) }
    ensures range { IfSome result (λ call. (1 ≤ call) × (call ≤ LAST_CALL)) }
    ensures none { IfNone result
        ((call : ℕ) → IsNumeral digits.now call → 1 ≤ call → call ≤ LAST_CALL → ⊥) }
{
    if digits.is_empty() || digits.len() > MOST_DIGITS {
        return None;
    }
    let mut value: u32 = 0;
    for digit in digits {
        if *digit < b'0' || *digit > b'9' {
            return None;
        }
        let next = u32::from(*digit - b'0');
        value = value * 10 + next;
        if value > LAST_CALL {
            return None;
        }
    }
    if value == 0 {
        return None;
    }
    Some(value)
}

/// The line `l K M`, of the digits of its call and the digit of its way.
fn loss_later(digits: &[u8], how: u8) -> Option<ScriptLine>
    ensures some { IfSome result (λ line. Spells (script_line_of line) (loss_text digits.now how)) }
    ensures none { IfNone result ((call number : ℕ)
        → SpellsLossLater call number (loss_text digits.now how) → ⊥) }
{
    if how < b'0' {
        return None;
    }
    if how >= b'0' + LOSS_WAYS {
        return None;
    }
    match call_of(digits) {
        Some(call) => Some(ScriptLine::LossLater(Waiting {
            call,
            how: how - b'0',
        })),
        None => None,
    }
}

/// The line that a text says, without the byte that ends it; None exactly where it says none.
///
/// Parts of a line have one space between them. A datagram has at most 2,048 bytes, two digits of
/// either case each, and may have none: the space before them stays.
pub fn parse(text: &[u8]) -> Option<ScriptLine>
    ensures some { IfSome result (λ line. Spells (script_line_of line) text.now) }
    ensures none { IfNone result ((line : script.ScriptLine) → Spells line text.now → ⊥) }
{
    let len = text.len();
    if len == 1 {
        return one_byte(text[0]);
    }
    if len < 4 {
        return None;
    }
    if text[1] != b' ' {
        return None;
    }
    if text[0] == b'd' {
        if text[3] != b' ' {
            return None;
        }
        return datagram(text[2], &text[4..]);
    }
    if text[0] == b'l' {
        if text[len - 2] != b' ' {
            return None;
        }
        return match loss_later(&text[2..len - 2], text[len - 1]) {
            Some(line) => Some(line),
            None => None,
        };
    }
    None
}
