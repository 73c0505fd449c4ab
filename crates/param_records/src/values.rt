//! Values of parameters: what the bytes of a record, and the numbers of the table, mean for a kind.
ghost use Rattle.std.specs.Prelude.{◌≡◌, ◌<◌, ◌≤◌};
ghost use Rattle.param_records.specs.Values.{value_from, value_of_number, number_of_four_bytes};

use byteorder::{ByteOrder, LittleEndian};
use param_tree::Kind;

/// A parameter's value.
#[derive(Clone, Copy, Debug, PartialEq, Eq, Drop)]
pub enum Value {
    /// A whole number, of an integer kind.
    Whole(i32),
    /// The binary32 pattern of a float.
    Bits(u32),
}

/// The number in the four bytes from a place on, little endian.
fn number_at(bytes: &[u8; 12], at: usize) -> u32
    requires { at ≤ 8 }
    ensures { result ≡ number_of_four_bytes at bytes.now }
{
    LittleEndian::read_u32(&bytes[at..])
}

/// A default, as the table has it.
pub fn default_value(kind: Kind, default: u32) -> Value
    ensures { result ≡ value_of_number kind default }
{
    match kind {
        Kind::I8 | Kind::I16 | Kind::I32 => Value::Whole(default.cast_signed()),
        Kind::F32 | Kind::Vec3 => Value::Bits(default),
    }
}

/// The value of a part of bytes of this kind.
pub fn value_of(kind: Kind, part: u8, bytes: &[u8; 12]) -> Value
    requires { part < 3 }
    ensures { result ≡ value_from kind part bytes.now }
{
    match kind {
        Kind::I8 => Value::Whole(bytes[0].cast_signed() as i32),
        Kind::I16 => Value::Whole(LittleEndian::read_u16(bytes).cast_signed() as i32),
        Kind::I32 => Value::Whole(number_at(bytes, 0).cast_signed()),
        Kind::F32 => Value::Bits(number_at(bytes, 0)),
        Kind::Vec3 => Value::Bits(number_at(bytes, 4 * part as usize)),
    }
}
