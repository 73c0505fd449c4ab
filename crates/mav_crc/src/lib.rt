//! The CRC of MAVLink frames (CRC-16/MCRF4XX), and the byte CRC_EXTRA that stands for a message's
//! description.
#![tactic(auto)]

ghost use Rattle.std.specs.Prelude.{◌≡◌, ◌<◌, All};
ghost use Rattle.mav_crc.specs.Division.{IsCrc};
ghost use Rattle.mav_crc.specs.Register.{register_after, crc_of};
ghost use Rattle.mav_crc.specs.Extra.{field_bytes, description_bytes, extra_byte, IsExtra};

mod laws;

pub use laws::{crc_divides, one_crc};

/// The register after one more byte.
fn accumulate(register: u16, byte: u8) -> u16
    ensures { result ≡ register_after register byte }
{
    let low = (register % 256) as u8 ^ byte;
    let folded = (low ^ low << 4) as u16;
    register / 256 ^ folded * 256 ^ folded * 8 ^ folded / 16
}

/// The register after two more bytes, with no table: sixteen bits leave it at once.
fn accumulate_pair(register: u16, first: u8, second: u8) -> u16
    ensures { result ≡ register_after (register_after register first) second }
{
    let leaving = register ^ (second as u16 * 256 + first as u16);
    let folded = leaving ^ leaving << 4 ^ leaving << 8 ^ leaving << 11 ^ leaving << 12;
    folded ^ folded >> 5 ^ folded >> 12
}

/// The CRC of the bytes from a start value on: 0xFFFF for the first bytes, and for later ones the
/// CRC of those before.
pub fn crc(start: u16, bytes: &[u8]) -> u16
    ensures divided { IsCrc start bytes.now result }
    ensures chained { result ≡ crc_of start bytes.now }
{
    let mut register = start;
    let pairs = bytes.len() / 2;
    for i in 0..pairs {
        register = accumulate_pair(register, bytes[2 * i], bytes[2 * i + 1]);
    }
    if bytes.len() % 2 == 1 {
        accumulate(register, bytes[bytes.len() - 1])
    } else {
        register
    }
}

/// A field of a message, as MAVLink's definition names it. `array` is the number of elements, and 0
/// for no array.
#[derive(Clone, Copy, Debug, Drop)]
pub struct Field {
    pub kind: &'static [u8],
    pub name: &'static [u8],
    pub array: u8,
}

/// A message: its name, and its fields in wire order without the extensions.
#[derive(Clone, Copy, Debug, Drop)]
pub struct Description {
    pub name: &'static [u8],
    pub fields: &'static [Field],
}

/// The register after a text and a space.
fn accumulate_text(register: u16, text: &[u8]) -> u16
    ensures after { result ≡ register_after (crc_of register text.now) 32 }
    ensures bytes { All (λ b. b < 256) text.now }
{
    accumulate(crc(register, text), b' ')
}

/// The register after a field's type and name, and after its length where it is an array.
fn accumulate_field(register: u16, field: &Field) -> u16
    ensures after { result ≡ crc_of register (field_bytes field.now) }
    ensures bytes { All (λ b. b < 256) (field_bytes field.now) }
{
    let kind = accumulate_text(register, field.kind);
    let name = accumulate_text(kind, field.name);
    if field.array == 0 {
        name
    } else {
        accumulate(name, field.array)
    }
}

/// The CRC of a description's text from 0xFFFF on.
fn description_crc(description: &Description) -> u16
    ensures after { result ≡ crc_of 0xFFFF (description_bytes description.now) }
    ensures bytes { All (λ b. b < 256) (description_bytes description.now) }
{
    let mut register = accumulate_text(0xFFFF, description.name);
    for field in description.fields {
        register = accumulate_field(register, field);
    }
    register
}

/// CRC_EXTRA of a message: frames of a message that is described otherwise fail their CRC.
pub fn extra_of(description: &Description) -> u8
    ensures divided { IsExtra (description_bytes description.now) result }
    ensures chained { result ≡ extra_byte (crc_of 0xFFFF (description_bytes description.now)) }
{
    let crc = description_crc(description);
    (crc % 256) as u8 ^ (crc / 256) as u8
}

#[cfg(test)]
mod tests {
    use super::*;

    macro_rules! field {
        ($kind:literal $name:literal) => {
            Field {
                kind: $kind,
                name: $name,
                array: 0,
            }
        };
    }

    #[test]
    fn gives_the_check_value_of_the_catalogue(rt: HostRuntime) {
        assert_eq!(rt; crc(0xFFFF, b"123456789"), 0x6F91);
    }

    #[test]
    fn gives_the_extra_of_heartbeat(rt: HostRuntime) {
        let fields = &[
            field!(b"uint32_t" b"custom_mode"),
            field!(b"uint8_t" b"type"),
            field!(b"uint8_t" b"autopilot"),
            field!(b"uint8_t" b"base_mode"),
            field!(b"uint8_t" b"system_status"),
            field!(b"uint8_t" b"mavlink_version"),
        ];
        let heartbeat = Description {
            name: b"HEARTBEAT",
            fields,
        };
        assert_eq!(rt; extra_of(&heartbeat), 50);
    }
}
