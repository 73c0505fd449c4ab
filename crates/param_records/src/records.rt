//! The records in the parameter storage, one after the other from logical place 4 on, up to the
//! first end.
ghost use Rattle.std.specs.Prelude.{◌≡◌, ◌≤◌, ◌+◌, ◌==◌, ◌&&◌, ◌↔◌, length, take, drop, IsTrue, MatchOption};
ghost use Rattle.storage_lines.specs.Areas.{logical_of};
ghost use Rattle.storage_lines.specs.declared.areas.Area.TheVariants.{Param};
ghost use Rattle.param_records.specs.Lookups.{IsLookup};
ghost use Rattle.param_records.specs.Records.{size_of, kind_with_number, IsEnd, magic, Begins, records_of, end_of, place_from, kind_eq, type_number};

use param_tree::Kind;
use storage_lines::{Area, STORAGE_BYTES, read};

/// The bytes of the parameter storage.
pub const PARAM_BYTES: usize = 9728;

/// The size has this number.
pub fn sizes()
    ensures { PARAM_BYTES ≡ 9728 }
{}

/// What the parameter storage begins with.
pub const MAGIC: [u8; 4] = *b"PA\x06\0";

/// Where the first record begins.
const FIRST: u16 = 4;

/// What the look-up of a record gives.
#[derive(Clone, Copy, Debug, PartialEq, Eq, Drop)]
pub enum Lookup {
    /// The logical place of the value of the first record that matches.
    At(u16),
    /// No record matches: the logical place of the first end, where the next record begins.
    End(u16),
}

/// What stands before a value.
#[derive(Clone, Copy)]
pub struct Header {
    /// The key of the value's group, below 512.
    pub key: u16,
    /// The value's path inside its group, below 2^18.
    pub element: u32,
    pub kind: Kind,
}

/// The kind's type number.
pub fn type_of(kind: Kind) -> u8
    ensures number { result ≡ type_number kind }
{
    match kind {
        Kind::I8 => 1,
        Kind::I16 => 2,
        Kind::I32 => 3,
        Kind::F32 => 4,
        Kind::Vec3 => 5,
    }
}

/// How many bytes a value has.
pub fn size_of(kind: Kind) -> usize
    ensures size { result ≡ size_of kind }
    ensures most { result ≤ 12 }
{
    match kind {
        Kind::I8 => 1,
        Kind::I16 => 2,
        Kind::I32 | Kind::F32 => 4,
        Kind::Vec3 => 12,
    }
}

/// The kind with a type number.
fn kind_of(number: u8) -> Option<Kind>
    ensures { result ≡ kind_with_number number }
{
    match number {
        1 => Some(Kind::I8),
        2 => Some(Kind::I16),
        3 => Some(Kind::I32),
        4 => Some(Kind::F32),
        5 => Some(Kind::Vec3),
        _ => None,
    }
}

/// The four bytes at a logical place.
pub fn four_at(current: &[u8], at: usize) -> [u8; 4]
    requires size { length current.now ≡ STORAGE_BYTES }
    requires inside { at + 4 ≤ PARAM_BYTES }
    ensures { result ≡ take 4 (drop at (logical_of Param current.now)) }
{
    let mut bytes = [0; 4];
    read(Area::Param, at as u16, current, &mut bytes);
    bytes
}

/// Whether the parameter storage begins with the magic, `50 41 06 00`; where it doesn't it has no
/// records.
pub fn has_magic(current: &[u8]) -> bool
    requires { length current.now ≡ STORAGE_BYTES }
    ensures { IsTrue result ↔ (take 4 (logical_of Param current.now) ≡ magic) }
{
    four_at(current, 0) == MAGIC
}

/// The header of the record that begins at a logical place, or None at an end.
pub fn header_at(current: &[u8], at: usize) -> Option<Header>
    requires size { length current.now ≡ STORAGE_BYTES }
    requires inside { at ≤ PARAM_BYTES }
    ensures { let bytes = drop at (logical_of Param current.now) in
        MatchOption result (IsEnd bytes) (λ h. Begins h.key h.element h.kind bytes) }
{
    if at > PARAM_BYTES - 4 {
        return None;
    }
    let bytes = four_at(current, at);
    let kind = kind_of(bytes[1] % 32)?;
    if at + 4 + size_of(kind) > PARAM_BYTES {
        return None;
    }
    Some(Header {
        key: bytes[0] as u16 + 0x100 * (bytes[1] / 32 % 2) as u16,
        element: (bytes[1] / 64) as u32 + 4 * bytes[2] as u32 + 0x400 * bytes[3] as u32,
        kind,
    })
}

/// Whether a record with this header is the one that is looked for.
pub fn is_match(header: &Header, key: u16, element: u32, kind: Kind) -> bool
    ensures { result ≡ ((header.now.key == key)
        && ((header.now.element == element) && kind_eq header.now.kind kind)) }
{
    header.key == key && header.element == element && type_of(header.kind) == type_of(kind)
}

/// Looks for the first record of this key, element and kind.
pub fn look_up(current: &[u8], key: u16, element: u32, kind: Kind) -> Lookup
    requires { length current.now ≡ STORAGE_BYTES }
    ensures { IsLookup (logical_of Param current.now) key element kind result }
{
    if !has_magic(current) {
        return Lookup::End(FIRST);
    }
    let mut at = FIRST as usize;
    while let Some(header) = header_at(current, at) {
        if is_match(&header, key, element, kind) {
            return Lookup::At((at + 4) as u16);
        }
        at += 4 + size_of(header.kind);
    }
    Lookup::End(at as u16)
}

/// The logical place of the value of the first record of this key, element and kind.
pub fn place(current: &[u8], key: u16, element: u32, kind: Kind) -> Option<u16>
    requires { length current.now ≡ STORAGE_BYTES }
    ensures { result ≡ place_from 4 key element kind (records_of (logical_of Param current.now)) }
{
    match look_up(current, key, element, kind) {
        Lookup::At(at) => Some(at),
        Lookup::End(_) => None,
    }
}

/// The logical place of the first end: where the next record begins.
pub fn end_place(current: &[u8]) -> u16
    requires { length current.now ≡ STORAGE_BYTES }
    ensures { result ≡ end_of (logical_of Param current.now) }
{
    if !has_magic(current) {
        return FIRST;
    }
    let mut at = FIRST as usize;
    while let Some(header) = header_at(current, at) {
        at += 4 + size_of(header.kind);
    }
    at as u16
}
