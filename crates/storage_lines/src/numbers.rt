//! Numbers of one to four bytes, the lowest byte first, with a sign in two's complement or without.

ghost use Rattle.std.specs.Prelude.{◌≡◌, ◌+◌, ◌*◌, ◌^◌, ◌<◌, ◌≤◌, ◌++◌, length, pos, negsuc, ◌≤ℤ◌};
ghost use Rattle.arrayvec.specs.ArrayVec.{array_vec_len};
ghost use Rattle.storage_lines.specs.Numbers.{bytes_of_number, number_of, signed_of, unsigned, FitsBytes};

use arrayvec::ArrayVec;
use byteorder::{ByteOrder, LittleEndian};

/// Appends the lowest one to four bytes of a number that fits them.
pub fn push_number<const N: usize>(bytes: &mut ArrayVec<u8, N>, width: usize, number: u32)
    requires width { (1 ≤ width) × (width ≤ 4) }
    requires fits { number < 256 ^ width }
    requires room { array_vec_len bytes.old + width ≤ N }
    ensures items { bytes.new.items ≡ bytes.old.items ++ bytes_of_number width number }
    ensures len { array_vec_len bytes.new ≡ array_vec_len bytes.old + width }
{
    let mut field = [0; 4];
    LittleEndian::write_uint(&mut field, number as u64, width);
    match bytes.try_extend_from_slice(&field[..width]) {
        Ok(()) => {}
        Err(_) => unreachable!(),
    }
}

/// The number of one to four bytes.
pub fn number_of(bytes: &[u8]) -> u32
    requires { (1 ≤ length bytes.now) × (length bytes.now ≤ 4) }
    ensures value { result ≡ number_of bytes.now }
    ensures bound { result < 256 ^ length bytes.now }
{
    LittleEndian::read_uint(bytes, bytes.len()) as u32
}

/// How many numbers so many bytes have.
fn unit(width: usize) -> u64
    requires { (1 ≤ width) × (width ≤ 4) }
    ensures value { result ≡ 256 ^ width }
    ensures bound { result ≤ 2 ^ 32 }
{
    match width {
        1 => 0x100,
        2 => 0x1_0000,
        3 => 0x100_0000,
        _ => 0x1_0000_0000,
    }
}

/// The number's two's complement in so many bytes.
pub fn unsigned(width: usize, number: i32) -> u32
    requires width { (1 ≤ width) × (width ≤ 4) }
    requires fits { FitsBytes width number }
    ensures value { result ≡ unsigned width number }
    ensures bound { result < 256 ^ width }
{
    let unit = unit(width);
    if number < 0 {
        (unit - number.unsigned_abs() as u64) as u32
    } else {
        number as u32
    }
}

/// The number of a two's complement in so many bytes.
pub fn signed_of(width: usize, word: u32) -> i32
    requires width { (1 ≤ width) × (width ≤ 4) }
    requires fits { word < 256 ^ width }
    ensures { result ≡ signed_of width word }
{
    let unit = unit(width);
    if 2 * (word as u64) < unit {
        word as i32
    } else {
        -((unit - word as u64) as i64) as i32
    }
}
