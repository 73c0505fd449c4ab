//! Reading the stored fence: records up to the first place where no whole record begins.

ghost use Rattle.std.specs.Prelude.{◌≡◌, ◌+◌, ◌-◌, ◌*◌, ◌<◌, ◌≤◌, ◌++◌, length, take, drop, map};
ghost use Rattle.std.specs.Prelude.{slice_index, List, ℕ, MatchOption, IfSome, [], ◌∷◌};
ghost use Rattle.std.specs.Prelude.{if◌then◌else◌};
ghost use Rattle.arrayvec.specs.ArrayVec.{array_vec_len};
ghost use Rattle.storage_lines.specs.declared.lines.TheConstants.{STORAGE_BYTES};
ghost use Rattle.fence_records.specs.declared.TheConstants.{FENCE_BYTES};
ghost use Rattle.fence_records.specs.Write.{fence_area};
ghost use Rattle.fence_records.specs.Lists.{fence_of};
ghost use Rattle.fence_records.specs.Fence.{Figure, IsFigure, IsFenceEnd, IsFence, item, items_of};
ghost use Rattle.fence_records.specs.Fence.{record_of, point_of, points_from};

use crate::FENCE_BYTES;
use crate::items::{FenceItem, Point};
use arrayvec::ArrayVec;
use storage_lines::numbers::{number_of, signed_of};
use storage_lines::{Area, read};
use word_bits::bits_of;

/// The place in the first eight bytes.
fn point_of(bytes: &[u8]) -> Point
    requires { 8 ≤ length bytes.now }
    ensures { result ≡ point_of bytes.now }
{
    Point {
        x: signed_of(4, number_of(&bytes[..4])),
        y: signed_of(4, number_of(&bytes[4..8])),
    }
}

/// Appends an item at the point.
fn push_item(command: u16, param1: u32, point: Point, items: &mut ArrayVec<FenceItem, 52>)
    requires { array_vec_len items.old + 1 ≤ 52 }
    ensures items { items.new.items ≡ items.old.items ++ item command param1 point ∷ [] }
    ensures len { array_vec_len items.new ≡ array_vec_len items.old + 1 }
{
    items.push(FenceItem {
        command,
        param1,
        x: point.x,
        y: point.y,
    });
}

/// Appends an item at each of so many points.
fn push_points(
    bytes: &[u8],
    count: usize,
    command: u16,
    param1: u32,
    items: &mut ArrayVec<FenceItem, 52>,
)
    requires bytes { 8 * count ≤ length bytes.now }
    requires room { array_vec_len items.old + count ≤ 52 }
    ensures items { items.new.items ≡
        items.old.items ++ map (item command param1) (points_from count bytes.now) }
    ensures len { array_vec_len items.new ≡ array_vec_len items.old + count }
{
    for index in 0..count {
        push_item(command, param1, point_of(&bytes[8 * index..]), items);
    }
}

/// The second byte, or 0 where there is none.
fn count_of(bytes: &[u8]) -> usize
    ensures value { result ≡ slice_index bytes.now 1 }
    ensures bound { result < 256 }
{
    if bytes.len() < 2 {
        0
    } else {
        bytes[1] as usize
    }
}

/// The first number, or the second.
fn choice(first: bool, a: u16, b: u16) -> u16
    ensures { result ≡ (if first then a else b) }
{
    if first { a } else { b }
}

/// Reads the record that the bytes begin with, appends its items, and gives its length.
fn read_record(bytes: &[u8], items: &mut ArrayVec<FenceItem, 52>) -> Option<usize>
    requires { 8 * array_vec_len items.old + length bytes.now ≤ FENCE_BYTES }
    ensures figure { MatchOption result
        (IsFenceEnd bytes.now × (items.new.items ≡ items.old.items))
        (λ n. (f : Figure) × (IsFigure f) × (take n bytes.now ≡ record_of f)
        × (items.new.items ≡ items.old.items ++ items_of f)) }
    ensures size { IfSome result (λ n. (2 ≤ n) × (n ≤ length bytes.now)
        × (8 * array_vec_len items.new + (length bytes.now - n) ≤ FENCE_BYTES)) }
{
    if bytes.is_empty() {
        return None;
    }
    match bytes[0] {
        97 | 98 => {
            let count = count_of(bytes);
            if bytes.len() < 2 + 8 * count {
                return None;
            }
            let command = choice(bytes[0] == 98, 5001, 5002);
            push_points(&bytes[2..], count, command, bits_of(count as i32), items);
            Some(2 + 8 * count)
        }
        92 | 93 => {
            if bytes.len() < 13 {
                return None;
            }
            let command = choice(bytes[0] == 92, 5003, 5004);
            push_item(
                command,
                number_of(&bytes[9..13]),
                point_of(&bytes[1..]),
                items,
            );
            Some(13)
        }
        95 => {
            if bytes.len() < 9 {
                return None;
            }
            push_item(5000, 0, point_of(&bytes[1..]), items);
            Some(9)
        }
        _ => None,
    }
}

/// The items that the fence's area holds.
fn parse_area(area: &[u8]) -> ArrayVec<FenceItem, 52>
    requires { length area.now ≡ FENCE_BYTES }
    ensures { IsFence area.now result.items }
{
    let mut items = ArrayVec::new();
    if area[..4] != [0xEB, 0, 0, 0] {
        return items;
    }
    let mut at = 4;
    while let Some(size) = read_record(&area[at..], &mut items) {
        at += size;
    }
    items
}

/// The items of the stored fence, in storage order: a vertex with its polygon's count as param1, a
/// return point with 0.
pub fn parse(current: &[u8]) -> ArrayVec<FenceItem, 52>
    requires { length current.now ≡ STORAGE_BYTES }
    ensures fence { IsFence (fence_area current.now) result.items }
    ensures value { result.items ≡ fence_of current.now }
{
    let mut area = [0; FENCE_BYTES];
    read(Area::Fence, 0, current, &mut area);
    parse_area(&area)
}
