//! The rule for a whole list of items: circles, return points and whole polygons.

ghost use Rattle.std.specs.Prelude.{◌≡◌, ◌≢◌, ◌<◌, ◌≤◌, ◌++◌, List, length, take, All, MatchOption};
ghost use Rattle.std.specs.Prelude.{MatchBool, MatchResult, count_by};
ghost use Rattle.fence_records.specs.declared.items.FenceItem.{FenceItem};
ghost use Rattle.fence_records.specs.Cut.{AreOneFigure, IsCut, IsAlike, IsAllowedFence, is_return};

use crate::items::{FenceItem, Kind, kind_of};
use word_bits::whole_of;

/// Whether all the items are of the first one's polygon.
fn are_alike(first: &FenceItem, items: &[FenceItem]) -> bool
    ensures { MatchBool result
        (All (IsAlike first.now) items.now) (¬ All (IsAlike first.now) items.now) }
{
    items.iter().all(|item| item.command == first.command && item.param1 == first.param1)
}

/// How many items the first circle, return point or polygon has.
pub fn run_length(items: &[FenceItem]) -> Option<usize>
    requires { 0 < length items.now }
    ensures { MatchOption result
        ((run rest : List FenceItem) → AreOneFigure run → items.now ≢ run ++ rest)
        (λ n. (0 < n) × (n ≤ length items.now) × AreOneFigure (take n items.now)) }
{
    let first = items[0];
    match kind_of(first.command) {
        Kind::Return => Some(1),
        Kind::Circle => Some(1),
        Kind::Unknown => None,
        Kind::Vertex => {
            let Some(count) = whole_of(first.param1) else {
                return None;
            };
            if count < 3 || count > 51 || count as usize > items.len() {
                return None;
            }
            if are_alike(&first, &items[1..count as usize]) {
                Some(count as usize)
            } else {
                None
            }
        }
    }
}

/// Whether the items are circles, return points and polygons, one after another.
fn is_cut(items: &[FenceItem]) -> bool
    ensures { MatchBool result (IsCut items.now) (¬ IsCut items.now) }
{
    if items.is_empty() {
        return true;
    }
    match run_length(items) {
        Some(size) => is_cut(&items[size..]),
        None => false,
    }
}

/// How many return points there are.
fn returns_of(items: &[FenceItem]) -> usize
    ensures { result ≡ count_by is_return items.now }
{
    items.iter().filter(|item| item.command == 5000).count()
}

/// Tests a list of items as a fence: 5 (MAV_MISSION_INVALID) exactly where it isn't cut into
/// circles, return points and runs of 3 to 51 vertices with one command and one count, or has more
/// than one return point.
pub fn check(items: &[FenceItem]) -> Result<(), u8>
    ensures { MatchResult result
        (λ _. IsAllowedFence items.now) (λ e. (e ≡ 5) × (¬ IsAllowedFence items.now)) }
{
    if !is_cut(items) {
        return Err(5);
    }
    if returns_of(items) > 1 {
        return Err(5);
    }
    Ok(())
}
