//! Six areas share the storage; each has up to three spans of bytes, in the order of its places.
ghost use Rattle.std.specs.Prelude.{◌≡◌, ◌≢◌, ◌<◌, ◌≤◌, ◌+◌, ℕ, MatchOption};
ghost use Rattle.storage_lines.specs.Areas.{span, spans, spans_of, total_size, place_in, IsAscending};

use crate::lines::STORAGE_BYTES;

/// What a region of the storage is for.
#[derive(Clone, Copy, Debug, PartialEq, Eq, Drop)]
pub enum Area {
    /// Parameters: 9,728 bytes.
    Param,
    /// The mission's commands: 4,638 bytes.
    Mission,
    /// Rally points: 450 bytes.
    Rally,
    /// The fence: 416 bytes.
    Fence,
    /// The key and time stamp of signed frames: 64 bytes.
    Keys,
    /// What a radio was bound to: 56 bytes.
    Bind,
}

/// A run of bytes of the storage.
#[derive(Clone, Copy)]
pub struct Span {
    pub start: u16,
    pub size: u16,
}

/// The spans of an area, in the order of its places; an area that has fewer ends with empty ones.
#[derive(Clone, Copy)]
pub struct Spans {
    pub first: Span,
    pub second: Span,
    pub third: Span,
}

const fn span_at(start: u16, size: u16) -> Span
    ensures { result ≡ span start size }
{
    Span { start, size }
}

const fn chain(first: Span, second: Span, third: Span) -> Spans
    ensures { result ≡ spans first second third }
{
    Spans {
        first,
        second,
        third,
    }
}

/// Where the area's bytes lie. Places 8,184 to 8,191 belong to no area.
pub fn spans_of(area: Area) -> Spans
    ensures spans { result ≡ spans_of area }
    ensures ascending { IsAscending result }
{
    let none = span_at(STORAGE_BYTES as u16, 0);
    match area {
        Area::Param => chain(span_at(0, 1280), span_at(4096, 1280), span_at(8192, 7168)),
        Area::Mission => chain(span_at(1280, 2506), span_at(5932, 2132), none),
        Area::Rally => chain(span_at(3786, 150), span_at(5376, 300), none),
        Area::Fence => chain(span_at(3936, 160), span_at(5676, 256), none),
        Area::Keys => chain(span_at(8064, 64), none, none),
        Area::Bind => chain(span_at(8128, 56), none, none),
    }
}

/// How many bytes the spans have together.
pub fn total_size(spans: &Spans) -> usize
    requires { IsAscending spans.now }
    ensures size { result ≡ total_size spans.now }
    ensures most { result ≤ STORAGE_BYTES }
{
    spans.first.size as usize + spans.second.size as usize + spans.third.size as usize
}

/// The place in the storage of the byte with a logical place: these run through the spans in order.
pub fn place_in(spans: &Spans, i: usize) -> usize
    requires ascending { IsAscending spans.now }
    requires inside { i < total_size spans.now }
    ensures place { result ≡ place_in spans.now i }
    ensures inside { result < STORAGE_BYTES }
{
    let first = spans.first.size as usize;
    let second = spans.second.size as usize;
    if i < first {
        spans.first.start as usize + i
    } else if i < first + second {
        spans.second.start as usize + (i - first)
    } else {
        spans.third.start as usize + (i - first - second)
    }
}

/// Which of the span's bytes lies at a place.
fn in_span(span: &Span, k: usize) -> Option<usize>
    ensures { MatchOption result ((i : ℕ) → i < span.now.size → span.now.start + i ≢ k)
        (λ i. (i < span.now.size) × (span.now.start + i ≡ k)) }
{
    let start = span.start as usize;
    if k >= start && k - start < span.size as usize {
        Some(k - start)
    } else {
        None
    }
}

/// Which of the spans' bytes lies at a place.
pub fn logical_at(spans: &Spans, k: usize) -> Option<usize>
    requires ascending { IsAscending spans.now }
    ensures { MatchOption result ((i : ℕ) → i < total_size spans.now → place_in spans.now i ≢ k)
        (λ i. (i < total_size spans.now) × (place_in spans.now i ≡ k)) }
{
    let first = spans.first.size as usize;
    let second = spans.second.size as usize;
    if let Some(i) = in_span(&spans.first, k) {
        Some(i)
    } else if let Some(i) = in_span(&spans.second, k) {
        Some(first + i)
    } else if let Some(i) = in_span(&spans.third, k) {
        Some(first + second + i)
    } else {
        None
    }
}
