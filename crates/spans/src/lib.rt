// What one base and one record give by themselves: the clip, the record's parts outside the base, one turn of the walk over gaps, and whether the record fits;
// and one stream's records, lent as two columns.
#![tactic(auto)]

mod records;
mod turn;

ghost use Rattle.std.specs.Prelude.{◌≡◌, ◌++◌, ◌≤◌, min, max, length};
ghost use Rattle.spans.specs.Spans.{stretch, clipped, before, after};
ghost use Rattle.spans.specs.Fitting.{fitting};

pub use records::{Records, Rows};
pub use turn::{gap_end, next_place};

// A start and a stop; the stop is not part of it.
#[derive(Clone, Copy)]
pub struct Span {
    pub start: u64,
    pub stop: u64,
}

// The larger start and the smaller stop of two spans.
pub fn clip(base: Span, r: Span) -> Span
    ensures { result ≡ clipped base r }
{
    Span {
        start: base.start.max(r.start),
        stop: base.stop.min(r.stop),
    }
}

// Where the part of a record ends that lies before the base; it begins at the record's start.
pub fn before_end(base: Span, r: Span) -> u64
    ensures { result ≡ min r.stop base.start }
{
    r.stop.min(base.start)
}

// Where the part of a record begins that lies after the base; it ends at the record's stop.
pub fn after_begin(base: Span, r: Span) -> u64
    ensures { result ≡ max r.start base.stop }
{
    r.start.max(base.stop)
}

// How many spans the stretch from one place up to another is: one, or none where it is empty.
pub fn stretch_count(a: u64, e: u64) -> usize
    ensures { (result ≡ length (stretch a e)) × (result ≤ 1) }
{
    (a < e) as usize
}

// How many parts of a record lie outside the base.
pub fn outside_count(base: Span, r: Span) -> usize
    ensures { (result ≡ length (before base r ++ after base r)) × (result ≤ 2) }
{
    stretch_count(r.start, before_end(base, r)) + stretch_count(after_begin(base, r), r.stop)
}

// Whether a record fits a base and the record ahead, which started at `ahead`.
pub fn is_fitting(base: Span, ahead: u64, r: Span) -> bool
    ensures { result ≡ fitting base ahead r }
{
    r.start <= r.stop && r.start < base.stop && base.start < r.stop && ahead <= r.start
}
