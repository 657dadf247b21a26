// One turn of the walk over a base's gaps.
ghost use Rattle.std.specs.Prelude.{◌≡◌};
ghost use Rattle.spans.specs.Turn.{gap_end, next_place};

use crate::Span;

// Where the gap ends that is open at a place of the walk when it comes to a record.
pub fn gap_end(place: u64, r: Span) -> u64
    ensures { result ≡ gap_end place r }
{
    r.start
}

// The walk's place behind a record.
pub fn next_place(place: u64, r: Span) -> u64
    ensures { result ≡ next_place place r }
{
    r.stop
}
