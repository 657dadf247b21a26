// Spans written to two lent columns, one behind the other: the pieces of records, the gaps of a base, the ranges of pieces.
// The two columns of a call stay apart: a struct that holds `&mut` slices must say in each clause whose slice it still holds, so each clause here would get one part longer.
#![tactic(auto)]

ghost use Rattle.std.specs.Prelude.{◌≡◌, [], ◌∷◌, ◌<◌, ◌≤◌, length, replicate};
ghost use Rattle.spans.specs.Spans.{stretch};
ghost use Rattle.spans.specs.Records.{spans_of};
ghost use Rattle.layouts.specs.Fragments.{gaps};
ghost use Rattle.layouts.specs.Given.{given, all_given};
ghost use Rattle.layouts.specs.Layout.{owned};
ghost use Rattle.span_columns.specs.Writing.{Fits, Puts, Fronts};

use fragment_counts::piece_count;
use fragment_rules::Giving;
use spans::{Records, Span, after_begin, before_end, clip, gap_end, next_place};

// One span more in two columns, at a place; the next place.
fn put_span(x: Span, at: usize, starts: &mut [u64], stops: &mut [u64]) -> usize
    requires { (at < length starts.old) × (at < length stops.old) }
    ensures { Puts (x ∷ []) at starts.old stops.old result starts.new stops.new }
{
    starts[at] = x.start;
    stops[at] = x.stop;
    at + 1
}

// The stretch from one place up to another, where it is not empty, behind what stands in two columns.
fn put_stretch(a: u64, e: u64, at: usize, starts: &mut [u64], stops: &mut [u64]) -> usize
    requires { Fits (stretch a e) at starts.old stops.old }
    ensures { Puts (stretch a e) at starts.old stops.old result starts.new stops.new }
{
    if a < e {
        put_span(Span { start: a, stop: e }, at, starts, stops)
    } else {
        at
    }
}

// The parts of a record before the base and after it, behind what stands in two columns.
fn put_outside(base: Span, r: Span, at: usize, starts: &mut [u64], stops: &mut [u64]) -> usize
    requires { Fits (given Giving.Outside base r) at starts.old stops.old }
    ensures { Puts (given Giving.Outside base r) at starts.old stops.old result starts.new stops.new }
{
    let middle = put_stretch(r.start, before_end(base, r), at, starts, stops);
    put_stretch(after_begin(base, r), r.stop, middle, starts, stops)
}

// The pieces of a record, behind what stands in two columns.
fn put_pieces(
    giving: Giving,
    base: Span,
    r: Span,
    at: usize,
    starts: &mut [u64],
    stops: &mut [u64],
) -> usize
    requires { Fits (given giving base r) at starts.old stops.old }
    ensures { Puts (given giving base r) at starts.old stops.old result starts.new stops.new }
{
    match giving {
        Giving::Nothing => at,
        Giving::Record => put_span(r, at, starts, stops),
        Giving::Clip => put_span(clip(base, r), at, starts, stops),
        Giving::Outside => put_outside(base, r, at, starts, stops),
    }
}

// The pieces of all records, from the front of two columns on; how many.
// The walk stands here and in `count_pieces`: that one counts with nothing lent, for the answer, and this one writes.
pub fn put_all(
    giving: Giving,
    base: Span,
    records: Records,
    starts: &mut [u64],
    stops: &mut [u64],
) -> usize
    requires { Fits (all_given giving base (spans_of records)) 0 starts.old stops.old }
    ensures { Puts (all_given giving base (spans_of records.entry)) 0 starts.old stops.old result starts.new stops.new }
{
    let mut at: usize = 0;
    for r in records {
        at = put_pieces(giving, base, r, at, starts, stops);
    }
    at
}

// The gaps of the base, from the front of two columns on; how many.
// The walk stands here and in `count_gaps`: gaps as an iterator would need a loop of its own in `next`, past empty stretches, and be no plainer than both.
pub fn put_gaps(base: Span, records: Records, starts: &mut [u64], stops: &mut [u64]) -> usize
    requires { Fits (gaps base (spans_of records)) 0 starts.old stops.old }
    ensures { Puts (gaps base (spans_of records.entry)) 0 starts.old stops.old result starts.new stops.new }
{
    let end = base.stop;
    let mut place = base.start;
    let mut at: usize = 0;
    for r in records {
        at = put_stretch(place, gap_end(place, r), at, starts, stops);
        place = next_place(place, r);
    }
    put_stretch(place, end, at, starts, stops)
}

// The range of each record's own pieces, where the pieces of all records stand one behind the other; how many ranges.
pub fn put_ranges(
    giving: Giving,
    base: Span,
    records: Records,
    from: &mut [u64],
    to: &mut [u64],
) -> usize
    requires { Fits (spans_of records) 0 from.old to.old }
    ensures { Puts (owned (given giving base) 0 (spans_of records.entry)) 0 from.old to.old result from.new to.new }
{
    let mut done: usize = 0;
    let mut at: usize = 0;
    for r in records {
        let next = at + piece_count(giving, base, r);
        let range = Span {
            start: at as u64,
            stop: next as u64,
        };
        done = put_span(range, done, from, to);
        at = next;
    }
    done
}

// Two values in the first n places of two columns.
pub fn fill_both(n: usize, v: u64, w: u64, starts: &mut [u64], stops: &mut [u64])
    requires { (n ≤ length starts.old) × (n ≤ length stops.old) }
    ensures { Fronts (replicate n v) (replicate n w) starts.old stops.old starts.new stops.new }
{
    starts[..n].fill(v);
    stops[..n].fill(w);
}
