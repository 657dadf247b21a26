// The layout of a rule, written to the lent columns.
// The seven columns that are written stay apart: a struct that holds `&mut` slices must say in each clause whose slice it still holds.
#![tactic(auto)]

ghost use Rattle.std.specs.Prelude.{◌≡◌, map, ◌≤◌, length};
ghost use Rattle.spans.specs.Records.{spans_of};
ghost use Rattle.layouts.specs.Given.{bases, mark_of};
ghost use Rattle.layouts.specs.Layout.{owning, layout};
ghost use Rattle.layouts.specs.Columns.{starts_of, stops_of, part_start, part_stop, columns, holding};
ghost use Rattle.span_columns.specs.Writing.{Fronts};
ghost use Rattle.fragment_columns.specs.Ready.{Ready};

use fragment_rules::{Giving, Parting, Rule};
use layouts::Written;
use span_columns::{fill_both, put_all, put_gaps, put_ranges};
use spans::{Records, Span};

// Whether the base is present in the fragments, as the lent column `present` holds it: 1, or 0.
fn mark_of(parting: Parting) -> u64
    ensures { result ≡ mark_of parting }
{
    match parting {
        Parting::Bare => 0,
        _ => 1,
    }
}

// Whether each fragment has the pieces of its own record alone, with n records.
fn is_owning(parting: Parting, n: usize) -> bool
    ensures { result ≡ owning parting n }
{
    parting == Parting::EachRecord && 0 < n
}

// The base parts of n fragments, in front of their two columns.
#[tactic(auto, unfolding(layouts::specs::Given::bases))]
fn lay_parts(
    n: usize,
    parting: Parting,
    base: Span,
    records: Records,
    bstart: &mut [u64],
    bstop: &mut [u64],
)
    requires { (n ≡ length (bases parting base (spans_of records))) × (n ≤ length bstart.old) × (n ≤ length bstop.old) }
    ensures { Fronts (map part_start (bases parting base (spans_of records.entry))) (map part_stop (bases parting base (spans_of records.entry)))
        bstart.old bstop.old bstart.new bstop.new }
{
    match parting {
        Parting::Bare => fill_both(n, 0, 0, bstart, bstop),
        Parting::Single | Parting::EachRecord => {
            fill_both(n, base.start, base.stop, bstart, bstop)
        }
        Parting::EachClip => {
            put_all(Giving::Clip, base, records, bstart, bstop);
        }
        Parting::EachGap => {
            put_gaps(base, records, bstart, bstop);
        }
    }
}

// The ranges of the fragments, in front of their two columns.
fn lay_ranges(
    counts: Written,
    rule: Rule,
    base: Span,
    records: Records,
    from: &mut [u64],
    to: &mut [u64],
)
    requires { (counts.fragments ≡ length (layout rule base (spans_of records)).bases) × (counts.pieces ≡ length (layout rule base (spans_of records)).pieces)
        × (counts.fragments ≤ length from.old) × (counts.fragments ≤ length to.old) }
    ensures { Fronts (starts_of (layout rule base (spans_of records.entry)).ranges) (stops_of (layout rule base (spans_of records.entry)).ranges)
        from.old to.old from.new to.new }
{
    if is_owning(rule.0, records.len()) {
        put_ranges(rule.1, base, records, from, to);
        return;
    }
    fill_both(counts.fragments, 0, counts.pieces as u64, from, to);
}

// The pieces of n fragments, in front of their two columns.
fn lay_pieces(
    n: usize,
    rule: Rule,
    base: Span,
    records: Records,
    pstart: &mut [u64],
    pstop: &mut [u64],
)
    requires { (n ≡ length (layout rule base (spans_of records)).bases)
        × (length (layout rule base (spans_of records)).pieces ≤ length pstart.old) × (length (layout rule base (spans_of records)).pieces ≤ length pstop.old) }
    ensures { Fronts (starts_of (layout rule base (spans_of records.entry)).pieces) (stops_of (layout rule base (spans_of records.entry)).pieces)
        pstart.old pstop.old pstart.new pstop.new }
{
    if n == 0 {
        return;
    }
    put_all(rule.1, base, records, pstart, pstop);
}

// The fragments and pieces of a rule, as many as `counts` says, in front of the seven columns.
pub fn lay(
    counts: Written,
    rule: Rule,
    base: Span,
    records: Records,
    present: &mut [u64],
    bstart: &mut [u64],
    bstop: &mut [u64],
    from: &mut [u64],
    to: &mut [u64],
    pstart: &mut [u64],
    pstop: &mut [u64],
)
    requires { Ready counts.fragments counts.pieces (layout rule base (spans_of records)) (columns present.old bstart.old bstop.old from.old to.old pstart.old pstop.old) }
    ensures { columns present.new bstart.new bstop.new from.new to.new pstart.new pstop.new
        ≡ holding (layout rule base (spans_of records.entry))
        (columns present.old bstart.old bstop.old from.old to.old pstart.old pstop.old) }
{
    let n = counts.fragments;
    present[..n].fill(mark_of(rule.0));
    lay_parts(n, rule.0, base, records, bstart, bstop);
    lay_ranges(counts, rule, base, records, from, to);
    lay_pieces(n, rule, base, records, pstart, pstop);
}
