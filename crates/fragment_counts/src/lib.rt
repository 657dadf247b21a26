// How many fragments and pieces a rule gives, and the answer by them: which calls are refused.
#![tactic(auto)]

ghost use Rattle.std.specs.Prelude.{◌≡◌, ◌≤◌, length};
ghost use Rattle.spans.specs.Records.{spans_of};
ghost use Rattle.layouts.specs.Fragments.{gaps};
ghost use Rattle.layouts.specs.Given.{given, all_given, bases};
ghost use Rattle.layouts.specs.Layout.{layout};
ghost use Rattle.layouts.specs.Judged.{all_fitting, judged};

use fragment_rules::{Giving, Parting, Rule};
use layouts::{Refusal, Written};
use spans::{Records, Span, gap_end, is_fitting, next_place, outside_count, stretch_count};

// How many pieces a record gives.
pub fn piece_count(giving: Giving, base: Span, r: Span) -> usize
    ensures { (result ≡ length (given giving base r)) × (result ≤ 2) }
{
    match giving {
        Giving::Nothing => 0,
        Giving::Record | Giving::Clip => 1,
        Giving::Outside => outside_count(base, r),
    }
}

// How many pieces all records give. `put_all` has the walk, too: it writes, and this one counts with nothing lent.
// A sum of `map(..)` was tried: its proof did not close.
fn count_pieces(giving: Giving, base: Span, records: Records) -> usize
    ensures { result ≡ length (all_given giving base (spans_of records.entry)) }
{
    let mut n: usize = 0;
    for r in records {
        n += piece_count(giving, base, r);
    }
    n
}

// How many gaps the base has.
fn count_gaps(base: Span, records: Records) -> usize
    ensures { result ≡ length (gaps base (spans_of records.entry)) }
{
    let end = base.stop;
    let mut place = base.start;
    let mut n: usize = 0;
    for r in records {
        n += stretch_count(place, gap_end(place, r));
        place = next_place(place, r);
    }
    n + stretch_count(place, end)
}

// Whether every record fits the base and the record ahead of it.
fn are_fitting(base: Span, records: Records) -> bool
    ensures { result ≡ all_fitting base 0 (spans_of records.entry) }
{
    let mut ahead: u64 = 0;
    for r in records {
        if !is_fitting(base, ahead, r) {
            return false;
        }
        ahead = r.start;
    }
    true
}

// How many fragments there are.
#[tactic(auto, unfolding(layouts::specs::Given::bases))]
fn fragment_count(parting: Parting, base: Span, records: Records) -> usize
    ensures { result ≡ length (bases parting base (spans_of records.entry)) }
{
    match parting {
        Parting::Bare | Parting::Single => 1,
        Parting::EachRecord => records.len().max(1),
        Parting::EachClip => records.len(),
        Parting::EachGap => count_gaps(base, records),
    }
}

// How many pieces are written for n fragments.
fn piece_total(n: usize, rule: Rule, base: Span, records: Records) -> usize
    requires { n ≡ length (layout rule base (spans_of records)).bases }
    ensures { result ≡ length (layout rule base (spans_of records.entry)).pieces }
{
    if n == 0 {
        0
    } else {
        count_pieces(rule.1, base, records)
    }
}

// The answer at a rule, with so many slots lent for fragments and for pieces.
pub fn judge(
    rule: Rule,
    base: Span,
    records: Records,
    slots: usize,
    room: usize,
) -> Result<Written, Refusal>
    ensures { result ≡ judged rule base (spans_of records.entry) slots room }
{
    if base.stop < base.start {
        return Err(Refusal::Backwards);
    }
    if !are_fitting(base, records) {
        return Err(Refusal::Records);
    }
    let fragments = fragment_count(rule.0, base, records);
    let pieces = piece_total(fragments, rule, base, records);
    if slots < fragments || room < pieces {
        return Err(Refusal::Room);
    }
    Ok(Written { fragments, pieces })
}
