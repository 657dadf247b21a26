// Fragments: what a base and one stream's records overlapping it come to, under a choice for the base (A) and one for the records (B).
#![tactic(auto)]

ghost use Rattle.std.specs.Prelude.{◌≡◌};
ghost use Rattle.layouts.specs.Columns.{columns};
ghost use Rattle.parts.specs.Valid.{number_of};
ghost use Rattle.parts.specs.Promise.{Parted};

use fragment_columns::lay;
use fragment_counts::judge;
pub use fragment_rules::Choice;
use fragment_rules::rule_of;
pub use layouts::{Refusal, Written};
use spans::Records;
pub use spans::Span;

// The fragments of a base and one stream's records, under a choice for the base and one for the records. Fragment k has the base part
// `bstart[k]` to `bstop[k]` if `present[k]` is 1, and none if it is 0; its pieces stand at `from[k]` up to, not including, `to[k]` of
// `pstart` and `pstop`. Fragments that have the same pieces name the same range. A refusal writes nothing.
// The columns come one by one, and not as `Records` or another struct: `Parted` promises a refusal where they differ in length, and names each that is written.
pub fn fragments(
    a: Choice,
    b: Choice,
    base: Span,
    starts: &[u64],
    stops: &[u64],
    present: &mut [u64],
    bstart: &mut [u64],
    bstop: &mut [u64],
    from: &mut [u64],
    to: &mut [u64],
    pstart: &mut [u64],
    pstop: &mut [u64],
) -> Result<Written, Refusal>
    ensures { Parted a b base starts.now stops.now
        (columns present.old bstart.old bstop.old from.old to.old pstart.old pstop.old)
        result (columns present.new bstart.new bstop.new from.new to.new pstart.new pstop.new) }
{
    let Some(records) = Records::new(starts, stops) else {
        return Err(Refusal::Sizes);
    };
    let slots = present.len();
    let room = pstart.len();
    if bstart.len() != slots
        || bstop.len() != slots
        || from.len() != slots
        || to.len() != slots
        || pstop.len() != room
    {
        return Err(Refusal::Sizes);
    }
    let rule = rule_of(a, b);
    let counts = judge(rule, base, records, slots, room)?;
    lay(
        counts, rule, base, records, present, bstart, bstop, from, to, pstart, pstop,
    );
    Ok(counts)
}

// The number of an answer in the scope document: 0 where the fragments are written.
pub fn number(r: Result<Written, Refusal>) -> u64
    ensures { result ≡ number_of r }
{
    match r {
        Ok(_) => 0,
        Err(x) => x.number(),
    }
}
