// Prints the fragments of all twenty-five pairs of choices for a handful of bases and records, then calls that are refused.
// A pair's line: its two choices, how many fragments and pieces, then each fragment: its base part, or `-`, and its pieces.
#![tactic(auto)]

use parts::{Choice, Refusal, Span, Written};
use std::io;
use tests_shared::{at, part_mut};

const CHOICES: [Choice; 5] = [
    Choice::None,
    Choice::Whole,
    Choice::WholeWide,
    Choice::Piece,
    Choice::Inverse,
];

// A base and its records, in two columns that need not be of one length.
#[derive(Clone, Copy)]
struct Given<'a> {
    base: Span,
    starts: &'a [u64],
    stops: &'a [u64],
}

// A base with these records.
fn records<'a>(base: Span, starts: &'a [u64], stops: &'a [u64]) -> Given<'a> {
    Given {
        base,
        starts,
        stops,
    }
}

// The columns that are lent for fragments and for pieces: 7 stands in each place before. (oracle_parts' own has more slots and starts from zeros: one
// type for both would take two sizes and what stands there first.)
#[derive(Clone, Copy)]
struct Lent {
    present: [u64; 8],
    bstart: [u64; 8],
    bstop: [u64; 8],
    from: [u64; 8],
    to: [u64; 8],
    pstart: [u64; 16],
    pstop: [u64; 16],
}

impl Lent {
    // The columns before a call.
    fn new() -> Lent {
        Lent {
            present: [7; 8],
            bstart: [7; 8],
            bstop: [7; 8],
            from: [7; 8],
            to: [7; 8],
            pstart: [7; 16],
            pstop: [7; 16],
        }
    }

    // The fragments of a pair are written, with so many slots for fragments and for pieces, or all there are.
    fn fill(
        &mut self,
        [a, b]: [Choice; 2],
        given: Given,
        slots: usize,
        room: usize,
    ) -> Result<Written, Refusal> {
        parts::fragments(
            a,
            b,
            given.base,
            given.starts,
            given.stops,
            part_mut(&mut self.present, 0, slots),
            part_mut(&mut self.bstart, 0, slots),
            part_mut(&mut self.bstop, 0, slots),
            part_mut(&mut self.from, 0, slots),
            part_mut(&mut self.to, 0, slots),
            part_mut(&mut self.pstart, 0, room),
            part_mut(&mut self.pstop, 0, room),
        )
    }
}

// From a start up to a stop.
fn span(start: u64, stop: u64) -> Span {
    Span { start, stop }
}

// Two numbers, as 5-12, with a space ahead: a start and a stop, or what stands in two columns that make no span, so it is no `Display` of `Span`.
fn say_span(rt: &impl Print, start: u64, stop: u64) -> io::Result<()> {
    print!(rt; " {start}-{stop}")
}

// The spans of two columns from one place up to another.
fn say_spans(
    rt: &impl Print,
    starts: &[u64],
    stops: &[u64],
    from: usize,
    to: usize,
) -> io::Result<()> {
    for i in from..to {
        say_span(rt, at(starts, i), at(stops, i))?;
    }
    Ok(())
}

// A fragment's base part, then its pieces.
fn say_fragment(rt: &impl Print, k: usize, lent: &Lent) -> io::Result<()> {
    print!(rt; " |")?;
    if at(&lent.present, k) == 0 {
        print!(rt; " -")?;
    } else {
        say_span(rt, at(&lent.bstart, k), at(&lent.bstop, k))?;
    }
    print!(rt; " :")?;
    let from = at(&lent.from, k) as usize;
    let to = at(&lent.to, k) as usize;
    say_spans(rt, &lent.pstart, &lent.pstop, from, to)
}

// The first n fragments of the columns.
fn say_fragments(rt: &impl Print, n: usize, lent: &Lent) -> io::Result<()> {
    for k in 0..n {
        say_fragment(rt, k, lent)?;
    }
    Ok(())
}

// One pair: its answer, and its fragments as a caller reads them back.
fn say_pair(rt: &impl Print, [a, b]: [Choice; 2], given: Given) -> io::Result<()> {
    let mut lent = Lent::new();
    let r = lent.fill([a, b], given, 8, 16);
    print!(rt; "{a:?} {b:?} ")?;
    match r {
        Ok(written) => {
            let n = written.fragments;
            let m = written.pieces;
            print!(rt; "{n} {m}")?;
            say_fragments(rt, n, &lent)?;
        }
        Err(_) => {
            let number = parts::number(r);
            print!(rt; "X {number}")?;
        }
    }
    println!(rt)
}

// A base and its records.
fn say_given(rt: &impl Print, given: Given) -> io::Result<()> {
    print!(rt; "base")?;
    say_span(rt, given.base.start, given.base.stop)?;
    print!(rt; " records")?;
    say_spans(rt, given.starts, given.stops, 0, given.starts.len())?;
    println!(rt)
}

// The pairs of one choice for the base.
fn say_row(rt: &impl Print, a: Choice, given: Given) -> io::Result<()> {
    for b in CHOICES {
        say_pair(rt, [a, b], given)?;
    }
    Ok(())
}

// A base and its records, and each pair.
fn say_job(rt: &impl Print, given: Given) -> io::Result<()> {
    say_given(rt, given)?;
    for a in CHOICES {
        say_row(rt, a, given)?;
    }
    Ok(())
}

// A base and its records, and one pair.
fn say_call(rt: &impl Print, given: Given) -> io::Result<()> {
    say_given(rt, given)?;
    say_pair(rt, [Choice::Whole, Choice::Piece], given)
}

// The answer to a call with few slots, and what then stands in the first of each column.
fn say_slots(
    rt: &impl Print,
    pair: [Choice; 2],
    given: Given,
    slots: usize,
    room: usize,
) -> io::Result<()> {
    let mut lent = Lent::new();
    let r = lent.fill(pair, given, slots, room);
    let number = parts::number(r);
    print!(rt; "X {number}")?;
    say_span(rt, lent.present[0], lent.bstart[0])?;
    say_span(rt, lent.bstop[0], lent.from[0])?;
    say_span(rt, lent.to[0], lent.pstart[0])?;
    say_span(rt, lent.pstop[0], lent.pstop[1])?;
    println!(rt)
}

// The scope document's cases, and the one of its change request 3, with that document's walk.
fn say_cases(rt: &impl Print) -> io::Result<()> {
    say_job(rt, records(span(10, 20), &[5, 8], &[12, 25]))?;
    say_job(rt, records(span(0, 20), &[2, 8], &[5, 10]))?;
    say_job(rt, records(span(0, 20), &[2, 4], &[15, 6]))
}

// No records; one that is the base; one that holds it; records and bases of length zero; the largest values.
fn say_edges(rt: &impl Print) -> io::Result<()> {
    const LAST: u64 = u64::MAX;
    say_job(rt, records(span(10, 20), &[], &[]))?;
    say_job(rt, records(span(10, 20), &[10], &[20]))?;
    say_job(rt, records(span(10, 20), &[3], &[30]))?;
    say_job(rt, records(span(3, 8), &[5, 6, 6], &[5, 6, 9]))?;
    say_job(rt, records(span(5, 5), &[3], &[8]))?;
    say_job(rt, records(span(5, 5), &[], &[]))?;
    say_job(
        rt,
        records(
            span(LAST - 2, LAST),
            &[LAST - 15, LAST - 1],
            &[LAST - 1, LAST],
        ),
    )?;
    say_job(rt, records(span(0, LAST), &[0, LAST - 1], &[1, LAST - 1]))
}

// Calls that are refused, one fault each, then two faults at a time; the last is not refused.
fn say_refusals(rt: &impl Print) -> io::Result<()> {
    let base = span(10, 20);
    let backwards = span(20, 10);
    say_call(rt, records(base, &[0], &[10]))?;
    say_call(rt, records(base, &[20], &[30]))?;
    say_call(rt, records(base, &[12], &[11]))?;
    say_call(rt, records(base, &[12, 11], &[15, 16]))?;
    say_call(rt, records(span(5, 5), &[5], &[5]))?;
    say_call(rt, records(backwards, &[12], &[15]))?;
    say_call(rt, records(base, &[12, 13], &[15]))?;
    say_call(rt, records(backwards, &[12, 13], &[15]))?;
    say_call(rt, records(backwards, &[30], &[25]))?;
    say_call(rt, records(base, &[12], &[15]))
}

// Too few slots for the fragments, then for the pieces, then enough of both: the columns held 7 before.
fn say_room(rt: &impl Print) -> io::Result<()> {
    let two = records(span(10, 20), &[5, 8], &[12, 25]);
    say_slots(rt, [Choice::Whole, Choice::Inverse], two, 1, 3)?;
    say_slots(rt, [Choice::Whole, Choice::Inverse], two, 2, 2)?;
    say_slots(rt, [Choice::Whole, Choice::Inverse], two, 2, 3)?;
    say_slots(rt, [Choice::Piece, Choice::Whole], two, 2, 2)?;
    say_slots(
        rt,
        [Choice::Inverse, Choice::Whole],
        records(span(10, 20), &[5], &[25]),
        0,
        0,
    )
}

fn main(rt: HostRuntime) -> io::Result<()> {
    say_cases(&rt)?;
    say_edges(&rt)?;
    say_refusals(&rt)?;
    say_room(&rt)
}
