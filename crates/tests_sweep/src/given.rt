// A run begins, and a base is given to it; what comes is written.
use crate::SLOTS;
use crate::cases::{Bench, Memory, Rows};
use fields::NameList;
use rules::{Answer, Base, End, Offer, Settings};
use runs::Run;
use std::io;
use tests_shared::{at, front, name_ends, name_starts, name_text, part_mut};

// What stands in an answer row before a base.
const MARK: u64 = 7777777;

// A stream and a row of it.
fn show_pair(rt: &impl Print, [stream, row]: [u64; 2]) -> io::Result<()> {
    print!(rt; " {stream}/{row}")
}

// The n answer rows, of more than sixteen those and the last.
fn show_rows(rt: &impl Print, n: usize, answers: &[[u64; 2]]) -> io::Result<()> {
    for row in front(answers, n.min(16)) {
        show_pair(rt, *row)?;
    }
    if 16 < n {
        print!(rt; " ..")?;
        show_pair(rt, at(answers, n - 1))?;
    }
    Ok(())
}

// The place offered.
fn show_offer(rt: &impl Print, o: Offer) -> io::Result<()> {
    match o {
        None => print!(rt; ", no place"),
        Some(p) => print!(rt; ", place {} {}", p.chrom.0, p.stop),
    }
}

// What ended the run: its number, for 7 and 8 stream and row.
fn show_end(rt: &impl Print, e: End) -> io::Result<()> {
    match e {
        End::Faulty(s, row) | End::Unsorted(s, row) => {
            print!(rt; "{} at {}/{row}", e.number(), s.0)
        }
        End::NoRoom | End::NoRows => print!(rt; "{}", e.number()),
    }
}

// How many streams and how many row numbers are as they were in the answer rows behind the first n, of those that were lent.
fn show_kept(rt: &impl Print, n: usize, lent: usize, answers: &[[u64; 2]]) -> io::Result<()> {
    let behind = front(answers, lent).get(n..).unwrap_or(&[]);
    let streams = behind.iter().filter(|[stream, _]| *stream == MARK).count();
    let rows = behind.iter().filter(|[_, row]| *row == MARK).count();
    print!(rt; ", kept {streams}/{rows}")
}

// What a base got, and what it left of the answer rows, so many of which were lent.
fn show(rt: &impl Print, a: Answer, lent: usize, answers: &[[u64; 2]]) -> io::Result<()> {
    let n = match a {
        Answer::Found(n, o) => {
            print!(rt; ": found {n}")?;
            show_rows(rt, n, answers)?;
            show_offer(rt, o)?;
            n
        }
        Answer::Refused(x) => {
            print!(rt; ": refused {}", x.number())?;
            0
        }
        Answer::Ended(e) => {
            print!(rt; ": ended ")?;
            show_end(rt, e)?;
            0
        }
    };
    show_kept(rt, n, lent, answers)
}

// A base is given to the run in use, with as much of each slice as is lent; the run behind it.
pub fn give(rt: &impl Print, bench: &Bench, b: Base, memory: &mut Memory) -> io::Result<Run> {
    let lens = bench.here.lens;
    let mut lengths = [u64::MAX; 257];
    lengths[0] = 1000;
    let mut answers = [[MARK; 2]; SLOTS];
    let given = sweep::give(
        bench.here.run,
        b,
        memory.rows.lent(lens),
        front(&lengths, lens[3]),
        part_mut(&mut memory.queue, bench.memory, lens[4]),
        part_mut(&mut answers, 0, lens[5]),
    );
    show(rt, given.answer, lens[5], &answers)?;
    Ok(given.run)
}

// A run begins, with a room, and with as much of each slice as is lent; where none does, the run of no streams.
pub fn begin(rt: &impl Print, bench: &Bench, room: usize, rows: &Rows) -> io::Result<Run> {
    let plan = bench.plan;
    let lens = bench.here.lens;
    let text = name_text();
    let mut from = name_starts();
    let mut to = name_ends();
    if let Some((k, start, stop)) = plan.odd
        && k < 257
    {
        from[k] = start;
        to[k] = stop;
    }
    let fixed = Settings {
        streams: plan.streams,
        chroms: plan.chroms,
        room,
    };
    let names = NameList {
        text: &text,
        from: front(&from, lens[6]),
        to: front(&to, lens[7]),
    };
    match Run::start(fixed, plan.from, plan.to, names, rows.lent(lens)) {
        Ok(run) => {
            print!(rt; ": begun")?;
            Ok(run)
        }
        Err(x) => {
            print!(rt; ": refused {}", x.number())?;
            Ok(Run::none())
        }
    }
}
