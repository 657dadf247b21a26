// Replays a recorded list of fragments: reads `parts.txt`, makes each job's fragments anew and compares them with those recorded.
// Prints how many jobs there are and how many differ, and the line of the first that differs.
// A line: A B base_start base_stop n, n records, F, then for each fragment: present bstart bstop k, k pieces; `#` starts a comment line.
#![tactic(auto)]

use parts::{Choice, Span};
use std::{fs, io};
use tests_shared::{Reader, at, each_job};

// The columns of fragments: of each its base part and where its pieces begin and end in the pieces' columns, and these. (tests_parts' own, `Lent`, has
// fewer slots, and says why they are two types.)
#[derive(Clone, Copy, Default)]
struct Fragments {
    present: [u64; 32],
    bstart: [u64; 32],
    bstop: [u64; 32],
    first: [u64; 32],
    end: [u64; 32],
    pstart: [u64; 32],
    pstop: [u64; 32],
}

impl Fragments {
    // `Some` where the base part of fragment k is the one recorded.
    fn matches_part(&self, k: usize, reader: &mut Reader) -> Option<()> {
        reader.matches(at(&self.present, k))?;
        reader.matches(at(&self.bstart, k))?;
        reader.matches(at(&self.bstop, k))
    }

    // `Some` where the pieces of fragment k, their count ahead, are those recorded.
    fn matches_pieces(&self, k: usize, reader: &mut Reader) -> Option<()> {
        let first: u64 = at(&self.first, k);
        let end: u64 = at(&self.end, k);
        reader.matches(end.checked_sub(first)?)?;
        for i in first as usize..end as usize {
            reader.matches(at(&self.pstart, i))?;
            reader.matches(at(&self.pstop, i))?;
        }
        Some(())
    }

    // `Some` where the first n fragments are those recorded, up to the line's end.
    fn matches_all(&self, n: usize, reader: &mut Reader) -> Option<()> {
        reader.matches(n as u64)?;
        for k in 0..n {
            self.matches_part(k, reader)?;
            self.matches_pieces(k, reader)?;
        }
        if reader.is_end() { Some(()) } else { None }
    }
}

// A record for each slot of two columns; a start that can't be read is 0.
fn read_records(starts: &mut [u64], stops: &mut [u64], reader: &mut Reader) -> Option<()> {
    for (start, stop) in starts.iter_mut().zip(stops) {
        *start = reader.number().unwrap_or_default();
        *stop = reader.number()?;
    }
    Some(())
}

// The choice of a number from 0.
fn choice(i: u64) -> Choice {
    match i {
        0 => Choice::None,
        1 => Choice::Whole,
        2 => Choice::WholeWide,
        3 => Choice::Piece,
        _ => Choice::Inverse,
    }
}

// `Some` where the fragments of a base and its records are those recorded.
fn replay_records(
    a: Choice,
    b: Choice,
    base: Span,
    starts: &[u64],
    stops: &[u64],
    reader: &mut Reader,
) -> Option<()> {
    let mut f = Fragments::default();
    let answer = parts::fragments(
        a,
        b,
        base,
        starts,
        stops,
        &mut f.present,
        &mut f.bstart,
        &mut f.bstop,
        &mut f.first,
        &mut f.end,
        &mut f.pstart,
        &mut f.pstop,
    );
    f.matches_all(answer.ok()?.fragments, reader)
}

// `Some` where the job that stands at a place has the fragments recorded with it. What can't be read ahead of the count is 0.
fn replay(mut reader: Reader) -> Option<()> {
    // A line with nothing on it has no count.
    if reader.is_end() {
        return None;
    }
    let a = reader.number().unwrap_or_default();
    let b = reader.number().unwrap_or_default();
    let start = reader.number().unwrap_or_default();
    let stop = reader.number().unwrap_or_default();
    let n = reader.number()? as usize;
    // There is no heap in this repository: a job of more records than there are slots differs.
    let mut starts = [0; 16];
    let mut stops = [0; 16];
    let starts = starts.get_mut(..n)?;
    let stops = stops.get_mut(..n)?;
    read_records(starts, stops, &mut reader)?;
    let base = Span { start, stop };
    replay_records(choice(a), choice(b), base, starts, stops, &mut reader)
}

// How the replay stands: jobs, differences, and the line of the first that differs.
#[derive(Clone, Copy, Default)]
struct Tally {
    jobs: u64,
    differ: u64,
    first: u64,
}

impl Tally {
    // One job more.
    fn count(&mut self, line: u64, same: bool) {
        self.jobs = self.jobs.saturating_add(1);
        if same {
            return;
        }
        if self.differ == 0 {
            self.first = line;
        }
        self.differ = self.differ.saturating_add(1);
    }
}

// The tally of a list: a comment changes nothing.
fn replay_all(text: &[u8]) -> Tally {
    let mut tally = Tally::default();
    each_job(
        text,
        |line, reader| tally.count(line, replay(reader).is_some()),
    );
    tally
}

fn main(rt: HostRuntime) -> io::Result<()> {
    let path = "parts.txt";
    let mut file = match fs::open(&rt, path) {
        Ok(file) => file,
        Err(e) => return eprintln!(rt; "{path}: {e}"),
    };
    let mut memory = [0u8; 65536];
    let text = tests_shared::read_text(&mut file, &mut memory)?;
    let tally = replay_all(text);
    println!(rt; "bytes {}", text.len())?;
    println!(rt; "jobs {}", tally.jobs)?;
    println!(rt; "differences {}", tally.differ)?;
    if 0 < tally.differ {
        println!(rt; "first at line {}", tally.first)?;
    }
    Ok(())
}
