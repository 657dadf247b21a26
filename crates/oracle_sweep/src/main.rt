// Replays a recorded list of sweeps: reads `sweep.txt`, gives each job's bases to a run and compares the records with those recorded.
// Prints how many jobs, bases and records there are and how many jobs differ, and the line of the first that differs.
// A line: chromosomes, streams; for each stream its rows' count and chromosome, start and stop of each; the bases so too; then for each
// base its records' count and stream and row of each, those of equal start by stream and row. `#` starts a comment line.
#![tactic(auto)]

mod job;
mod order;

use job::Score;
use std::{fs, io};
use tests_shared::each_job;

// How the replay stands: jobs, bases, records, jobs that differ, and the line of the first that does. (oracle_parts' own has no bases and records:
// one type for both would count what one of them has none of.)
#[derive(Clone, Copy, Default)]
struct Tally {
    jobs: u64,
    bases: u64,
    records: u64,
    differ: u64,
    first: u64,
}

impl Tally {
    // One job more.
    fn count(&mut self, line: u64, score: Score) {
        self.jobs = self.jobs.saturating_add(1);
        self.bases = self.bases.saturating_add(score.bases);
        self.records = self.records.saturating_add(score.records);
        if score.same {
            return;
        }
        if self.differ == 0 {
            self.first = line;
        }
        self.differ = self.differ.saturating_add(1);
    }
}

// The tally of a list: a comment changes nothing.
fn replay_all(text: &[u8]) -> Tally {
    let mut tally = Tally::default();
    each_job(
        text,
        |line, reader| tally.count(line, job::replay(reader).unwrap_or_default()),
    );
    tally
}

fn main(rt: HostRuntime) -> io::Result<()> {
    let mut file = fs::open(&rt, "sweep.txt")?;
    let mut memory = [0u8; 65536];
    let text = tests_shared::read_text(&mut file, &mut memory)?;
    let tally = replay_all(text);
    println!(rt; "jobs {}", tally.jobs)?;
    println!(rt; "bases {}", tally.bases)?;
    println!(rt; "records {}", tally.records)?;
    println!(rt; "differences {}", tally.differ)?;
    if 0 < tally.differ {
        println!(rt; "first at line {}", tally.first)?;
    }
    Ok(())
}
