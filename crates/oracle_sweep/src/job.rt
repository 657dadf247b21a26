// One job of the list: its streams and bases are read, a run begins, and each base's records are compared.
use crate::order;
use fields::NameList;
use heads::Columns;
use rules::{Answer, Base, Chrom, Settings};
use runs::Run;
use tests_shared::{Reader, at, front, name_ends, name_starts, name_text, part_mut};

// What a job comes to: how many bases and records it has, and whether all are those of the list. A job whose line goes on behind its last base
// differs, and its counts are summed all the same: so `same` stands beside them.
#[derive(Clone, Copy, Default)]
pub struct Score {
    pub bases: u64,
    pub records: u64,
    pub same: bool,
}

// How many rows, or bases, a job may have. There is no heap in this repository: a job of more differs.
pub const ROWS: usize = 64;

// Rows that were read, as columns of chromosomes, starts and stops, and how many there are. (tests_sweep's own are lent in a length each.)
#[derive(Drop)]
struct Rows {
    chrom: [u64; ROWS],
    start: [u64; ROWS],
    stop: [u64; ROWS],
    count: usize,
}

impl Rows {
    // No row.
    fn new() -> Rows {
        Rows {
            chrom: [0; ROWS],
            start: [0; ROWS],
            stop: [0; ROWS],
            count: 0,
        }
    }

    // n rows more; a chromosome or a start that can't be read is 0.
    fn read(&mut self, n: u64, reader: &mut Reader) -> Option<()> {
        for _ in 0..n {
            let chrom = reader.number().unwrap_or_default();
            let start = reader.number().unwrap_or_default();
            let stop = reader.number()?;
            let k = self.count;
            if ROWS <= k {
                return None;
            }
            self.chrom[k] = chrom;
            self.start[k] = start;
            self.stop[k] = stop;
            self.count = k + 1;
        }
        Some(())
    }

    // The rows as lent columns.
    fn columns(&self) -> Columns<'_> {
        Columns {
            chrom: front(&self.chrom, self.count),
            start: front(&self.start, self.count),
            stop: front(&self.stop, self.count),
        }
    }
}

// Where each stream's rows begin and end in the columns.
#[derive(Clone, Copy)]
struct Ranges {
    from: [usize; 8],
    to: [usize; 8],
}

// n streams; how many rows one has is 0 where it can't be read.
fn read_streams(n: usize, rows: &mut Rows, reader: &mut Reader) -> Option<Ranges> {
    let mut ranges = Ranges {
        from: [0; 8],
        to: [0; 8],
    };
    if 8 < n {
        return None;
    }
    for k in 0..n {
        let count = reader.number().unwrap_or_default();
        ranges.from[k] = rows.count;
        rows.read(count, reader)?;
        ranges.to[k] = rows.count;
    }
    Some(ranges)
}

// A base is given to a run, and its records are compared with those recorded: the run behind it, and how many there are.
fn give(
    run: Run,
    b: Base,
    rows: Columns,
    lengths: &[u64],
    queue: &mut [[u64; 4]],
    reader: &mut Reader,
) -> Option<(Run, u64)> {
    let mut answers = [[0; 2]; 1024];
    let given = sweep::give(run, b, rows, lengths, queue, &mut answers);
    let Answer::Found(n, _) = given.answer else {
        return None;
    };
    let found = part_mut(&mut answers, 0, n);
    order::sort(found, &run.from, rows.start);
    order::matches_rows(found, reader)?;
    Some((given.run, n as u64))
}

// The bases are given to a run one after the other, up to the first that differs.
fn replay_bases(
    run: Run,
    bases: Columns,
    rows: Columns,
    lengths: &[u64],
    reader: &mut Reader,
) -> Option<Score> {
    let mut queue = [[0; 4]; 1024];
    let mut run = run;
    let mut records: u64 = 0;
    let n = bases.chrom.len();
    for i in 0..n {
        let base = Base {
            chrom: Chrom(bases.chrom[i]),
            start: at(bases.start, i),
            stop: at(bases.stop, i),
        };
        let (after, found) = give(run, base, rows, lengths, &mut queue, reader)?;
        run = after;
        records = records.saturating_add(found);
    }
    Some(Score {
        bases: n as u64,
        records,
        same: reader.is_end(),
    })
}

// A run of so many streams and chromosomes begins, and the bases are given to it.
fn replay_run(
    streams: usize,
    chroms: usize,
    ranges: Ranges,
    bases: Columns,
    rows: Columns,
    reader: &mut Reader,
) -> Option<Score> {
    let text = name_text();
    let from = name_starts();
    let to = name_ends();
    let lengths = [u64::MAX; 256];
    let fixed = Settings {
        streams,
        chroms,
        room: 1024,
    };
    let names = NameList {
        text: &text,
        from: front(&from, chroms),
        to: front(&to, chroms),
    };
    let run = Run::start(fixed, ranges.from, ranges.to, names, rows).ok()?;
    replay_bases(run, bases, rows, front(&lengths, chroms), reader)
}

// What the job that stands at a place comes to; nothing where it can't be read, or a base differs. The number of chromosomes, or of streams, is 0
// where it can't be read.
pub fn replay(mut reader: Reader) -> Option<Score> {
    let mut rows = Rows::new();
    let mut bases = Rows::new();
    let chroms = reader.number().unwrap_or_default() as usize;
    let streams = reader.number().unwrap_or_default() as usize;
    let ranges = read_streams(streams, &mut rows, &mut reader)?;
    let count = reader.number()?;
    bases.read(count, &mut reader)?;
    replay_run(
        streams,
        chroms,
        ranges,
        bases.columns(),
        rows.columns(),
        &mut reader,
    )
}
