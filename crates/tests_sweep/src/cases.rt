// What a case has laid and lent, and what each command does to it.
use crate::{Command, QUEUES, SLOTS, given, tamper};
use heads::Columns;
use rules::Base;
use runs::Run;
use std::{io, mem};
use tests_shared::front;

// Where the memory of the second run begins in the queue's slots.
const SECOND: usize = 65537;

// The streams' rows, as columns. Each of them is lent in a length of its own, as a case has it; oracle_sweep's `Rows` lends all three in one, and
// counts what it holds.
#[derive(Drop)]
pub struct Rows {
    pub chrom: [u64; SLOTS],
    pub start: [u64; SLOTS],
    pub stop: [u64; SLOTS],
}

// What is lent in part: the rows, and the slots of two queues.
#[derive(Drop)]
pub struct Memory {
    pub rows: Rows,
    pub queue: [[u64; 4]; QUEUES],
}

// The streams' ranges in the columns, how many rows are laid, the number of chromosomes, and the name that stands elsewhere, where one does: its
// number, and where it begins and ends in the text.
#[derive(Clone, Copy)]
pub struct Plan {
    pub streams: usize,
    pub from: [usize; 8],
    pub to: [usize; 8],
    pub rows: usize,
    pub chroms: usize,
    pub odd: Option<(usize, usize, usize)>,
}

// A run, and how much is lent to it: chromosomes, starts and stops of the rows, the chromosomes' lengths, the queue's slots, the answer rows,
// where the names begin and end. The command `w SLICE N` names the slices by these numbers, so they are no fields.
#[derive(Clone, Copy)]
pub struct Side {
    pub run: Run,
    pub lens: [usize; 8],
}

// What a case has: the run in use, the other one, and where the memory of the one in use begins in the queue's slots.
#[derive(Clone, Copy)]
pub struct Bench {
    pub plan: Plan,
    pub here: Side,
    pub there: Side,
    pub memory: usize,
}

impl Rows {
    // As much of each column as is lent.
    pub fn lent(&self, lens: [usize; 8]) -> Columns<'_> {
        Columns {
            chrom: front(&self.chrom, lens[0]),
            start: front(&self.start, lens[1]),
            stop: front(&self.stop, lens[2]),
        }
    }

    // The slots from one place up to another are a row, where there are any.
    fn fill(&mut self, from: usize, to: usize, row: Base) {
        if from <= to && to <= SLOTS {
            self.chrom[from..to].fill(row.chrom.0);
            self.start[from..to].fill(row.start);
            self.stop[from..to].fill(row.stop);
        }
    }
}

impl Side {
    // The run of no streams, and nothing lent.
    fn new() -> Side {
        Side {
            run: Run::none(),
            lens: [0; 8],
        }
    }
}

impl Plan {
    // Two chromosomes, no stream, all names where they are due.
    fn new() -> Plan {
        Plan {
            streams: 0,
            from: [0; 8],
            to: [0; 8],
            rows: 0,
            chroms: 2,
            odd: None,
        }
    }

    // One more stream.
    fn add_stream(&mut self) {
        let k = self.streams;
        self.set_range(k, self.rows, self.rows);
        if k < 100 {
            self.streams = k + 1;
        }
    }

    // So many rows more of the last stream, where there are slots for them.
    fn add_rows(&mut self, n: usize) {
        let end = self.rows.saturating_add(n);
        if SLOTS < end {
            return;
        }
        self.rows = end;
        let k = self.streams;
        if 0 < k && k <= 8 {
            self.to[k - 1] = end;
        }
    }

    // The rows of a stream stand elsewhere.
    fn set_range(&mut self, k: usize, from: usize, to: usize) {
        if k < 8 {
            self.from[k] = from;
            self.to[k] = to;
        }
    }

    // A name stands elsewhere.
    fn set_name(&mut self, k: usize, from: usize, to: usize) {
        self.odd = Some((k, from, to));
    }

    // As many slots as a room asks, and one answer row more.
    fn lens_for(&self, room: usize) -> [usize; 8] {
        let n = self.rows;
        let k = self.chroms;
        [n, n, n, k, room, room.saturating_add(1), k, k]
    }
}

// A slot of the queues is written, where there is one.
fn set_slot(queue: &mut [[u64; 4]], i: usize, record: [u64; 4]) {
    if i < queue.len() {
        queue[i] = record;
    }
}

impl Bench {
    // Nothing is laid, and no run has begun.
    pub fn new() -> Bench {
        Bench {
            plan: Plan::new(),
            here: Side::new(),
            there: Side::new(),
            memory: 0,
        }
    }

    // The other run and its memory.
    fn turn(&mut self) {
        mem::swap(&mut self.here, &mut self.there);
        self.memory = if self.memory == SECOND { 0 } else { SECOND };
    }

    // Rows more of the last stream, all alike.
    fn lay_rows(&mut self, row: Base, n: usize, rows: &mut Rows) {
        let from = self.plan.rows;
        self.plan.add_rows(n);
        rows.fill(from, self.plan.rows, row);
    }

    // A slice of another length is lent.
    fn set_length(&mut self, k: usize, n: usize) {
        if k < 8 {
            self.here.lens[k] = n;
        }
    }

    // A command is done, and what it got is written.
    pub fn play(
        &mut self,
        rt: &impl Print,
        command: Command,
        memory: &mut Memory,
    ) -> io::Result<()> {
        match command {
            Command::Case => *self = Bench::new(),
            Command::Chroms(n) => self.plan.chroms = n,
            Command::Name(k, from, to) => self.plan.set_name(k, from, to),
            Command::Stream => self.plan.add_stream(),
            Command::Rows(row, n) => self.lay_rows(row, n, &mut memory.rows),
            Command::Range(k, from, to) => self.plan.set_range(k, from, to),
            Command::Lend(room) => self.here.lens = self.plan.lens_for(room),
            Command::Length(k, n) => self.set_length(k, n),
            Command::Begin(room) => self.here.run = given::begin(rt, self, room, &memory.rows)?,
            Command::LendAndBegin(lent, room) => {
                self.here.lens = self.plan.lens_for(lent);
                self.here.run = given::begin(rt, self, room, &memory.rows)?;
            }
            Command::Give(base) => self.here.run = given::give(rt, self, base, memory)?,
            Command::Turn => self.turn(),
            Command::Slot(i, record) => set_slot(
                &mut memory.queue,
                self.memory.saturating_add(i),
                record,
            ),
            Command::Field(field, k, value) => {
                tamper::set_field(&mut self.here.run, field, k, value)
            }
            Command::Mark(mark) => self.here.run.mark = mark,
            Command::Remark => {}
        }
        Ok(())
    }
}
