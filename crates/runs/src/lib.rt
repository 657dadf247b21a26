// A run, in numbers and arrays alone: what it carries, how it stands, its start and its end.
#![tactic(auto)]

mod mark;
mod start;

ghost use Rattle.std.specs.Prelude.{◌≡◌, ◌<◌};
ghost use Rattle.heads.specs.View.{four_at, fours_of, column_in, heads_in};
ghost use Rattle.runs.specs.View.{heads_of, ring_of, stage_of, run_in, over_of};

use heads::Heads;
pub use mark::Mark;
use queue::Ring;
use rules::{Answer, Chrom, End, Settings, Stage};

// A run: of each stream its head's chromosome, start, stop and row, its mark (0: it goes on), the place of the row behind its head in the lent
// columns and where its rows begin and end there; what is fixed from the start; where the oldest that waits stands, how many wait and the chromosome
// that they are on; how the run stands. Any content is a run. Flat arrays and numbers alone, since a host keeps it in its own memory, in C's layout.
#[repr(C)]
#[derive(Clone, Copy)]
pub struct Run {
    pub chrom: [u64; 8],
    pub start: [u64; 8],
    pub stop: [u64; 8],
    pub row: [u64; 8],
    pub ended: [u64; 8],
    pub next: [usize; 8],
    pub from: [usize; 8],
    pub to: [usize; 8],
    pub settings: Settings,
    pub head: usize,
    pub len: usize,
    pub place: u64,
    pub mark: Mark,
}

// The run after a base, and what the base got.
#[derive(Clone, Copy)]
pub struct Given {
    pub run: Run,
    pub answer: Answer,
}

// Number i of each four, place by place: no plainer by `array::from_fn`, whose proof did not close where it was tried (`inplace::eight_of`).
fn column(fours: &[[u64; 4]; 8], i: usize) -> [u64; 8]
    requires { i < 4 }
    ensures { result ≡ column_in i fours.now }
{
    [
        fours[0][i],
        fours[1][i],
        fours[2][i],
        fours[3][i],
        fours[4][i],
        fours[5][i],
        fours[6][i],
        fours[7][i],
    ]
}

impl Run {
    // "1 to 8 streams."
    pub const STREAMS: usize = Settings::STREAMS;

    // "1 to 256 chromosomes"
    pub const CHROMS: usize = Settings::CHROMS;

    // "Queue room Q from 1 to 65,536."
    pub const ROOM: usize = Settings::ROOM;

    // The head of stream k as four numbers.
    fn four(&self, k: usize) -> [u64; 4]
        requires { k < 8 }
        ensures { result ≡ four_at self.now.chrom self.now.start self.now.stop self.now.row k }
    {
        [self.chrom[k], self.start[k], self.stop[k], self.row[k]]
    }

    // The heads, as an array of fours that is built from the flat arrays, place by place as in `column`.
    pub fn heads(&self) -> Heads
        ensures fours { result.fours ≡ fours_of self.now.chrom self.now.start self.now.stop self.now.row }
        ensures heads { heads_in result ≡ heads_of self.now }
    {
        Heads {
            fours: [
                self.four(0),
                self.four(1),
                self.four(2),
                self.four(3),
                self.four(4),
                self.four(5),
                self.four(6),
                self.four(7),
            ],
            ended: self.ended,
            next: self.next,
            from: self.from,
            to: self.to,
            streams: self.settings.streams,
        }
    }

    // What waits, as a ring.
    pub fn ring(&self) -> Ring
        ensures { result ≡ ring_of self.now }
    {
        Ring {
            head: self.head,
            len: self.len,
            room: self.settings.room,
            chrom: Chrom(self.place),
        }
    }

    // How the run stands.
    pub fn stage(&self) -> Stage
        ensures { result ≡ stage_of self.now }
    {
        Stage::from(self.mark)
    }

    // The run of so many chromosomes with these heads, this ring and its room, and this mark.
    pub fn of(heads: &Heads, chroms: usize, ring: Ring, mark: Mark) -> Run
        ensures { result ≡ run_in (heads_in heads.now) chroms ring mark }
    {
        Run {
            chrom: column(&heads.fours, 0),
            start: column(&heads.fours, 1),
            stop: column(&heads.fours, 2),
            row: column(&heads.fours, 3),
            ended: heads.ended,
            next: heads.next,
            from: heads.from,
            to: heads.to,
            settings: Settings {
                streams: heads.streams,
                chroms,
                room: ring.room,
            },
            head: ring.head,
            len: ring.len,
            place: ring.chrom.0,
            mark,
        }
    }

    // The run ended: nothing is left of any stream and nothing waits.
    pub fn over(&self, e: End) -> Run
        ensures { result ≡ over_of self.now e }
    {
        Run {
            mark: Mark::from(Stage::Over(e)),
            ..Run::fresh(self.settings, self.from, self.to)
        }
    }
}
