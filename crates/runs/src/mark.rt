// How a run stands, in numbers: every number has a meaning.
ghost use Rattle.std.specs.Prelude.{◌≡◌};
ghost use Rattle.runs.specs.Marks.{end_in, stage_in, marked, mark_of};

use rules::{Base, Chrom, End, Stage, Stream};

// How a run stands, in numbers: 0, no base accepted yet; 1, and the last accepted base; 7 to 10, the refusal that ended it, and of 7 and
// 8 stream and row; any other number is read as 10. What is not used is 0. The kinds are numbers, not an enum: a run lies in its host's
// memory, and any content of it has a meaning.
#[repr(C)]
#[derive(Clone, Copy)]
pub struct Mark {
    pub kind: u64,
    pub first: u64,
    pub second: u64,
    pub third: u64,
}

impl Mark {
    // The mark of these numbers.
    fn new(kind: u64, first: u64, second: u64, third: u64) -> Mark
        ensures { result ≡ marked kind first second third }
    {
        Mark {
            kind,
            first,
            second,
            third,
        }
    }

    // The end that a mark of 7 to 10 stands for: read back by its number, so each number stands here.
    fn end(self) -> End
        ensures { result ≡ end_in self }
    {
        match self.kind {
            7 => End::Faulty(Stream(self.first), self.second),
            8 => End::Unsorted(Stream(self.first), self.second),
            9 => End::NoRoom,
            _ => End::NoRows,
        }
    }
}

// How the run stands that has this mark.
impl From<Mark> for Stage {
    ghost from_gives = { λ m t. t ≡ stage_in m };

    fn from(m: Mark) -> Stage {
        match m.kind {
            0 => Stage::Fresh,
            1 => Stage::After(Base {
                chrom: Chrom(m.first),
                start: m.second,
                stop: m.third,
            }),
            _ => Stage::Over(m.end()),
        }
    }
}

// The mark of a run that stands so.
impl From<Stage> for Mark {
    ghost from_gives = { λ t m. m ≡ mark_of t };

    fn from(t: Stage) -> Mark {
        match t {
            Stage::Fresh => Mark::new(0, 0, 0, 0),
            Stage::After(b) => Mark::new(1, b.chrom.0, b.start, b.stop),
            Stage::Over(End::Faulty(s, row)) => Mark::new(7, s.0, row, 0),
            Stage::Over(End::Unsorted(s, row)) => Mark::new(8, s.0, row, 0),
            Stage::Over(End::NoRoom) => Mark::new(9, 0, 0, 0),
            Stage::Over(End::NoRows) => Mark::new(10, 0, 0, 0),
        }
    }
}
