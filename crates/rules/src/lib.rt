// The words of the scope document as types. There is no code here but what a value of these types says of itself: what is right stands in specs/.
#![tactic(auto)]

ghost use Rattle.std.specs.Prelude.{◌≡◌};
ghost use Rattle.rules.specs.Numbers.{unbegun_number, refusal_number, end_number};
ghost use Rattle.rules.specs.Start.{sized};

// A stream's number, and a chromosome's number in list order: neither can stand where the other is due.
#[derive(Clone, Copy, PartialEq, Eq)]
pub struct Stream(pub u64);

#[derive(Clone, Copy, PartialEq, Eq, PartialOrd, Ord)]
pub struct Chrom(pub u64);

// A row of a stream, half-open: start is the first position, stop the first behind it.
#[derive(Clone, Copy, PartialEq, Eq)]
pub struct Row {
    pub chrom: Chrom,
    pub start: u64,
    pub stop: u64,
}

// A target region, half-open.
#[derive(Clone, Copy, PartialEq, Eq, PartialOrd, Ord)]
pub struct Base {
    pub chrom: Chrom,
    pub start: u64,
    pub stop: u64,
}

// A place up to which bases may be left out.
#[derive(Clone, Copy, PartialEq, Eq)]
pub struct Place {
    pub chrom: Chrom,
    pub stop: u64,
}

// What a run has fixed from its start: how many streams and chromosomes there are, and the queue's room.
#[repr(C)]
#[derive(Clone, Copy)]
pub struct Settings {
    pub streams: usize,
    pub chroms: usize,
    pub room: usize,
}

impl Settings {
    // "1 to 8 streams."
    pub const STREAMS: usize = 8;

    // "1 to 256 chromosomes"
    pub const CHROMS: usize = 256;

    // "Queue room Q from 1 to 65,536."
    pub const ROOM: usize = 65536;

    // Whether the numbers of streams and chromosomes and the room keep to these.
    pub fn is_sized(self) -> bool
        ensures { result ≡ sized self }
    {
        let few = (1..=Settings::STREAMS).contains(&self.streams);
        let listed = (1..=Settings::CHROMS).contains(&self.chroms);
        let roomy = (1..=Settings::ROOM).contains(&self.room);
        few && listed && roomy
    }
}

// What is offered after a base: a place up to which bases may be left out, or nothing.
pub type Offer = Option<Place>;

// Why no run begins.
#[derive(Clone, Copy, PartialEq, Eq)]
pub enum Unbegun {
    // 1: a size is broken.
    Sizes,
    // 2: a chromosome name is empty, too long or there twice.
    Names,
}

impl Unbegun {
    // Its number.
    pub fn number(self) -> u64
        ensures { result ≡ unbegun_number self }
    {
        match self {
            Unbegun::Sizes => 1,
            Unbegun::Names => 2,
        }
    }
}

// Why a base is refused with the run unchanged.
#[derive(Clone, Copy, PartialEq, Eq)]
pub enum Refusal {
    // 1: a size is broken, lent columns differ in length, or the run or its queue names no lent stream or row.
    Sizes,
    // 3: base stop beyond a known chromosome length.
    Beyond,
    // 4: base chromosome not on the list.
    Unlisted,
    // 5: base out of order.
    Unordered,
    // 6: base start > stop.
    Reversed,
}

impl Refusal {
    // Its number.
    pub fn number(self) -> u64
        ensures { result ≡ refusal_number self }
    {
        match self {
            Refusal::Sizes => 1,
            Refusal::Beyond => 3,
            Refusal::Unlisted => 4,
            Refusal::Unordered => 5,
            Refusal::Reversed => 6,
        }
    }
}

// Why a run has ended.
#[derive(Clone, Copy, PartialEq, Eq)]
pub enum End {
    // 7: stream record: chromosome not on the list, or start > stop; its stream and row.
    Faulty(Stream, u64),
    // 8: stream record out of order; its stream and row.
    Unsorted(Stream, u64),
    // 9: no room in the queue.
    NoRoom,
    // 10: more records than answer rows.
    NoRows,
}

impl End {
    // The number of its refusal.
    pub fn number(self) -> u64
        ensures { result ≡ end_number self }
    {
        match self {
            End::Faulty(_, _) => 7,
            End::Unsorted(_, _) => 8,
            End::NoRoom => 9,
            End::NoRows => 10,
        }
    }
}

// How a run stands: no base accepted yet, the last accepted base, or its end.
#[derive(Clone, Copy, PartialEq, Eq)]
pub enum Stage {
    Fresh,
    After(Base),
    Over(End),
}

// What a base gets: its records' count and the offer, a refusal, or the end of the run.
#[derive(Clone, Copy, PartialEq, Eq)]
pub enum Answer {
    Found(usize, Offer),
    Refused(Refusal),
    Ended(End),
}
