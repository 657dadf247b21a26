// What bases came to, in numbers: what was offered after them, and what stopped them.
ghost use Rattle.std.specs.Prelude.{◌≡◌};
ghost use Rattle.inplace.specs.Told.{offered_of, stops_by, stopped_of};

use rules::{Answer, End, Offer};

// What was offered: `any` is 1 where a place is, with its chromosome and its stop. All is 0 where none is. C's layout: numbers alone.
#[repr(C)]
#[derive(Clone, Copy)]
pub struct Offered {
    pub any: u64,
    pub chrom: u64,
    pub stop: u64,
}

// What a base got that got no records: the refusal, and of 7 and 8 stream and row. What is not named is 0, and all is where nothing stopped the bases.
// C's layout: numbers alone.
#[repr(C)]
#[derive(Clone, Copy)]
pub struct Stopped {
    pub refusal: u64,
    pub stream: u64,
    pub row: u64,
}

// What is told of an offer.
impl From<Offer> for Offered {
    ghost from_gives = { λ o x. x ≡ offered_of o };

    fn from(o: Offer) -> Offered {
        match o {
            None => Offered {
                any: 0,
                chrom: 0,
                stop: 0,
            },
            Some(p) => Offered {
                any: 1,
                chrom: p.chrom.0,
                stop: p.stop,
            },
        }
    }
}

// A refusal by this number, with the stream and row that it names.
fn stops_by(number: u64, stream: u64, row: u64) -> Stopped
    ensures { result ≡ stops_by number stream row }
{
    Stopped {
        refusal: number,
        stream,
        row,
    }
}

// What is told of what the base behind the answered ones got, if anything; it is never `Found`.
impl From<Option<Answer>> for Stopped {
    ghost from_gives = { λ a x. x ≡ stopped_of a };

    fn from(last: Option<Answer>) -> Stopped {
        match last {
            None | Some(Answer::Found(_, _)) => stops_by(0, 0, 0),
            Some(Answer::Refused(x)) => stops_by(x.number(), 0, 0),
            Some(Answer::Ended(End::Faulty(s, row))) => stops_by(7, s.0, row),
            Some(Answer::Ended(End::Unsorted(s, row))) => stops_by(8, s.0, row),
            Some(Answer::Ended(End::NoRoom)) => stops_by(9, 0, 0),
            Some(Answer::Ended(End::NoRows)) => stops_by(10, 0, 0),
        }
    }
}
