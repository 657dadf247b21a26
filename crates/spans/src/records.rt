// One stream's records, lent as two columns.
ghost use Rattle.std.specs.Prelude.{◌≡◌, ◌↔◌, length, IsSome, IfSome};

use crate::Span;

// Starts and stops side by side, as many of the one as of the other.
// A base stays a parameter beside them: it goes with one record alone as well (`clip`, `is_fitting`), and no contract asks a fact that ties it to the columns.
#[derive(Clone, Copy)]
pub struct Records<'a> {
    pub starts: &'a [u64],
    pub stops: &'a [u64],
    ghost even: { length starts.now ≡ length stops.now },
}

impl<'a> Records<'a> {
    // The records of two columns, if these are of one length.
    pub fn new(starts: &'a [u64], stops: &'a [u64]) -> Option<Records<'a>>
        ensures even { IsSome result ↔ (length starts.now ≡ length stops.now) }
        ensures lent { IfSome result (λ r. (r.starts.now ≡ starts.now) × (r.stops.now ≡ stops.now)) }
    {
        if starts.len() != stops.len() {
            return None;
        }
        Some(Records { starts, stops })
    }

    // How many they are.
    pub fn len(self) -> usize
        ensures { result ≡ length self.entry.starts.now }
    {
        self.starts.len()
    }
}

impl<'a> IntoIterator for Records<'a> {
    type Item = Span;

    type IntoIter = Rows<'a>;

    ghost into_iter_gives = { λ records rows. rows.left ≡ records };

    fn into_iter(self) -> Rows<'a> {
        Rows { left: self }
    }
}

// The records that are left in a loop over all.
#[derive(Drop)]
pub struct Rows<'a> {
    pub left: Records<'a>,
}

impl<'a> Iterator for Rows<'a> {
    ghost use Rattle.std.specs.Iterator.{YieldsFirst, item_count};
    ghost use Rattle.spans.specs.Records.{rest};

    type Item = Span;

    ghost next_gives = { YieldsFirst rest };

    ghost remaining = { item_count rest };

    fn next(&mut self) -> Option<Span> {
        let (start, starts) = self.left.starts.split_first()?;
        let (stop, stops) = self.left.stops.split_first()?;
        self.left = Records { starts, stops };
        Some(Span {
            start: *start,
            stop: *stop,
        })
    }
}
