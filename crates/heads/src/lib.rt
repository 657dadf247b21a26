// The heads of up to eight streams: what taking the least comes to, and loading them. They are four numbers each, in an array that goes on in place.
#![tactic(auto)]

ghost use Rattle.std.specs.Prelude.{◌≡◌, List, [], ◌∷◌, ℕ, ◌+◌, ◌<◌, ◌≤◌, length};
ghost use Rattle.std.proofs.Math.Option.{none, some};
ghost use Rattle.rules.specs.declared.End.TheVariants.{Faulty, Unsorted};
ghost use Rattle.rules.specs.Rows.{good, follows, fault};
ghost use Rattle.rules.specs.Overlap.{taken, live};
ghost use Rattle.basics.specs.Lists.{Says};
ghost use Rattle.heads.specs.View.{cols_of, row_at, heads_in};
ghost use Rattle.heads.specs.Load.{BeginsAs, Loadable, LoadsAs, RangesStay};
ghost use Rattle.heads.specs.Move.{best_record, next_row, next_record, check_of, takes, turn_of, turn_at, PlacedIn, Placed, next_of};

use least::Best;
use rules::{Base, Chrom, End, Settings, Stream};

// Columns of numbers, lent: all streams' rows, one after the other; or bases. Three columns, as a host lends them in C's layout; their lengths may
// differ, since 1 asks whether they do, so no fact stands in the type.
#[derive(Clone, Copy)]
pub struct Columns<'a> {
    pub chrom: &'a [u64],
    pub start: &'a [u64],
    pub stop: &'a [u64],
}

// A head that is taken: its stream, whether it is live for the base, its row, start and stop. Not an `Option` of what is to be queued: `taken_of` of
// specs/Move, over which `decide`'s clause stands, gives all five.
#[derive(Clone, Copy)]
pub struct Taken {
    pub stream: Stream,
    pub live: bool,
    pub row: u64,
    pub start: u64,
    pub stop: u64,
}

// A row that was read, and the place after it in the lent columns.
#[derive(Clone, Copy)]
pub struct Next {
    pub chrom: Chrom,
    pub start: u64,
    pub stop: u64,
    pub row: u64,
    pub next: usize,
}

// What a turn of a pull comes to.
#[derive(Clone, Copy)]
pub enum Move {
    // No head is to be taken; the least one, if there is any.
    Stay(Option<Best>),
    // A head is taken, and the row behind it, if there is one, is its stream's head.
    Takes(Taken, Option<Next>),
}

// The heads of a run: of each stream its head as four numbers (chromosome, start, stop, row), its mark (0: it goes on), the place of the row behind
// its head in the lent columns, and where its rows begin and end there. Arrays of numbers: they are a run's own, copied as they lie (C's layout).
#[derive(Clone, Copy)]
pub struct Heads {
    pub fours: [[u64; 4]; 8],
    pub ended: [u64; 8],
    pub next: [usize; 8],
    pub from: [usize; 8],
    pub to: [usize; 8],
    pub streams: usize,
}

// Whether a head is taken at a base: it lies on an earlier chromosome, or on the base's with start < base stop.
pub fn is_taken(b: Base, h: Best) -> bool
    ensures { result ≡ taken b (best_record h) }
{
    h.chrom < b.chrom || h.chrom == b.chrom && measures::reaches(b.stop, h.start)
}

// Whether a head is live for a base: it is on the base's chromosome and ends after base start.
pub fn is_live(b: Base, h: Best) -> bool
    ensures { result ≡ live b (best_record h) }
{
    h.chrom == b.chrom && measures::lasts(b.start, h.stop)
}

// Whether a row's chromosome is one of n, and its start no later than its stop; else 7.
fn is_good(n: u64, x: Next) -> bool
    ensures { result ≡ good n (next_row x) }
{
    x.chrom.0 < n && x.start <= x.stop
}

// Whether a row is in order behind a head, by chromosome and start; else 8.
fn is_ordered(h: Best, x: Next) -> bool
    ensures { result ≡ follows (best_record h).it (next_row x) }
{
    (h.chrom, h.start) <= (x.chrom, x.start)
}

// 7 and 8, each out of line, for speed (docs/DECISIONS.md, "Heads"): a run meets one of them once at most.
#[cold]
#[inline(never)]
fn faulty(stream: Stream, row: u64) -> End
    ensures { result ≡ Faulty stream row }
{
    End::Faulty(stream, row)
}

#[cold]
#[inline(never)]
fn unsorted(stream: Stream, row: u64) -> End
    ensures { result ≡ Unsorted stream row }
{
    End::Unsorted(stream, row)
}

// What is wrong with the first row of stream k, of n chromosomes: 7.
fn check_first(n: u64, k: Stream, x: Next) -> Result<(), End>
    ensures { result ≡ check_of (fault n none (next_record k x)) }
{
    if is_good(n, x) {
        return Ok(());
    }
    Err(faulty(k, x.row))
}

// What is wrong with the row behind a head: 7, then 8.
fn check_behind(n: u64, h: Best, x: Next) -> Result<(), End>
    ensures { result ≡ check_of (fault n (some (best_record h).it) (next_record h.stream x)) }
{
    if !is_good(n, x) {
        return Err(faulty(h.stream, x.row));
    }
    if !is_ordered(h, x) {
        return Err(unsorted(h.stream, x.row));
    }
    Ok(())
}

impl Columns<'_> {
    // The row at a place, in a stream whose rows begin at `first`.
    fn row(self, at: usize, first: usize) -> Next
        requires { (first ≤ at) × (at < length self.chrom.now) × (length self.start.now ≡ length self.chrom.now) × (length self.stop.now ≡ length self.chrom.now) }
        ensures { result ≡ next_of (row_at (cols_of self.entry) first 0 at) (at + 1) }
    {
        Next {
            chrom: Chrom(self.chrom[at]),
            start: self.start[at],
            stop: self.stop[at],
            row: (at - first) as u64,
            next: at + 1,
        }
    }
}

// A head is taken, and the row behind it is read and checked.
fn follow(t: Taken, h: Best, at: usize, first: usize, n: u64, s: Columns) -> Result<Move, End>
    requires { (first ≤ at) × (at < length s.chrom.now) × (length s.start.now ≡ length s.chrom.now) × (length s.stop.now ≡ length s.chrom.now) }
    ensures { result ≡ takes t (at + 1) (fault n (some (best_record h).it) (row_at (cols_of s.entry) first h.stream.0 at)) (row_at (cols_of s.entry) first h.stream.0 at ∷ []) }
{
    let x = s.row(at, first);
    check_behind(n, h, x)?;
    Ok(Move::Takes(t, Some(x)))
}

// Whether the streams' rows are among the lent ones, of the three columns' lengths. Numbers and arrays, not `Heads`: `PlacedIn`, which this promises,
// speaks of a run's own arrays and of lengths alone.
pub fn is_placed(
    streams: usize,
    next: &[usize; 8],
    from: &[usize; 8],
    to: &[usize; 8],
    chroms: usize,
    starts: usize,
    stops: usize,
) -> bool
    ensures { Says result (PlacedIn chroms starts stops streams next.now from.now to.now) }
{
    if Settings::STREAMS < streams || starts != chroms || stops != chroms {
        return false;
    }
    for k in 0..streams {
        if next[k] < from[k] || chroms < to[k] {
            return false;
        }
    }
    true
}

impl Heads {
    // What the next turn of a pull at a base comes to, or what is wrong with the row behind the head that is to be taken; n is the number of
    // chromosomes.
    #[tactic(auto, using(least::proofs::LeastLaws::least_inside))]
    pub fn decide(&self, b: Base, n: u64, s: Columns) -> Result<Move, End>
        requires { Placed (cols_of s) self.now.streams self.now.next self.now.from self.now.to }
        ensures { result ≡ turn_of (cols_of s.entry) n b (heads_in self.now) }
    {
        let Some(h) = least::least(&self.fours, &self.ended, self.streams) else {
            return Ok(Move::Stay(None));
        };
        if !is_taken(b, h) {
            return Ok(Move::Stay(Some(h)));
        }
        let t = Taken {
            stream: h.stream,
            live: is_live(b, h),
            row: h.row,
            start: h.start,
            stop: h.stop,
        };
        let k = h.stream.0 as usize;
        let at = self.next[k];
        if self.to[k] <= at {
            return Ok(Move::Takes(t, None));
        }
        follow(t, h, at, self.from[k], n, s)
    }

    // Stream k goes on: it has another head, or has ended.
    pub fn go_on(&mut self, k: usize, next: Option<Next>)
        requires { k < 8 }
        ensures { heads_in self.new ≡ turn_at (heads_in self.old) k next }
    {
        match next {
            None => self.ended[k] = 1,
            Some(x) => {
                self.fours[k] = [x.chrom.0, x.start, x.stop, x.row];
                self.ended[k] = 0;
                self.next[k] = x.next;
            }
        }
    }

    // The first head of stream k is read, checked and stored, or it is told what is wrong with it.
    fn begin(&mut self, k: usize, n: u64, s: Columns) -> Result<(), End>
        requires { Placed (cols_of s) self.old.streams self.old.next self.old.from self.old.to × (k < self.old.streams) }
        ensures begun { BeginsAs (cols_of s.entry) n (heads_in self.old) k result (heads_in self.new) }
        ensures ranges { RangesStay (heads_in self.old) (heads_in self.new) }
    {
        let at = self.next[k];
        let first = self.from[k];
        if self.to[k] <= at {
            self.go_on(k, None);
            return Ok(());
        }
        let x = s.row(at, first);
        check_first(n, Stream(k as u64), x)?;
        self.go_on(k, Some(x));
        Ok(())
    }

    // The first head of each stream is read and checked, stream 0 first, up to the first fault, which is told.
    pub fn load(&mut self, n: u64, s: Columns) -> Result<(), End>
        requires { Loadable (cols_of s) (heads_in self.old) }
        ensures loaded { LoadsAs (cols_of s.entry) n (heads_in self.old) result (heads_in self.new) }
        ensures ranges { RangesStay (heads_in self.old) (heads_in self.new) }
    {
        for k in 0..self.streams {
            self.begin(k, n, s)?;
        }
        Ok(())
    }
}
