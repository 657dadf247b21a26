// The least of the heads of up to eight streams, each four numbers: chromosome, start, stop and row.
#![tactic(auto)]

ghost use Rattle.std.specs.Prelude.{◌≡◌, ◌<◌, ◌≤◌};
ghost use Rattle.least.specs.Fours.{is_ended};
ghost use Rattle.least.specs.Least.{sooner, best_at, better_of, least_in, stream_of};

use rules::{Chrom, Stream};

// A head and its stream.
#[derive(Clone, Copy)]
pub struct Best {
    pub stream: Stream,
    pub chrom: Chrom,
    pub start: u64,
    pub stop: u64,
    pub row: u64,
}

// Whether a head is before four numbers, by chromosome, start and stop. Not by comparing tuples: of eight streams a record then costs 294 instructions,
// of which the bar of `docs/PERFORMANCE.md` leaves 286; by these tests it costs 254.
#[tactic(auto, unfolding(crate::specs::Least::sooner))]
fn is_sooner(b: Best, x: [u64; 4]) -> bool
    ensures { result ≡ sooner b x }
{
    if b.chrom.0 < x[0] {
        return true;
    }
    if x[0] < b.chrom.0 {
        return false;
    }
    if b.start < x[1] {
        return true;
    }
    if x[1] < b.start {
        return false;
    }
    b.stop < x[2]
}

// Four numbers as the head of stream k.
fn best_at(k: Stream, x: [u64; 4]) -> Best
    ensures { result ≡ best_at k x }
{
    Best {
        stream: k,
        chrom: Chrom(x[0]),
        start: x[1],
        stop: x[2],
        row: x[3],
    }
}

// Whether a stream has ended, by its mark: 0, it goes on. The mark is a number since a run is numbers alone, in its host's memory.
pub fn has_ended(mark: u64) -> bool
    ensures { result ≡ is_ended mark }
{
    mark != 0
}

// The better of stream k's head and the best of the streams after it: the earlier stream's, unless the other is before it.
#[tactic(auto, unfolding(crate::specs::Least::better_of))]
fn better(k: Stream, n: u64, x: [u64; 4], mark: u64, later: Option<Best>) -> Option<Best>
    ensures { result ≡ better_of k n x (is_ended mark) later }
{
    if n <= k.0 {
        return later;
    }
    if has_ended(mark) {
        return later;
    }
    match later {
        None => Some(best_at(k, x)),
        Some(b) => {
            if is_sooner(b, x) {
                return Some(b);
            }
            Some(best_at(k, x))
        }
    }
}

// The stream of the least head of n streams, the earlier one's of equal heads. All eight places are looked at, from the last one back.
fn least_of(q: [[u64; 4]; 8], ended: [u64; 8], n: usize) -> Option<Stream>
    requires { n ≤ 8 }
    ensures { result ≡ stream_of (least_in q ended n) }
{
    let mut best = None;
    for k in (0..8).rev() {
        best = better(Stream(k as u64), n as u64, q[k], ended[k], best);
    }
    Some(best?.stream)
}

// The same of one stream or two: two places are looked at. It stands beside the one of eight places for its speed: with one function for both a record
// cost 248 instructions instead of 150 (docs/DECISIONS.md, "Heads").
fn least_of_two(q: [[u64; 4]; 8], ended: [u64; 8], n: usize) -> Option<Stream>
    requires { (0 < n) × (n ≤ 2) }
    ensures { result ≡ stream_of (least_in q ended n) }
{
    if n < 2 {
        return if has_ended(ended[0]) {
            None
        } else {
            Some(Stream(0))
        };
    }
    if has_ended(ended[1]) {
        return if has_ended(ended[0]) {
            None
        } else {
            Some(Stream(0))
        };
    }
    if has_ended(ended[0]) {
        return Some(Stream(1));
    }
    if is_sooner(best_at(Stream(1), q[1]), q[0]) {
        return Some(Stream(1));
    }
    Some(Stream(0))
}

// The stream of the least head. The heads are handed over by value: of one or two streams two places are looked at, else all eight.
fn choose(fours: &[[u64; 4]; 8], ended: &[u64; 8], n: usize) -> Option<Stream>
    requires { n ≤ 8 }
    ensures { result ≡ stream_of (least_in fours.now ended.now n) }
{
    match n {
        1 | 2 => least_of_two(*fours, *ended, n),
        _ => least_of(*fours, *ended, n),
    }
}

// The least head of n streams, the earlier stream's of equal ones.
pub fn least(fours: &[[u64; 4]; 8], ended: &[u64; 8], n: usize) -> Option<Best>
    requires { n ≤ 8 }
    ensures { result ≡ least_in fours.now ended.now n }
{
    let k = choose(fours, ended, n)?;
    let at = k.0 as usize;
    Some(best_at(k, fours[at]))
}
