// Whether a base is let in to a run that goes on: refusal 1 (`is_right`), then 4, 6, 3, 5 (`judge`). There are tests only, and nothing is written.
#![tactic(auto)]

ghost use Rattle.std.specs.Prelude.{◌≡◌, ℕ, ◌-◌, ◌≤◌, ◌<◌, ltb, length, get_or};
ghost use Rattle.rules.specs.Bases.{in_order, judge};
ghost use Rattle.queue.specs.Ring.{Fair};
ghost use Rattle.admit.specs.Right.{measured, named, head_named, heads_named, slots_named, right};
ghost use Rattle.admit.specs.Gates.{lengths_of, last_of, judged_of};

use queue::Ring;
use rules::{Base, Refusal, Settings, Stage, Stream};

// The lengths of what is lent with a base: the streams' columns, the chromosomes' lengths, the queue's slots and the answer rows. Lengths alone, since 1
// looks at nothing else of these but the slots that wait, and `right` of specs/Right is over them.
#[derive(Clone, Copy)]
pub struct Lens {
    pub chrom: usize,
    pub start: usize,
    pub stop: usize,
    pub lengths: usize,
    pub queue: usize,
    pub answers: usize,
}

// The streams of a run: how many there are, and of each whether it has ended, its head's row, the place of the row behind its head, and where its
// rows begin and end. Arrays, as the run has them in C's layout, and as `right` of specs/Right takes them.
#[derive(Clone, Copy)]
pub struct Streams<'a> {
    pub count: usize,
    pub ended: &'a [u64; 8],
    pub row: &'a [u64; 8],
    pub next: &'a [usize; 8],
    pub from: &'a [usize; 8],
    pub to: &'a [usize; 8],
}

impl Lens {
    // Whether each size is kept to: the paper's, and those of the columns to one another and to the ring.
    #[tactic(auto, unfolding(crate::specs::Right::measured))]
    fn is_measured(self, streams: usize, chroms: usize, ring: Ring) -> bool
        ensures { result ≡ measured self streams chroms ring }
    {
        let room = ring.room;
        let fixed = Settings {
            streams,
            chroms,
            room,
        };
        let columns = self.start == self.chrom && self.stop == self.chrom && self.lengths == chroms;
        let lent = self.queue == room && room <= self.answers;
        let inside = ring.head < room && ring.len <= room;
        fixed.is_sized() && columns && lent && inside
    }
}

impl Streams<'_> {
    // Whether a row is one of stream k's.
    fn is_row(self, k: usize, row: u64) -> bool
        requires { k < 8 }
        ensures { result ≡ ltb row (get_or self.entry.to.now k 0 - get_or self.entry.from.now k 0) }
    {
        row < self.to[k].saturating_sub(self.from[k]) as u64
    }

    // Whether there is such a stream, and such a row of it.
    #[tactic(auto, unfolding(crate::specs::Right::named))]
    fn is_named(self, stream: Stream, row: u64) -> bool
        requires { self.count ≤ 8 }
        ensures { result ≡ named self.entry.count self.entry.from.now self.entry.to.now stream.0 row }
    {
        stream.0 < self.count as u64 && self.is_row(stream.0 as usize, row)
    }

    // Whether stream k's head names a row of it, or the stream has ended.
    #[tactic(auto, unfolding(crate::specs::Right::named))]
    fn is_head_named(self, k: usize) -> bool
        requires { (k < self.count) × (self.count ≤ 8) }
        ensures { result ≡ head_named self.entry.count self.entry.ended.now self.entry.row.now self.entry.from.now self.entry.to.now k }
    {
        least::has_ended(self.ended[k]) || self.is_row(k, self.row[k])
    }

    // Whether each head of a stream that has not ended names a row of its stream.
    #[tactic(auto, using(basics::proofs::EdgeLaws::upto_pass), unfolding(crate::specs::Right::heads_named))]
    fn heads_named(self) -> bool
        requires { self.count ≤ 8 }
        ensures { result ≡ heads_named self.entry.count self.entry.ended.now self.entry.row.now self.entry.from.now self.entry.to.now }
    {
        for k in 0..self.count {
            if !self.is_head_named(k) {
                return false;
            }
        }
        true
    }

    // Whether each record that waits names a stream and a row of it.
    fn slots_named(self, ring: Ring, queue: &[[u64; 4]]) -> bool
        requires { Fair ring queue.now × (self.count ≤ 8) }
        ensures { result ≡ slots_named self.entry.count self.entry.from.now self.entry.to.now ring queue.now }
    {
        for k in 0..ring.len {
            let slot = ring.slot(queue, k);
            if !self.is_named(slot.stream, slot.row) {
                return false;
            }
        }
        true
    }
}

// Whether a base is in order behind the last accepted one.
fn follows(stage: Stage, b: Base) -> bool
    ensures { result ≡ in_order (last_of stage) b }
{
    match stage {
        Stage::Fresh => true,
        Stage::After(last) => last <= b,
        Stage::Over(_) => true,
    }
}

// 4, 6, 3, 5, in this order.
#[tactic(auto, using(crate::proofs::JudgeLaws::judge_by))]
pub fn judge(lengths: &[u64], stage: Stage, b: Base) -> Result<(), Refusal>
    ensures { result ≡ judged_of (judge (lengths_of lengths.now) (last_of stage) b) }
{
    let Some(&length) = lengths.get(b.chrom.0 as usize) else {
        return Err(Refusal::Unlisted);
    };
    if b.stop < b.start {
        return Err(Refusal::Reversed);
    }
    if length < b.stop {
        return Err(Refusal::Beyond);
    }
    if !follows(stage, b) {
        return Err(Refusal::Unordered);
    }
    Ok(())
}

// Whether 1 is not due: of the streams of a run, its number of chromosomes and its ring, the lengths of all that is lent, and the queue's memory.
pub fn is_right(
    streams: Streams<'_>,
    chroms: usize,
    ring: Ring,
    l: Lens,
    queue: &[[u64; 4]],
) -> bool
    requires { length queue.now ≡ l.queue }
    ensures { let s = streams.entry in
        result ≡ right l s.count chroms ring s.ended.now s.row.now s.next.now s.from.now s.to.now queue.now }
{
    if !l.is_measured(streams.count, chroms, ring) {
        return false;
    }
    if !heads::is_placed(
        streams.count,
        streams.next,
        streams.from,
        streams.to,
        l.chrom,
        l.start,
        l.stop,
    ) {
        return false;
    }
    streams.heads_named() && streams.slots_named(ring, queue)
}
