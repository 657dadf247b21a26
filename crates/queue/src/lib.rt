// Records waiting for later bases: a ring of lent slots (stream, row, start, stop), all on one chromosome.
#![tactic(auto)]

ghost use Rattle.std.specs.Prelude.{◌≡◌, ◌+◌, ◌≤◌, ◌<◌, length};
ghost use Rattle.basics.specs.Lists.{filter};
ghost use Rattle.rules.specs.Overlap.{overlaps};
ghost use Rattle.queue.specs.Ring.{Fair, slot_in, slot_at, numbers_of, place, waiting};
ghost use Rattle.queue.specs.Deeds.{Clears, Pushes, Scannable, Scans, Fronts, Skips, Leads, Packs, Packable};

use rules::{Base, Chrom, Stream};

// How many wait, where the oldest stands, how many slots were lent, and the chromosome that all are on. What a ring keeps to (`Fair`) stands in the
// clauses and not in the type: a run may have any content, and 1's test asks of its ring whether it is fair.
#[derive(Clone, Copy)]
pub struct Ring {
    pub head: usize,
    pub len: usize,
    pub room: usize,
    pub chrom: Chrom,
}

// A record on the ring's chromosome.
#[derive(Clone, Copy)]
pub struct Slot {
    pub stream: Stream,
    pub row: u64,
    pub start: u64,
    pub stop: u64,
}

// A slot of the lent memory is four numbers: so hosts lend it, in C's layout.
impl From<[u64; 4]> for Slot {
    ghost from_gives = { λ x y. y ≡ slot_in x };

    fn from(x: [u64; 4]) -> Slot {
        Slot {
            stream: Stream(x[0]),
            row: x[1],
            start: x[2],
            stop: x[3],
        }
    }
}

impl From<Slot> for [u64; 4] {
    ghost from_gives = { λ x y. y ≡ numbers_of x };

    fn from(x: Slot) -> [u64; 4] {
        [x.stream.0, x.row, x.start, x.stop]
    }
}

impl Ring {
    // A ring in which nothing waits.
    pub fn empty(room: usize, chrom: Chrom) -> Ring
        ensures { result ≡ record { head = 0; len = 0; room = room; chrom = chrom } }
    {
        Ring {
            head: 0,
            len: 0,
            room,
            chrom,
        }
    }

    // Where number k stands, counted from the head.
    #[tactic(auto, unfolding(crate::specs::Ring::place))]
    pub fn place_of(self, k: usize) -> usize
        requires { (self.head < self.room) × (k ≤ self.room) × (self.room ≤ 65536) }
        ensures { (result ≡ place self.head self.room k) × (result < self.room) }
    {
        let at = self.head + k;
        if at < self.room { at } else { at - self.room }
    }

    // Number k of those that wait.
    pub fn slot(self, queue: &[[u64; 4]], k: usize) -> Slot
        requires { Fair self queue.now × (k < self.len) }
        ensures { result ≡ slot_at queue.now (place self.head self.room k) }
    {
        Slot::from(queue[self.place_of(k)])
    }

    // Where the first that waits starts, if any does.
    #[tactic(auto, using(crate::proofs::Waiting::front_none, crate::proofs::Waiting::front_first))]
    pub fn front(self, queue: &[[u64; 4]]) -> Option<u64>
        requires { Fair self queue.now }
        ensures { Fronts self queue.now result }
    {
        if self.len == 0 {
            return None;
        }
        Some(self.slot(queue, 0).start)
    }

    // The ring with one more at the end, where there is room.
    #[tactic(auto, using(crate::proofs::Pushing::push_full, crate::proofs::Pushing::push_done))]
    pub fn push(self, queue: &mut [[u64; 4]], slot: Slot) -> Option<Ring>
        requires { Fair self queue.old }
        ensures { Pushes self queue.old slot result
            queue.new }
    {
        if self.len == self.room {
            return None;
        }
        let at = self.place_of(self.len);
        queue[at] = slot.into();
        Some(Ring {
            len: self.len + 1,
            ..self
        })
    }

    // Past the records at the front that do not end after `from`: the head moves, and no slot does. It counts no index: each turn is of a smaller ring.
    #[tactic(auto, using(crate::proofs::Clearing::skipping_stop, crate::proofs::Clearing::skipping_next, crate::proofs::Clearing::skipping_end))]
    fn skip(self, queue: &[[u64; 4]], from: u64) -> Ring
        requires { Fair self queue.now }
        ensures { Skips self queue.now from result }
    {
        let mut led = self;
        while 0 < led.len && !measures::lasts(from, led.slot(queue, 0).stop) {
            led.head = led.place_of(1);
            led.len -= 1;
        }
        led
    }

    // How many records at the front end after `from`, up to the first that does not.
    #[tactic(auto, using(crate::proofs::Clearing::leads_all, crate::proofs::Clearing::leads_stop))]
    fn live_ahead(self, queue: &[[u64; 4]], from: u64) -> usize
        requires { Fair self queue.now }
        ensures { Leads self queue.now from result }
    {
        for k in 0..self.len {
            if !measures::lasts(from, self.slot(queue, k).stop) {
                return k;
            }
        }
        self.len
    }

    // The records that end after `from`, moved up in their order; the first n are known to be among them and stay.
    #[tactic(auto, using(crate::proofs::Clearing::packing_start, crate::proofs::Clearing::packing_end))]
    fn pack(self, queue: &mut [[u64; 4]], from: u64, n: usize) -> Ring
        requires { Packable self queue.old from n }
        ensures { Packs self queue.old from result
            queue.new }
    {
        let mut kept = n;
        for k in n..self.len {
            let at = self.place_of(k);
            if measures::lasts(from, Slot::from(queue[at]).stop) {
                let to = self.place_of(kept);
                queue[to] = queue[at];
                kept += 1;
            }
        }
        Ring { len: kept, ..self }
    }

    // The records that are live for the base b, in their order. On another chromosome than the ring's there is none. Else the head
    // moves past what is dead, nothing is moved up to the first dead one behind it, and the rest is gone through once.
    #[tactic(auto, using(crate::proofs::Clearing::clears_other, crate::proofs::Clearing::packable_led, crate::proofs::Clearing::clears_own))]
    pub fn clear(self, queue: &mut [[u64; 4]], b: Base) -> Ring
        requires { Fair self queue.old }
        ensures { Clears self queue.old b result
            queue.new }
    {
        if self.chrom != b.chrom {
            return Ring::empty(self.room, b.chrom);
        }
        let led = self.skip(queue, b.start);
        let n = led.live_ahead(queue, b.start);
        led.pack(queue, b.start, n)
    }

    // The stream and the row of each record of the base b, in their order, to the answer rows: how many. All that wait are live
    // for b, so the stops are not looked at.
    pub fn scan(self, queue: &[[u64; 4]], b: Base, answers: &mut [[u64; 2]]) -> usize
        requires { Scannable self queue.now b answers.old }
        ensures { Scans (filter (overlaps b) (waiting self queue.now))
            answers.old result answers.new }
    {
        let mut n = 0;
        for k in 0..self.len {
            let slot = self.slot(queue, k);
            if measures::reaches(b.stop, slot.start) {
                answers[n] = [slot.stream.0, slot.row];
                n += 1;
            }
        }
        n
    }
}
