// An accepted base: heads are taken, what is live is queued, and the base is answered. The heads lie in one array of fours and go on in place.
#![tactic(auto)]

ghost use Rattle.std.specs.Prelude.{◌≡◌};
ghost use Rattle.heads.specs.View.{cols_of, heads_in};
ghost use Rattle.heads.specs.Load.{RangesStay};
ghost use Rattle.queue.specs.Ring.{Fair};
ghost use Rattle.pulls.specs.Pulls.{lent, Keeps, Drawable, DrawsAs, Settleable, SettlesAs};

use heads::{Columns, Heads, Move, Taken};
use queue::{Ring, Slot};
use rules::{Answer, Base, End};

// What a base gets that was accepted, and the queue after it.
#[derive(Clone, Copy)]
pub struct Answered {
    pub ring: Ring,
    pub answer: Answer,
}

// A record that was taken is queued where it is live; `None` where there is no room for it.
fn keep(q: Ring, t: Taken, queue: &mut [[u64; 4]]) -> Option<Ring>
    requires { Fair q queue.old }
    ensures { Keeps q queue.old t result queue.new }
{
    if !t.live {
        return Some(q);
    }
    let slot = Slot {
        stream: t.stream,
        row: t.row,
        start: t.start,
        stop: t.stop,
    };
    q.push(queue, slot)
}

// Heads are taken while they lie ahead of the base's stop, and what is live is queued; then the base is answered. The heads go on in place; `chroms` is
// the number of chromosomes. The slots and the answer rows are lent apart from one another: a struct that held them would have to say of each call whose
// slices it still holds.
fn draw(
    heads: &mut Heads,
    chroms: usize,
    ring: Ring,
    b: Base,
    s: Columns,
    queue: &mut [[u64; 4]],
    answers: &mut [[u64; 2]],
) -> Answered
    requires { Drawable (cols_of s) (heads_in heads.old) b ring (lent queue.old answers.old) }
    ensures drawn { DrawsAs (cols_of s.entry) chroms (heads_in heads.old) b ring (lent queue.old answers.old) result
        (heads_in heads.new) (lent queue.new answers.new) }
    ensures ranges { RangesStay (heads_in heads.old) (heads_in heads.new) }
{
    let n = chroms as u64;
    let mut q = ring;
    loop {
        match heads.decide(b, n, s) {
            Ok(Move::Stay(least)) => {
                let answer = offers::report(q, least, b, queue, answers);
                return Answered { ring: q, answer };
            }
            Err(e) => {
                return Answered {
                    ring: q,
                    answer: Answer::Ended(e),
                };
            }
            Ok(Move::Takes(t, next)) => {
                heads.go_on(t.stream.0 as usize, next);
                let Some(w) = keep(q, t, queue) else {
                    return Answered {
                        ring: q,
                        answer: Answer::Ended(End::NoRoom),
                    };
                };
                q = w;
            }
        }
    }
}

// An accepted base: what is not live is cleared, and the pull begins. The heads go on in place, as with `draw`.
pub fn settle(
    heads: &mut Heads,
    chroms: usize,
    ring: Ring,
    b: Base,
    s: Columns,
    queue: &mut [[u64; 4]],
    answers: &mut [[u64; 2]],
) -> Answered
    requires { Settleable (cols_of s) (heads_in heads.old) ring (lent queue.old answers.old) }
    ensures settled { SettlesAs (cols_of s.entry) chroms (heads_in heads.old) b ring (lent queue.old answers.old) result
        (heads_in heads.new) (lent queue.new answers.new) }
    ensures ranges { RangesStay (heads_in heads.old) (heads_in heads.new) }
{
    let live = ring.clear(queue, b);
    draw(heads, chroms, live, b, s, queue, answers)
}
