// What a base gets: the records that overlap it, of those that wait, and the offered place. What waits first, or else the least head, says how far
// bases may be left out.
#![tactic(auto)]

ghost use Rattle.std.specs.Prelude.{◌≡◌};
ghost use Rattle.std.proofs.Math.Option.{some};
ghost use Rattle.rules.specs.Overlap.{awaited};
ghost use Rattle.rules.specs.Offer.{place_for};
ghost use Rattle.heads.specs.Move.{best_record};
ghost use Rattle.queue.specs.Deeds.{Scannable};
ghost use Rattle.offers.specs.Offers.{start_at, offer_by, Reports};

use least::Best;
use queue::Ring;
use rules::{Answer, Base, Chrom, Offer, Place};

// The place for a record that starts at `start` on a chromosome, the first that the base awaits.
fn place_for(b: Base, chrom: Chrom, start: u64) -> Offer
    ensures { result ≡ place_for b (some (start_at chrom start)) }
{
    if b.chrom < chrom {
        return Some(Place { chrom, stop: start });
    }
    if start <= b.stop || start - b.stop <= 100_000 {
        return None;
    }
    Some(Place {
        chrom,
        stop: start - 1,
    })
}

// Whether a base awaits a head: it lies on a later chromosome, or on the base's and ends after base start.
fn is_awaited(b: Base, h: Best) -> bool
    ensures { result ≡ awaited b (best_record h) }
{
    b.chrom < h.chrom || b.chrom == h.chrom && measures::lasts(b.start, h.stop)
}

// The offer after a base: `first` is where the first that waits starts.
#[tactic(auto, unfolding(crate::specs::Offers::offer_by))]
fn offer_after(b: Base, first: Option<u64>, least: Option<Best>) -> Offer
    ensures { result ≡ offer_by b first least }
{
    if b.stop <= b.start {
        return None;
    }
    if let Some(start) = first {
        return place_for(b, b.chrom, start);
    }
    let h = least?;
    if !is_awaited(b, h) {
        return None;
    }
    place_for(b, h.chrom, h.start)
}

// The answer to a base for which no head is to be taken any more: its records are written, and a place is offered. q holds what waits, all of it
// live for the base, and h is the least head.
pub fn report(
    q: Ring,
    h: Option<Best>,
    b: Base,
    queue: &[[u64; 4]],
    answers: &mut [[u64; 2]],
) -> Answer
    requires { Scannable q queue.now b answers.old }
    ensures { Reports q queue.now h b answers.old result answers.new }
{
    let first = q.front(queue);
    let o = offer_after(b, first, h);
    let n = q.scan(queue, b, answers);
    Answer::Found(n, o)
}
