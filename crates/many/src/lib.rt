// Bases given to a run one after the other in one call: as by the call for one base, and faster.
#![tactic(auto)]

ghost use Rattle.std.specs.Prelude.{◌≡◌, ◌&&◌, ◌<◌, eqb, leb, length};
ghost use Rattle.heads.specs.View.{cols_of};
ghost use Rattle.admit.specs.Right.{right};
ghost use Rattle.pulls.specs.Pulls.{lent};
ghost use Rattle.many.specs.Many.{base_at, none_passed, Answers, GivesAll};
ghost use Rattle.many.specs.Inner.{Passable};

use admit::{Lens, Streams};
use heads::Columns;
use rules::{Answer, Base, Chrom, Offer, Refusal, Stage};
use runs::{Mark, Run};
use step::State;

// What bases came to that were given one after the other: the run after them, how many were answered, how many records these have together, what was
// offered after the last of them, and what the next one got, where it was given and got no records (so it is never `Found`: `Unfound` of specs/Many).
#[derive(Clone, Copy)]
pub struct Passed {
    pub run: Run,
    pub bases: usize,
    pub records: usize,
    pub offer: Offer,
    pub last: Option<Answer>,
}

// Base number k of columns.
fn base_at(bases: Columns, k: usize) -> Base
    requires { (k < length bases.chrom.now) × (k < length bases.start.now) × (k < length bases.stop.now) }
    ensures { result ≡ base_at (cols_of bases.entry) k }
{
    Base {
        chrom: Chrom(bases.chrom[k]),
        start: bases.start[k],
        stop: bases.stop[k],
    }
}

// Whether the columns of the bases are of one length, and there is a place for each one's count.
fn are_even(bases: Columns, counts: usize) -> bool
    ensures { let t = cols_of bases.entry in
        result ≡ eqb (length t.start) (length t.chrom) && (eqb (length t.stop) (length t.chrom) && leb (length t.chrom) counts) }
{
    let n = bases.chrom.len();
    bases.start.len() == n && bases.stop.len() == n && n <= counts
}

// No base was answered, and the first got this, if there was one.
fn none_passed(run: Run, last: Option<Answer>) -> Passed
    ensures { result ≡ none_passed run last }
{
    Passed {
        run,
        bases: 0,
        records: 0,
        offer: None,
        last,
    }
}

// The bases, one after the other, of a run that goes on and is not the cause of 1. There is at least one. The end of the run is told at once; every other
// way out of the loop leads to its end, where the run is put together; `passed` says there what `k` was. What is lent is lent apart, as with `pulls::draw`.
fn pass(
    run: Run,
    bases: Columns,
    s: Columns,
    lengths: &[u64],
    queue: &mut [[u64; 4]],
    answers: &mut [[u64; 2]],
    counts: &mut [usize],
) -> Passed
    requires { Passable (cols_of s) lengths.now (cols_of bases) run (lent queue.old answers.old) counts.old }
    ensures { Answers (cols_of s.entry) lengths.now (cols_of bases.entry) run (lent queue.old answers.old) counts.old result
        (lent queue.new answers.new) counts.new }
{
    let fixed = run.settings;
    let mut heads = run.heads();
    let mut ring = run.ring();
    let mut mark = run.mark;
    let mut offer = None;
    let mut last = None;
    let mut free: usize = 0;
    let mut passed: usize = 0;
    for k in 0..bases.chrom.len() {
        if answers.len() - free < fixed.room {
            break;
        }
        let b = base_at(bases, k);
        let at = State { fixed, ring, mark };
        let a = step::step(&mut heads, at, b, s, lengths, queue, &mut answers[free..]);
        match a.answer {
            Answer::Found(n, o) => {
                counts[k] = n;
                free += n;
                passed += 1;
                ring = a.ring;
                mark = Mark::from(Stage::After(b));
                offer = o;
            }
            Answer::Refused(x) => {
                last = Some(Answer::Refused(x));
                break;
            }
            Answer::Ended(e) => {
                return Passed {
                    run: run.over(e),
                    bases: k,
                    records: free,
                    offer,
                    last: Some(Answer::Ended(e)),
                };
            }
        }
    }
    Passed {
        run: Run::of(&heads, fixed.chroms, ring, mark),
        bases: passed,
        records: free,
        offer,
        last,
    }
}

// Gives the bases of columns to a run, one after the other, each as the call for one base would, until one gets no records but a refusal or the
// end of the run, or fewer answer rows are left than records can wait. The records of each base stand in the answer rows behind those of the bases ahead
// of it, and its count stands in its place of `counts`. 1 is tested once: a run that answered a base is not the cause of 1 afterwards.
pub fn give_all(
    run: Run,
    bases: Columns,
    s: Columns,
    lengths: &[u64],
    queue: &mut [[u64; 4]],
    answers: &mut [[u64; 2]],
    counts: &mut [usize],
) -> Passed
    ensures { GivesAll (cols_of s.entry) lengths.now (cols_of bases.entry) run (lent queue.old answers.old) counts.old result
        (lent queue.new answers.new) counts.new }
{
    let even = are_even(bases, counts.len());
    if even & (bases.chrom.len() == 0) {
        return none_passed(run, None);
    }
    if let Stage::Over(e) = run.stage() {
        return none_passed(run, Some(Answer::Ended(e)));
    }
    if !even {
        return none_passed(run, Some(Answer::Refused(Refusal::Sizes)));
    }
    let l = Lens {
        chrom: s.chrom.len(),
        start: s.start.len(),
        stop: s.stop.len(),
        lengths: lengths.len(),
        queue: queue.len(),
        answers: answers.len(),
    };
    let streams = Streams {
        count: run.settings.streams,
        ended: &run.ended,
        row: &run.row,
        next: &run.next,
        from: &run.from,
        to: &run.to,
    };
    if !admit::is_right(streams, run.settings.chroms, run.ring(), l, queue) {
        return none_passed(run, Some(Answer::Refused(Refusal::Sizes)));
    }
    pass(run, bases, s, lengths, queue, answers, counts)
}
