// One base of a run at which 1 is not due: 4, 6, 3, 5; at the first that is accepted the heads are loaded; then it is answered. The heads go on in place.
#![tactic(auto)]

ghost use Rattle.std.specs.Prelude.{◌≡◌};
ghost use Rattle.heads.specs.View.{cols_of, heads_in};
ghost use Rattle.heads.specs.Load.{Loadable, RangesStay};
ghost use Rattle.pulls.specs.Pulls.{lent};
ghost use Rattle.step.specs.Step.{OpensAs, Ready, Steps};

use heads::{Columns, Heads};
use pulls::Answered;
use queue::Ring;
use rules::{Answer, Base, End, Settings, Stage};
use runs::Mark;

// How a run stands between two bases, beside its heads: what is fixed from its start, what waits, and its mark.
#[derive(Clone, Copy)]
pub struct State {
    pub fixed: Settings,
    pub ring: Ring,
    pub mark: Mark,
}

// The heads are loaded where no base was accepted yet, or it is told what is wrong with a first row.
fn opened(stage: Stage, heads: &mut Heads, chroms: usize, s: Columns) -> Result<(), End>
    requires { Loadable (cols_of s) (heads_in heads.old) }
    ensures opens { OpensAs stage (cols_of s.entry) chroms (heads_in heads.old) result (heads_in heads.new) }
    ensures ranges { RangesStay (heads_in heads.old) (heads_in heads.new) }
{
    match stage {
        Stage::Fresh => heads.load(chroms as u64, s),
        Stage::After(_) | Stage::Over(_) => Ok(()),
    }
}

// One base b of a run that stands so, goes on, and is not the cause of 1: what it gets, and the queue after it. The heads go on in place; what the run is
// then is told by the answer. What is lent is lent apart, as with `pulls::draw`; the columns and the lengths, too: `admit::judge` looks at no column, and
// `pulls` at no length.
pub fn step(
    heads: &mut Heads,
    at: State,
    b: Base,
    s: Columns,
    lengths: &[u64],
    queue: &mut [[u64; 4]],
    answers: &mut [[u64; 2]],
) -> Answered
    requires { Ready (cols_of s) lengths.now (heads_in heads.old) at (lent queue.old answers.old) }
    ensures steps { Steps (cols_of s.entry) lengths.now (heads_in heads.old) at b (lent queue.old answers.old) result
        (heads_in heads.new) (lent queue.new answers.new) }
    ensures ranges { RangesStay (heads_in heads.old) (heads_in heads.new) }
{
    let ring = at.ring;
    let stage = Stage::from(at.mark);
    if let Err(x) = admit::judge(lengths, stage, b) {
        return Answered {
            ring,
            answer: Answer::Refused(x),
        };
    }
    let chroms = at.fixed.chroms;
    if let Err(e) = opened(stage, heads, chroms, s) {
        return Answered {
            ring,
            answer: Answer::Ended(e),
        };
    }
    pulls::settle(heads, chroms, ring, b, s, queue, answers)
}
