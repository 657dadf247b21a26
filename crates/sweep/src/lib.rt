// The sweep: one base in, its records and an offer out.
#![tactic(auto)]

ghost use Rattle.heads.specs.View.{cols_of};
ghost use Rattle.pulls.specs.Pulls.{lent};
ghost use Rattle.step.specs.Give.{Gives};

use heads::Columns;
use rules::{Answer, Base};
use runs::{Given, Run};

// Gives a base to a run: it goes through the call for many bases, as one. Lent are the streams' columns, the chromosomes' lengths, the queue's slots and
// the answer rows, each by itself, as with `pulls::draw`.
pub fn give(
    run: Run,
    b: Base,
    s: Columns,
    lengths: &[u64],
    queue: &mut [[u64; 4]],
    answers: &mut [[u64; 2]],
) -> Given
    ensures { Gives (cols_of s.entry) lengths.now run b (lent queue.old answers.old) result (lent queue.new answers.new) }
{
    let chrom = [b.chrom.0];
    let start = [b.start];
    let stop = [b.stop];
    let bases = Columns {
        chrom: &chrom,
        start: &start,
        stop: &stop,
    };
    let mut count = [0; 1];
    let p = many::give_all(run, bases, s, lengths, queue, answers, &mut count);
    match p.last {
        None => Given {
            run: p.run,
            answer: Answer::Found(p.records, p.offer),
        },
        Some(answer) => Given { run: p.run, answer },
    }
}
