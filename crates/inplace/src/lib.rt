// Calls for hosts: a run kept in place by its caller, and the readers. Their slices are each a parameter, as C passes them.
#![tactic(auto)]

mod readers;
mod told;

ghost use Rattle.std.specs.Prelude.{◌≡◌};
ghost use Rattle.heads.specs.View.{cols, cols_of};
ghost use Rattle.pulls.specs.Pulls.{lent};
ghost use Rattle.inplace.specs.Calls.{eight_of, streams_in, plan_of, BeginsInPlace, GivesInPlace};
ghost use Rattle.runs.specs.Start.{start_of};

use fields::NameList;
use heads::Columns;
pub use readers::{Tally, cedarlash_check_list, cedarlash_read_list, cedarlash_read_rows};
pub use rules::Settings;
use rules::Unbegun;
pub use runs::{Mark, Run};
pub use told::{Offered, Stopped};

// What bases came to that were given one after the other: how many were answered, how many records these have together, what was offered after the last
// of them, and what stopped them, where the next one was given and got no records. C's layout: numbers alone.
#[repr(C)]
#[derive(Clone, Copy)]
pub struct Swept {
    pub bases: usize,
    pub records: usize,
    pub offer: Offered,
    pub last: Stopped,
}

// The first eight numbers, with 0 for those that are not there. They are written out: of `array::from_fn` the proof did not close.
fn eight_of(s: &[usize]) -> [usize; 8]
    ensures { result ≡ eight_of s.now }
{
    let at = |k: usize| s.get(k).copied().unwrap_or(0);
    [at(0), at(1), at(2), at(3), at(4), at(5), at(6), at(7)]
}

// How many streams there are: none where the columns of their ranges' two ends are not both of that length.
fn streams_in(streams: usize, from: usize, to: usize) -> usize
    ensures { result ≡ streams_in streams from to }
{
    if from == streams && to == streams {
        streams
    } else {
        0
    }
}

// Begins a run whose streams' ranges stand in two columns.
fn begin_run(
    settings: Settings,
    from: &[usize],
    to: &[usize],
    names: NameList,
    columns: Columns,
) -> Result<Run, Unbegun>
    ensures { result ≡ start_of (plan_of settings from.now to.now names.entry.text.now names.entry.from.now names.entry.to.now (cols_of columns.entry)) }
{
    let fixed = Settings {
        streams: streams_in(settings.streams, from.len(), to.len()),
        chroms: settings.chroms,
        room: settings.room,
    };
    Run::start(fixed, eight_of(from), eight_of(to), names, columns)
}

// Begins a run in place. Given are what is fixed from its start, for each stream where its rows begin and end in the lent columns of chromosomes, starts
// and stops, and the chromosomes' names, by where each begins and ends in a text. 0 where a run begins, else the refusal.
#[unsafe(no_mangle)]
pub extern "C" fn cedarlash_begin(
    run: &mut Run,
    settings: Settings,
    from: &[usize],
    to: &[usize],
    text: &[u8],
    names_from: &[usize],
    names_to: &[usize],
    chrom: &[u64],
    start: &[u64],
    stop: &[u64],
) -> u64
    ensures { BeginsInPlace (plan_of settings from.now to.now text.now names_from.now names_to.now
        (cols chrom.now start.now stop.now)) result run.new }
{
    let names = NameList {
        text,
        from: names_from,
        to: names_to,
    };
    let columns = Columns { chrom, start, stop };
    let begun = begin_run(settings, from, to, names, columns);
    *run = Run::kept(begun);
    match begun {
        Ok(_) => 0,
        Err(x) => x.number(),
    }
}

// Gives the bases of three columns to the run in place, one base or many, one after the other, until one gets no records, or fewer answer rows are left
// than records can wait. The records of each base stand in the answer rows behind those of the bases ahead of it, and its count stands in its place of
// `counts`. Lent beside the bases are the streams' columns, the chromosomes' lengths, the queue's slots, the answer rows and the counts.
#[unsafe(no_mangle)]
pub extern "C" fn cedarlash_give(
    run: &mut Run,
    bchrom: &[u64],
    bstart: &[u64],
    bstop: &[u64],
    chrom: &[u64],
    start: &[u64],
    stop: &[u64],
    lengths: &[u64],
    queue: &mut [[u64; 4]],
    answers: &mut [[u64; 2]],
    counts: &mut [usize],
) -> Swept
    ensures { GivesInPlace (cols chrom.now start.now stop.now) lengths.now (cols bchrom.now bstart.now bstop.now) run.old
        (lent queue.old answers.old) counts.old result run.new (lent queue.new answers.new) counts.new }
{
    let bases = Columns {
        chrom: bchrom,
        start: bstart,
        stop: bstop,
    };
    let s = Columns { chrom, start, stop };
    let p = many::give_all(*run, bases, s, lengths, queue, answers, counts);
    *run = p.run;
    Swept {
        bases: p.bases,
        records: p.records,
        offer: p.offer.into(),
        last: p.last.into(),
    }
}
