// The archive of the calls for hosts: each call of `inplace` under its C name, which promises what that one promises. The clauses stand again since an
// exported function has its own; and the slices are each a parameter, as C passes them.
#![tactic(auto)]

ghost use Rattle.std.specs.Prelude.{◌≡◌, length};
ghost use Rattle.chroms.specs.Check.{check_of, check_number};
ghost use Rattle.chroms.specs.Entry.{list_found, from_of, to_of, len_of};
ghost use Rattle.rows.specs.Row.{rows_found, chrom_of, start_of, stop_of};
ghost use Rattle.heads.specs.View.{cols};
ghost use Rattle.pulls.specs.Pulls.{lent};
ghost use Rattle.inplace.specs.Calls.{plan_of, BeginsInPlace, GivesInPlace};
ghost use Rattle.inplace.specs.Tally.{Tallies};

use inplace::{Run, Settings, Swept, Tally};

// Begins a run in place. Given are what is fixed from its start, for each stream where its rows begin and end in the lent columns of chromosomes, starts
// and stops, and the chromosomes' names, by where each begins and ends in a text. 0 where a run begins, else the refusal.
#[unsafe(no_mangle)]
pub extern "C" fn cedarlash_begin(
    run: &mut Run,
    settings: Settings,
    from: &[usize],
    to: &[usize],
    text: &[u8],
    names_from: &[usize],
    names_to: &[usize],
    chrom: &[u64],
    start: &[u64],
    stop: &[u64],
) -> u64
    ensures { BeginsInPlace (plan_of settings from.now to.now text.now names_from.now names_to.now
        (cols chrom.now start.now stop.now)) result run.new }
{
    inplace::cedarlash_begin(
        run, settings, from, to, text, names_from, names_to, chrom, start, stop,
    )
}

// Gives the bases of three columns to the run in place, one base or many, one after the other, until one gets no records, or fewer answer rows are left
// than records can wait. The records of each base stand in the answer rows behind those of the bases ahead of it, and its count stands in its place of
// `counts`. Lent beside the bases are the streams' columns, the chromosomes' lengths, the queue's slots, the answer rows and the counts.
#[unsafe(no_mangle)]
pub extern "C" fn cedarlash_give(
    run: &mut Run,
    bchrom: &[u64],
    bstart: &[u64],
    bstop: &[u64],
    chrom: &[u64],
    start: &[u64],
    stop: &[u64],
    lengths: &[u64],
    queue: &mut [[u64; 4]],
    answers: &mut [[u64; 2]],
    counts: &mut [usize],
) -> Swept
    ensures { GivesInPlace (cols chrom.now start.now stop.now) lengths.now (cols bchrom.now bstart.now bstop.now) run.old
        (lent queue.old answers.old) counts.old result run.new (lent queue.new answers.new) counts.new }
{
    inplace::cedarlash_give(
        run, bchrom, bstart, bstop, chrom, start, stop, lengths, queue, answers, counts,
    )
}

// Reads a chromosome list to three columns: where each name starts and ends in the text, and its length.
#[unsafe(no_mangle)]
pub extern "C" fn cedarlash_read_list(
    text: &[u8],
    from: &mut [usize],
    to: &mut [usize],
    len: &mut [u64],
) -> Tally
    ensures { Tallies from_of to_of len_of (list_found text.now (length from.old) (length to.old) (length len.old))
        from.old to.old len.old result from.new to.new len.new }
{
    inplace::cedarlash_read_list(text, from, to, len)
}

// Reads BED text to three columns: chromosome number, start and stop. The list is its text and, for each name, where it starts and ends
// there.
#[unsafe(no_mangle)]
pub extern "C" fn cedarlash_read_rows(
    text: &[u8],
    list: &[u8],
    from: &[usize],
    to: &[usize],
    chrom: &mut [u64],
    start: &mut [u64],
    stop: &mut [u64],
) -> Tally
    ensures { Tallies chrom_of start_of stop_of (rows_found text.now list.now from.now to.now (length chrom.old) (length start.old) (length stop.old))
        chrom.old start.old stop.old result chrom.new start.new stop.new }
{
    inplace::cedarlash_read_rows(text, list, from, to, chrom, start, stop)
}

// Checks a list of names, given as where each starts and ends in a text: 1 for its sizes, 2 for its names, 0 for neither.
#[unsafe(no_mangle)]
pub extern "C" fn cedarlash_check_list(text: &[u8], from: &[usize], to: &[usize]) -> u64
    ensures { result ≡ check_number (check_of text.now from.now to.now) }
{
    inplace::cedarlash_check_list(text, from, to)
}
