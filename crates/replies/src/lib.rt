// A base is given to a run, and its lines are written to a lent buffer. The buffer and the place in it stay two parameters: of a struct that holds a
// lent slice, each clause would have to say whose slice it still holds.
#![tactic(auto)]

ghost use Rattle.std.specs.Prelude.{◌≡◌, [], ◌∷◌, ◌+◌, ◌≤◌, length, get_or};
ghost use Rattle.rules.specs.Numbers.{end_number, end_values};
ghost use Rattle.heads.specs.View.{cols_of};
ghost use Rattle.lines.specs.Lines.{line_e};
ghost use Rattle.lines.specs.Put.{Puts};
ghost use Rattle.lines.specs.Laid.{Lays};
ghost use Rattle.pulls.specs.Pulls.{lent};
ghost use Rattle.replies.specs.Lines.{row_line};
ghost use Rattle.replies.specs.List.{Lists};
ghost use Rattle.replies.specs.Source.{source_of, row_lines, found_lines, answer_lines, Holds, Backs};

use heads::Columns;
use lines::Cut;
use rules::{Answer, Base, End};
use runs::Run;

// The run after a base, what the base got, and what became of its lines.
#[derive(Clone, Copy)]
pub struct Listed {
    pub run: Run,
    pub answer: Answer,
    pub lines: Result<usize, Cut>,
}

// A base as it stands in a listing: its row, and its chromosome's name.
#[derive(Clone, Copy)]
pub struct Entry<'a> {
    pub base: Base,
    pub row: u64,
    pub name: &'a [u8],
}

// Answer rows, the columns that they name rows of, and where each stream's rows begin there.
#[derive(Clone, Copy)]
struct Rows<'a> {
    columns: Columns<'a>,
    from: &'a [usize],
    answers: &'a [[u64; 2]],
}

// The place that a list of places names at a number, as where a stream's rows begin; 0 past its end.
pub fn place_at(column: &[usize], k: u64) -> usize
    ensures { result ≡ get_or column.now k 0 }
{
    column.get(k as usize).copied().unwrap_or(0)
}

// The value so many rows behind a place of a column; 0 past its end.
fn value_at(column: &[u64], first: usize, row: u64) -> u64
    ensures { result ≡ get_or column.now (first + row) 0 }
{
    column
        .get(first.saturating_add(row as usize))
        .copied()
        .unwrap_or(0)
}

// The line of a record.
fn put_record(
    out: &mut [u8],
    at: usize,
    stream: u64,
    row: u64,
    columns: Columns,
    from: &[usize],
) -> Option<usize>
    requires { at ≤ length out.old }
    ensures { Puts out.old at (row_line columns.entry.start.now columns.entry.stop.now from.now stream row) result out.new }
{
    let first = place_at(from, stream);
    let start = value_at(columns.start, first, row);
    let stop = value_at(columns.stop, first, row);
    lines::put_r(out, at, stream, row, start, stop)
}

// The lines of the first n answer rows.
fn put_records(out: &mut [u8], at: usize, n: usize, rows: Rows) -> Result<usize, Cut>
    requires { (at ≤ length out.old) × Holds (source_of rows) n }
    ensures { Lays out.old at (row_lines (source_of rows.entry) n) result out.new }
{
    let mut place = at;
    for i in 0..n {
        let [stream, row] = rows.answers[i];
        let put = put_record(out, place, stream, row, rows.columns, rows.from);
        let Some(next) = put else {
            return Err(Cut(place));
        };
        place = next;
    }
    Ok(place)
}

// The lines of a base that was answered: its own, and its records'.
fn put_found(out: &mut [u8], at: usize, n: usize, entry: Entry, rows: Rows) -> Result<usize, Cut>
    requires { (at ≤ length out.old) × Holds (source_of rows) n }
    ensures { Lays out.old at
        (found_lines (source_of rows.entry) entry.entry.name.now entry.entry.base n) result out.new }
{
    let base = entry.base;
    let put = lines::put_b(out, at, entry.name, base.start, base.stop, n as u64);
    put_records(out, put.ok_or(Cut(at))?, n, rows)
}

// The line of an end: its number, the base's row, and for 7 and 8 the record's stream and row.
fn put_end(out: &mut [u8], at: usize, e: End, row: u64) -> Option<usize>
    requires { at ≤ length out.old }
    ensures { Puts out.old at (line_e (end_number e) row (end_values e)) result out.new }
{
    let number = e.number();
    match e {
        End::Faulty(s, k) | End::Unsorted(s, k) => lines::put_x_row(out, at, number, row, s.0, k),
        End::NoRoom | End::NoRows => lines::put_x(out, at, number, row),
    }
}

// The lines of an answer.
fn put_answer(
    out: &mut [u8],
    at: usize,
    answer: Answer,
    entry: Entry,
    rows: Rows,
) -> Result<usize, Cut>
    requires { Backs (source_of rows) answer }
    ensures { Lays out.old at
        (answer_lines (source_of rows.entry) entry.entry.name.now entry.entry.row entry.entry.base answer) result out.new }
{
    if out.len() < at {
        return Err(Cut(at));
    }
    match answer {
        Answer::Found(n, _) => put_found(out, at, n, entry, rows),
        Answer::Refused(x) => { lines::put_x(out, at, x.number(), entry.row).ok_or(Cut(at)) }
        Answer::Ended(e) => put_end(out, at, e, entry.row).ok_or(Cut(at)),
    }
}

// Gives a base to the run and writes its lines at a place of a lent buffer. The other memory is lent as to `sweep::give`.
pub fn list_base(
    run: Run,
    entry: Entry,
    columns: Columns,
    lengths: &[u64],
    queue: &mut [[u64; 4]],
    answers: &mut [[u64; 2]],
    out: &mut [u8],
    at: usize,
) -> Listed
    ensures { Lists (cols_of columns.entry) lengths.now run entry.entry.base entry.entry.row entry.entry.name.now
        (lent queue.old answers.old)
        out.old at result
        (lent queue.new answers.new)
        out.new }
{
    // Where its rows begin is taken from the run ahead of the call, so that the run itself is not copied for it.
    let from = run.from;
    let given = sweep::give(run, entry.base, columns, lengths, queue, answers);
    let rows = Rows {
        columns,
        from: &from,
        answers,
    };
    Listed {
        run: given.run,
        answer: given.answer,
        lines: put_answer(out, at, given.answer, entry, rows),
    }
}
