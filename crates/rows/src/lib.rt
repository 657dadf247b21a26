// BED text to rows: chromosome number, start and stop of each line.
#![tactic(auto)]

ghost use Rattle.std.specs.Prelude.{◌≡◌, [], ◌+◌, ◌≤◌, ◌<◌, length, get_or, take, drop};
ghost use Rattle.fields.specs.Names.{listed, number_in};
ghost use Rattle.fields.specs.Scan.{FieldTo, number_at};
ghost use Rattle.fields.specs.Table.{Fills};
ghost use Rattle.rows.specs.Row.{rows_found, chrom_of, start_of, stop_of};
ghost use Rattle.rows.specs.Read.{Knows, NameAt, Named, ReadsRow};

use fields::{NameList, Names, Number, ReadError};

// A row: the number of its chromosome, its start and its stop.
#[derive(Clone, Copy)]
pub struct Row {
    pub chrom: u64,
    pub start: u64,
    pub stop: u64,
}

// A name of the text: where it starts and ends there, and its number.
#[derive(Clone, Copy)]
struct Name {
    from: usize,
    to: usize,
    chrom: u64,
}

// A line that is a row: the row, its name and where the next line starts.
#[derive(Clone, Copy)]
struct Line {
    row: Row,
    name: Name,
    next: usize,
}

// How many bytes from `a` on are those from `b` on, n at most.
fn agree(text: &[u8], a: usize, b: usize, n: usize) -> usize
    requires { (a + n ≤ length text.now) × (b + n ≤ length text.now) }
    ensures { (result ≤ n) × (take result (drop a text.now) ≡ take result (drop b text.now)) }
{
    for i in 0..n {
        if text[a + i] != text[b + i] {
            return i;
        }
    }
    n
}

// No name met yet: the empty one, which no row has.
fn unseen(names: Names) -> Name
    ensures { (result.from ≡ 0) × (result.to ≡ 0) × (result.chrom ≡ number_in (listed names.entry.list) []) }
{
    Name {
        from: 0,
        to: 0,
        chrom: names.find_from(0, b"") as u64,
    }
}

// The name from `at` up to `to`, looked up among the names of the list.
#[tactic(auto, using(crate::proofs::Seeing::sights))]
fn looked_up(text: &[u8], at: usize, to: usize, names: Names) -> Name
    requires { FieldTo text.now at to }
    ensures { NameAt text.now (number_in (listed names.entry.list)) at result }
{
    Name {
        from: at,
        to,
        chrom: names.find_from(0, &text[at..to]) as u64,
    }
}

// The name that starts at `at`. Rows of one chromosome stand together, so its bytes are first held against the name seen last,
// and none of them is looked at again; only another name is looked up.
#[tactic(auto, using(crate::proofs::Seeing::sights))]
fn name_at(text: &[u8], at: usize, seen: Name, names: Names) -> Name
    requires { (at ≤ length text.now) × Knows text.now (listed names.list) seen }
    ensures { NameAt text.now (number_in (listed names.entry.list)) at result }
{
    let size = seen.to - seen.from;
    let same = agree(text, seen.from, at, size.min(text.len() - at));
    let to = fields::field_end(text, at + same);
    if same < size || at + same < to {
        return looked_up(text, at, to, names);
    }
    Name {
        from: at,
        to,
        chrom: seen.chrom,
    }
}

// The row on the line of a name that ends with a tab and of a start that does; unless the line is malformed.
#[tactic(auto, using(crate::proofs::Fields::ends))]
fn stop_at(text: &[u8], name: Name, start: Number) -> Option<Line>
    requires { Named text.now name × (number_at text.now (name.to + 1) ≡ Some start) × (start.end < length text.now) × (get_or text.now start.end 0 ≡ 9) }
    ensures { ReadsRow text.now (λ _. name.chrom) name.from result }
{
    let stop = fields::number_at(text, start.end + 1)?;
    let row = Row {
        chrom: name.chrom,
        start: start.value,
        stop: stop.value,
    };
    Some(Line {
        row,
        name,
        next: fields::next_line(text, stop.end),
    })
}

// The row on the line of a name that ends with a tab, unless the line is malformed.
#[tactic(auto, using(crate::proofs::Fields::ends))]
fn start_at(text: &[u8], name: Name) -> Option<Line>
    requires { Named text.now name }
    ensures { ReadsRow text.now (λ _. name.chrom) name.from result }
{
    let start = fields::number_at(text, name.to + 1)?;
    match text.get(start.end) {
        Some(b'\t') => stop_at(text, name, start),
        _ => None,
    }
}

// The row on the line that starts at `at`, unless the line is malformed.
#[tactic(auto, using(crate::proofs::Fields::ends))]
fn row_at(text: &[u8], at: usize, seen: Name, names: Names) -> Option<Line>
    requires { (at ≤ length text.now) × Knows text.now (listed names.list) seen }
    ensures { ReadsRow text.now (number_in (listed names.entry.list)) at result }
{
    let name = name_at(text, at, seen, names);
    if name.to == at {
        return None;
    }
    match text.get(name.to) {
        Some(b'\t') => start_at(text, name),
        _ => None,
    }
}

// Reads BED text to three columns: chromosome number, start and stop; says how many rows there are. The names of the list are
// numbered in its order. Malformed lines are 11, more rows than slots 12; 1 where the columns differ in length or a name of the list
// lies outside its text.
pub fn read_rows(
    text: &[u8],
    list: NameList,
    chrom: &mut [u64],
    start: &mut [u64],
    stop: &mut [u64],
) -> Result<usize, ReadError>
    ensures { Fills chrom_of start_of stop_of (rows_found text.now list.entry.text.now list.entry.from.now list.entry.to.now (length chrom.old) (length start.old) (length stop.old)) chrom.old start.old stop.old result chrom.new start.new stop.new }
{
    let room = chrom.len();
    if start.len() != room || stop.len() != room {
        return Err(ReadError::Refused);
    }
    let Some(names) = list.names() else {
        return Err(ReadError::Refused);
    };
    let mut seen = unseen(names);
    let mut n: usize = 0;
    let mut at: usize = 0;
    // A line's end is known only when its fields are read: a walk by lines ahead of it (`split_inclusive`) would pass over each byte twice.
    // `chroms::read_list` has such a loop, too: one walk for both would take what a line gives, what is remembered of the line ahead and
    // the three stores as parameters, in place of the lines in which the loops differ.
    while at < text.len() {
        let behind = fields::past(text, at);
        if at < behind {
            at = behind;
            continue;
        }
        let Some(line) = row_at(text, at, seen, names) else {
            return Err(ReadError::Malformed(n));
        };
        if n == room {
            return Err(ReadError::Full(n));
        }
        chrom[n] = line.row.chrom;
        start[n] = line.row.start;
        stop[n] = line.row.stop;
        n += 1;
        seen = line.name;
        at = line.next;
    }
    Ok(n)
}
