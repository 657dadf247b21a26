// The chromosome list: read from a text, checked, and asked for the number of a name.
#![tactic(auto)]

ghost use Rattle.std.specs.Prelude.{ℕ, true, IsTrue, ◌↔◌, ◌≡◌, ◌≤◌, ◌<◌, length, get_or};
ghost use Rattle.fields.specs.Scan.{FieldTo};
ghost use Rattle.fields.specs.Table.{Fills};
ghost use Rattle.chroms.specs.Entry.{ReadsLine, list_found, from_of, to_of, len_of};
ghost use Rattle.chroms.specs.Check.{fine_at, check_of, found_of};

use fields::{NameList, Names, ReadError};
use rules::{Settings, Unbegun};

// The length of a chromosome whose line has none. The column of lengths is lent by hosts, in C's layout: no Option.
pub const UNKNOWN: u64 = u64::MAX;

// A chromosome: where its name starts and ends in the text, and its length.
#[derive(Clone, Copy)]
pub struct Entry {
    pub from: usize,
    pub to: usize,
    pub len: u64,
}

// A chromosome line, and where the next line starts.
#[derive(Clone, Copy)]
struct Line {
    entry: Entry,
    next: usize,
}

// What stands behind the name that starts at `at` and ends at `a` with a tab: a length, and then no field; nothing where the line is
// malformed.
#[tactic(auto, using(crate::proofs::Entries::lines))]
fn length_at(text: &[u8], at: usize, a: usize) -> Option<Line>
    requires { FieldTo text.now at a × (a < length text.now) × (get_or text.now a 0 ≡ 9) }
    ensures { ReadsLine text.now at result }
{
    let length = fields::number_at(text, a + 1)?;
    let entry = Entry {
        from: at,
        to: a,
        len: length.value,
    };
    let end = length.end;
    match text.get(end) {
        None => Some(Line { entry, next: end }),
        Some(b'\n') => Some(Line {
            entry,
            next: end + 1,
        }),
        Some(_) => None,
    }
}

// The chromosome line that starts at `at`, unless it is malformed.
#[tactic(auto, using(crate::proofs::Entries::lines))]
fn line_at(text: &[u8], at: usize) -> Option<Line>
    requires { at ≤ length text.now }
    ensures { ReadsLine text.now at result }
{
    let a = fields::field_end(text, at);
    let entry = Entry {
        from: at,
        to: a,
        len: UNKNOWN,
    };
    match text.get(a) {
        None => Some(Line { entry, next: a }),
        Some(b'\t') => length_at(text, at, a),
        Some(_) => Some(Line { entry, next: a + 1 }),
    }
}

// Reads a chromosome list to three columns: where each name starts and ends in the text, and its length; says how many there are.
// Malformed lines are 11, more lines than slots 12, columns that differ in length 1.
pub fn read_list(
    text: &[u8],
    from: &mut [usize],
    to: &mut [usize],
    len: &mut [u64],
) -> Result<usize, ReadError>
    ensures { Fills from_of to_of len_of (list_found text.now (length from.old) (length to.old) (length len.old)) from.old to.old len.old result from.new to.new len.new }
{
    let room = from.len();
    if to.len() != room || len.len() != room {
        return Err(ReadError::Refused);
    }
    let mut n: usize = 0;
    let mut at: usize = 0;
    // A line's end is known only when its fields are read: a walk by lines ahead of it (`split_inclusive`) would pass over each byte twice.
    // The columns hold places of the whole text, too.
    while at < text.len() {
        let behind = fields::past(text, at);
        if at < behind {
            at = behind;
            continue;
        }
        let Some(line) = line_at(text, at) else {
            return Err(ReadError::Malformed(n));
        };
        if n == room {
            return Err(ReadError::Full(n));
        }
        from[n] = line.entry.from;
        to[n] = line.entry.to;
        len[n] = line.entry.len;
        n += 1;
        at = line.next;
    }
    Ok(n)
}

// Whether the name with the number k is 1 to 255 bytes long and none of those behind it.
#[tactic(auto, using(crate::proofs::Checks::fines))]
fn is_fine(names: Names, k: usize) -> bool
    requires { k < length names.list.from.now }
    ensures { result ≡ fine_at names.entry.list.text.now names.entry.list.from.now names.entry.list.to.now k }
{
    let name = names.name(k);
    (1..=255).contains(&name.len()) && names.find_from(k + 1, name) == names.count()
}

// Whether no name is empty, too long or there twice.
fn are_fine(names: Names) -> bool
    ensures { IsTrue result ↔ ((k : ℕ) → k < length names.entry.list.from.now → fine_at names.entry.list.text.now names.entry.list.from.now names.entry.list.to.now k ≡ true) }
{
    (0..names.count()).all(|k| is_fine(names, k))
}

// Checks a list of names: 1 for its sizes, then 2 for its names.
pub fn check_list(list: NameList) -> Result<(), Unbegun>
    ensures { result ≡ check_of list.entry.text.now list.entry.from.now list.entry.to.now }
{
    let Some(names) = list.names() else {
        return Err(Unbegun::Sizes);
    };
    let count = list.from.len();
    if count < 1 || Settings::CHROMS < count {
        return Err(Unbegun::Sizes);
    }
    if !are_fine(names) {
        return Err(Unbegun::Names);
    }
    Ok(())
}

// The number of a name in list order, or the number after the last; none (1) where the list names what is not in its text.
pub fn find_name(list: NameList, name: &[u8]) -> Option<usize>
    ensures { result ≡ found_of list.entry.text.now list.entry.from.now list.entry.to.now name.now }
{
    let names = list.names()?;
    Some(names.find_from(0, name))
}
