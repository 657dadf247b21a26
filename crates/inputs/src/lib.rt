// The texts of a listing, read to columns, and what is wrong with them before the run.
// The functions here are called by proved crates and the listing's program.
#![tactic(auto)]

ghost use Rattle.std.specs.Prelude.{◌≡◌, true, ◌+◌, ◌*◌, ◌≤◌, length};
ghost use Rattle.fields.specs.Names.{listed};
ghost use Rattle.fields.specs.Table.{rows_of};
ghost use Rattle.chroms.specs.Check.{check_of};
ghost use Rattle.heads.specs.View.{cols};
ghost use Rattle.inputs.specs.Texts.{rows_most};
ghost use Rattle.inputs.specs.Parted.{parts_all, stream_texts, texts_of, sized_by};
ghost use Rattle.inputs.specs.Read.{told, error_by, verdict_at, check_verdict, NamesRead, Slots, PartRead, Readable, StreamsRead, Rooms, Reads};

use fields::{NameList, ReadError};
use rules::{Settings, Unbegun};

// The texts of a listing: the bytes of one behind the other's, and where each of them ends.
#[derive(Clone, Copy)]
pub struct Texts<'a> {
    pub bytes: &'a [u8],
    pub ends: &'a [usize],
}

// The most rows of a text.
pub const ROWS: usize = 1024;

// What is wrong before the run.
#[derive(Clone, Copy, PartialEq, Eq)]
pub enum InputError {
    // 1: the size of the texts, the count of streams or the count of names.
    Sizes,
    // 2: a chromosome name is empty, too long or there twice.
    Names,
    // 11: a line is malformed; the text's number and the rows ahead.
    Malformed(u64, u64),
    // 12: one good row more than the slots; the text's number and the rows ahead.
    Full(u64, u64),
}

impl InputError {
    // The refusal's number.
    pub fn number(self) -> u64
        ensures { result ≡ (told self).number }
    {
        match self {
            InputError::Sizes => 1,
            InputError::Names => 2,
            InputError::Malformed(_, _) => 11,
            InputError::Full(_, _) => 12,
        }
    }

    // The text's number: 0 is the list, 1 the bases, 2 and up the streams; and 0 where none is named.
    pub fn text(self) -> u64
        ensures { result ≡ (told self).text }
    {
        match self {
            InputError::Malformed(text, _) | InputError::Full(text, _) => text,
            InputError::Sizes | InputError::Names => 0,
        }
    }

    // The rows ahead in that text.
    pub fn ahead(self) -> u64
        ensures { result ≡ (told self).ahead }
    {
        match self {
            InputError::Malformed(_, ahead) | InputError::Full(_, ahead) => ahead,
            InputError::Sizes | InputError::Names => 0,
        }
    }
}

// What a list is refused for.
impl From<Unbegun> for InputError {
    ghost from_gives = { λ x e. e ≡ error_by x };

    fn from(x: Unbegun) -> InputError {
        match x {
            Unbegun::Sizes => InputError::Sizes,
            Unbegun::Names => InputError::Names,
        }
    }
}

// What is wrong with the list, and how many names were read: also where something is wrong, since reading goes on behind a fault with the names
// that were read, and `Reads` says what the columns hold then.
#[derive(Clone, Copy)]
struct ListRead {
    verdict: Result<(), InputError>,
    count: usize,
}

// What is wrong with the streams, and where each one's rows end in the columns: also where something is wrong, since reading goes on behind a fault,
// and `Reads` says what the columns hold then.
#[derive(Clone, Copy)]
struct Streams {
    verdict: Result<(), InputError>,
    to: [usize; 8],
}

// How many names, bases and streams there are, and where each stream's rows end in the columns.
#[derive(Clone, Copy)]
pub struct Read {
    pub names: usize,
    pub bases: usize,
    pub streams: usize,
    pub to: [usize; 8],
}

// Texts with something wrong before the run: what that is, and what was read all the same, since reading goes on behind a fault.
#[derive(Clone, Copy)]
pub struct Misread {
    pub error: InputError,
    pub read: Read,
}

// What is wrong with text k, by how its reading ended.
fn verdict_at(k: u64, r: Result<usize, ReadError>) -> Result<(), InputError>
    ensures { result ≡ verdict_at k r }
{
    match r {
        Ok(_) => Ok(()),
        Err(ReadError::Malformed(n)) => Err(InputError::Malformed(k, n as u64)),
        Err(ReadError::Full(n)) => Err(InputError::Full(k, n as u64)),
        Err(ReadError::Refused) => Err(InputError::Sizes),
    }
}

// How many rows were read.
fn rows_ahead(r: Result<usize, ReadError>) -> usize
    ensures { result ≡ rows_of r }
{
    r.unwrap_or_else(|e| e.rows())
}

// What is wrong with the list's count of names, or with a name.
fn check_verdict(list: NameList) -> Result<(), InputError>
    ensures { result ≡ check_verdict (check_of list.entry.text.now list.entry.from.now list.entry.to.now) }
{
    Ok(chroms::check_list(list)?)
}

// Whether the ends part n bytes: none of them falls, and the last is n.
fn parts_all(n: usize, ends: &[usize]) -> bool
    ensures { result ≡ parts_all n 0 ends.now }
{
    let last = ends.last().copied().unwrap_or(0);
    ends.is_sorted() && last == n
}

// Whether there are as many bytes and texts as there may be, and the ends part them.
#[tactic(auto, unfolding(crate::specs::Parted::sized_by))]
fn is_sized(texts: Texts) -> bool
    ensures { result ≡ sized_by (length texts.entry.bytes.now) texts.entry.ends.now }
{
    let n = texts.bytes.len();
    let few = (3..=Settings::STREAMS + 2).contains(&texts.ends.len());
    let parted = parts_all(n, texts.ends);
    n <= 65536 && few && parted
}

// Reads the list to its columns: its 11 and 12, then 1 for its count of names, then 2.
fn read_names(list: &[u8], from: &mut [usize], to: &mut [usize], len: &mut [u64]) -> ListRead
    requires { (length from.old ≡ rows_most) × (length to.old ≡ rows_most) × (length len.old ≡ rows_most) }
    ensures { NamesRead list.now result from.new to.new len.new × (length from.new ≡ rows_most) × (length to.new ≡ rows_most) × (length len.new ≡ rows_most) }
{
    let r = chroms::read_list(list, from, to, len);
    let count = rows_ahead(r);
    let names = NameList {
        text: list,
        from: &from[..count],
        to: &to[..count],
    };
    let checked = check_verdict(names);
    ListRead {
        verdict: verdict_at(0, r).and(checked),
        count,
    }
}

// Reads a text's rows to the columns from place p on, where there are slots for all that a text may have.
fn read_part(
    text: &[u8],
    names: NameList,
    chrom: &mut [u64],
    start: &mut [u64],
    stop: &mut [u64],
    p: usize,
) -> Result<usize, ReadError>
    requires { Slots names.text.now names.from.now names.to.now p (cols chrom.old start.old stop.old) }
    ensures { PartRead (listed names.entry) text.now p
        (cols chrom.old start.old stop.old) result (cols chrom.new start.new stop.new) }
{
    let e = p + ROWS;
    rows::read_rows(
        text,
        names,
        &mut chrom[p..e],
        &mut start[p..e],
        &mut stop[p..e],
    )
}

// Reads each stream's text to its own part of the columns, and goes on behind a fault.
fn read_streams(
    texts: Texts,
    names: NameList,
    chrom: &mut [u64],
    start: &mut [u64],
    stop: &mut [u64],
) -> Streams
    requires { Readable texts.bytes.now texts.ends.now names.text.now names.from.now names.to.now (cols chrom.old start.old stop.old) }
    ensures { StreamsRead (listed names.entry) (stream_texts texts.entry.bytes.now texts.entry.ends.now) result
        (cols chrom.new start.new stop.new) }
{
    let ends = texts.ends;
    let n = ends.len() - 2;
    let mut verdict = Ok(());
    let mut to = [0; 8];
    for k in 0..n {
        let a = ends[k + 1];
        let b = ends[k + 2];
        let p = k * ROWS;
        let r = read_part(&texts.bytes[a..b], names, chrom, start, stop, p);
        to[k] = p + rows_ahead(r);
        verdict = verdict.and(verdict_at((k + 2) as u64, r));
    }
    Streams { verdict, to }
}

// Reads all texts to their columns: how much was read, and what is wrong before the run, if anything is. Lent are columns for the names, for the bases and,
// in eight parts, for the streams' rows. Each column is lent by itself, here and where a part is read: of a struct that holds lent slices, each
// clause would have to say whose slices it still holds.
pub fn read_texts(
    texts: Texts,
    from: &mut [usize],
    to: &mut [usize],
    len: &mut [u64],
    bchrom: &mut [u64],
    bstart: &mut [u64],
    bstop: &mut [u64],
    chrom: &mut [u64],
    start: &mut [u64],
    stop: &mut [u64],
) -> Result<Read, Misread>
    requires { Rooms from.old to.old len.old (cols bchrom.old bstart.old bstop.old) (cols chrom.old start.old stop.old) }
    ensures { Reads (texts_of texts.entry.bytes.now texts.entry.ends.now) result from.new to.new len.new
        (cols bchrom.new bstart.new bstop.new) (cols chrom.new start.new stop.new) }
{
    if !is_sized(texts) {
        return Err(Misread {
            error: InputError::Sizes,
            read: Read {
                names: 0,
                bases: 0,
                streams: 0,
                to: [0; 8],
            },
        });
    }
    let a = texts.ends[0];
    let b = texts.ends[1];
    let list = &texts.bytes[..a];
    let named = read_names(list, from, to, len);
    let names = NameList {
        text: list,
        from: &from[..named.count],
        to: &to[..named.count],
    };
    let r = read_part(&texts.bytes[a..b], names, bchrom, bstart, bstop, 0);
    let s = read_streams(texts, names, chrom, start, stop);
    let to = s.to;
    let read = Read {
        names: named.count,
        bases: rows_ahead(r),
        streams: texts.ends.len() - 2,
        to,
    };
    match named.verdict.and(verdict_at(1, r).and(s.verdict)) {
        Ok(()) => Ok(read),
        Err(error) => Err(Misread { error, read }),
    }
}
