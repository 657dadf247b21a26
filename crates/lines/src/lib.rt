// The lines of the listing, written to a lent buffer: a line is written whole, or nothing of it is.
// The functions here are called by proved crates and the listing's program. The buffer and the place in it stay two parameters: of a struct that
// holds a lent slice, each clause would have to say whose slice it still holds.
#![tactic(auto)]

ghost use Rattle.std.specs.Prelude.{◌≡◌, [], ◌∷◌, ◌++◌, ◌+◌, ◌≤◌, length};
ghost use Rattle.lines.specs.Lines.{decimal, numbered, line_b, line_r, line_x, line_x', line_f};
ghost use Rattle.lines.specs.Put.{Wrote, Puts};

// Not all of several lines fit: 14, and the place behind those ahead of the first that did not.
#[derive(Clone, Copy)]
pub struct Cut(pub usize);

// How many digits a number has; most are short, and those are told apart by comparisons alone.
fn places(n: u64) -> usize
    ensures { (result ≡ length (decimal n)) × (result ≤ 20) }
{
    match n {
        0..=9 => 1,
        10..=99 => 2,
        100..=999 => 3,
        1000..=9999 => 4,
        _ => n.ilog10() as usize + 1,
    }
}

// The bytes go to out at a place; the place behind them. They are few, and an archive that copies by `copy_from_slice` asks its host for a `memmove`.
fn put_bytes(out: &mut [u8], at: usize, bytes: &[u8]) -> usize
    requires { at + length bytes.now ≤ length out.old }
    ensures { Wrote out.old at bytes.now result out.new }
{
    for (i, b) in bytes.iter().enumerate() {
        out[at + i] = *b;
    }
    at + bytes.len()
}

// A number's digits go to out at a place, the last one first; the place behind them.
fn put_decimal(out: &mut [u8], at: usize, n: u64) -> usize
    requires { at + length (decimal n) ≤ length out.old }
    ensures { Wrote out.old at (decimal n) result out.new }
{
    let size = places(n);
    let mut rest = n;
    for k in (1..size).rev() {
        out[at + k] = b'0' + (rest % 10) as u8;
        rest /= 10;
    }
    out[at] = b'0' + rest as u8;
    at + size
}

// A tab and a number's digits go to out at a place; the place behind them.
fn put_field(out: &mut [u8], at: usize, n: u64) -> usize
    requires { at + 1 + length (decimal n) ≤ length out.old }
    ensures { Wrote out.old at (9 ∷ decimal n) result out.new }
{
    let tab = put_bytes(out, at, b"\t");
    put_decimal(out, tab, n)
}

// How many bytes so many numbers take, each with the tab ahead of it.
fn fields_size(numbers: &[u64]) -> usize
    requires { length numbers.now ≤ 4 }
    ensures { (result ≡ length (numbered numbers.now)) × (result ≤ 84) }
{
    let mut size = 0;
    for n in numbers {
        size += 1 + places(*n);
    }
    size
}

// Numbers, each with the tab ahead of it, go to out at a place; the place behind them.
fn put_fields(out: &mut [u8], at: usize, numbers: &[u64]) -> usize
    requires { at + length (numbered numbers.now) ≤ length out.old }
    ensures { Wrote out.old at (numbered numbers.now) result out.new }
{
    let mut place = at;
    for n in numbers {
        place = put_field(out, place, *n);
    }
    place
}

// A line: its head, a name and its numbers. Where the next line starts; nothing where this one does not fit. Inlined, since each caller's line has so
// many numbers: without it a line of short numbers takes half as many instructions more.
#[inline(always)]
fn put_line(out: &mut [u8], at: usize, head: &[u8], name: &[u8], numbers: &[u64]) -> Option<usize>
    requires { (at ≤ length out.old) × (length head.now ≤ 2) × (length numbers.now ≤ 4) }
    ensures { Puts out.old at (head.now ++ name.now ++ numbered numbers.now ++ (10 ∷ [])) result out.new }
{
    let room = out.len() - at;
    let left = room.checked_sub(head.len() + fields_size(numbers) + 1)?;
    if left < name.len() {
        return None;
    }
    let a = put_bytes(out, at, head);
    let b = put_bytes(out, a, name);
    let c = put_fields(out, b, numbers);
    let d = put_bytes(out, c, b"\n");
    Some(d)
}

// The line of an accepted base: its chromosome's name, its start and stop, how many records it has.
pub fn put_b(
    out: &mut [u8],
    at: usize,
    name: &[u8],
    start: u64,
    stop: u64,
    count: u64,
) -> Option<usize>
    requires { at ≤ length out.old }
    ensures { Puts out.old at (line_b name.now start stop count) result out.new }
{
    put_line(out, at, b"B\t", name, &[start, stop, count])
}

// The line of a base's record: its stream and row, its start and stop.
pub fn put_r(
    out: &mut [u8],
    at: usize,
    stream: u64,
    row: u64,
    start: u64,
    stop: u64,
) -> Option<usize>
    requires { at ≤ length out.old }
    ensures { Puts out.old at (line_r stream row start stop) result out.new }
{
    put_line(out, at, b"R", b"", &[stream, row, start, stop])
}

// The line of a refusal: its number, and the base's row.
pub fn put_x(out: &mut [u8], at: usize, number: u64, row: u64) -> Option<usize>
    requires { at ≤ length out.old }
    ensures { Puts out.old at (line_x number row) result out.new }
{
    put_line(out, at, b"X", b"", &[number, row])
}

// The line of a refusal that a stream's record gives: its number, the base's row, the record's stream and row.
pub fn put_x_row(
    out: &mut [u8],
    at: usize,
    number: u64,
    base: u64,
    stream: u64,
    row: u64,
) -> Option<usize>
    requires { at ≤ length out.old }
    ensures { Puts out.old at (line_x' number base stream row) result out.new }
{
    put_line(out, at, b"X", b"", &[number, base, stream, row])
}

// The line of a fault before the run: its number, the text, the rows ahead of it there.
pub fn put_fault(out: &mut [u8], at: usize, number: u64, text: u64, ahead: u64) -> Option<usize>
    requires { at ≤ length out.old }
    ensures { Puts out.old at (line_f number text ahead) result out.new }
{
    put_line(out, at, b"X", b"", &[number, text, ahead])
}
