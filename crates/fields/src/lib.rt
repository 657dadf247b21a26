// Texts read in one walk: where a field or a line ends, the number in a field, a name among names.
// A text and a place in it stay two parameters: the definitions take the two (`FieldTo`, `Past`, `ReadsLine`), and each step gives back
// a place of the whole text, so a reader as a struct would be taken apart and made again at each step, and its clauses would say of which text.
#![tactic(auto)]

mod lists;

ghost use Rattle.std.specs.Prelude.{◌≡◌, ◌+◌, ◌<◌, ◌≤◌, ◌==◌, ◌||◌, true, false, length, get_or, MatchOption, IsTrue, ◌↔◌, ℕ};
ghost use Rattle.std.specs.List.{position};
ghost use Rattle.fields.specs.Scan.{in_field, FieldTo, FieldOver, Past, next_line, number_at, Counting, Counted};
ghost use Rattle.fields.specs.Table.{error_number, error_rows};

pub use lists::Names;

// A list of names: a text, and where each name starts and ends there; of any places. Two columns side by side, as hosts lend them (C's layout).
#[derive(Clone, Copy)]
pub struct NameList<'a> {
    pub text: &'a [u8],
    pub from: &'a [usize],
    pub to: &'a [usize],
}

// Why a reading stopped ahead of the text's end, with the rows ahead of that place.
#[derive(Clone, Copy, PartialEq, Eq)]
pub enum ReadError {
    // 11: a line is malformed.
    Malformed(usize),
    // 12: one good row more than the slots lent.
    Full(usize),
    // 1: nothing was read.
    Refused,
}

impl ReadError {
    // The refusal's number.
    pub fn number(self) -> u64
        ensures { result ≡ error_number self }
    {
        match self {
            ReadError::Malformed(_) => 11,
            ReadError::Full(_) => 12,
            ReadError::Refused => 1,
        }
    }

    // The rows ahead of the place where the reading stopped.
    pub fn rows(self) -> usize
        ensures { result ≡ error_rows self }
    {
        match self {
            ReadError::Malformed(n) | ReadError::Full(n) => n,
            ReadError::Refused => 0,
        }
    }
}

// A number of a text, and where it ends.
#[derive(Clone, Copy)]
pub struct Number {
    pub value: u64,
    pub end: usize,
}

// The place of the first tab or LF.
fn field_stop(rest: &[u8]) -> Option<usize>
    ensures { result ≡ position (λ b. (b == 9) || (b == 10)) rest.now }
{
    rest.iter().position(|b| matches!(*b, b'\t' | b'\n'))
}

// The place of the first LF.
fn line_stop(rest: &[u8]) -> Option<usize>
    ensures { result ≡ position (λ b. b == 10) rest.now }
{
    rest.iter().position(|b| *b == b'\n')
}

// Where the field that starts at `from` ends: at the next tab or LF, or where the text ends.
pub fn field_end(text: &[u8], from: usize) -> usize
    requires { from ≤ length text.now }
    ensures { FieldTo text.now from result }
{
    match field_stop(&text[from..]) {
        Some(i) => from + i,
        None => text.len(),
    }
}

// Where the line after the one that `from` lies in starts: behind the next LF, or where the text ends.
pub fn next_line(text: &[u8], from: usize) -> usize
    requires { from ≤ length text.now }
    ensures { (result ≡ next_line text.now from) × (result ≤ length text.now) }
{
    match line_stop(&text[from..]) {
        Some(i) => from + i + 1,
        None => text.len(),
    }
}

// Past the line that starts at `at`, if it is empty or a comment; else `at` itself.
#[tactic(auto, using(crate::proofs::Tables::pasts))]
pub fn past(text: &[u8], at: usize) -> usize
    requires { at < length text.now }
    ensures { Past text.now at result }
{
    match text[at] {
        b'\n' => at + 1,
        b'#' => next_line(text, at),
        _ => at,
    }
}

// Whether a field ends at `at`: the text does, or a tab or LF stands there.
#[tactic(auto, using(crate::proofs::Scan::overs))]
fn is_over(text: &[u8], at: usize) -> bool
    ensures { FieldOver text.now at result }
{
    matches!(text.get(at), None | Some(b'\t' | b'\n'))
}

// The digits from `from` on, as far as `to`: their value, and where the walk over them stopped. So few always fit 64 bits, and no
// turn asks. By place: a fold that stops would carry the value and the place as a pair from turn to turn, and be no plainer.
#[tactic(auto, using(crate::proofs::Numbers::counts))]
fn digits_from(text: &[u8], from: usize, to: usize) -> Number
    requires { (from ≤ to) × (to ≤ length text.now) × (to ≤ from + 19) }
    ensures { Counted text.now from to result }
{
    let mut value: u64 = 0;
    for i in from..to {
        let b = text[i];
        if !matches!(b, b'0'..=b'9') {
            return Number { value, end: i };
        }
        value = value * 10 + u64::from(b - b'0');
    }
    Number { value, end: to }
}

// The number of a field of which 19 digits, of value v, are passed, and which goes on at `at`.
fn twentieth(text: &[u8], from: usize, v: u64, at: usize) -> Option<Number>
    requires { Counting text.now from at v × (at ≡ from + 19) × (at < length text.now) × (in_field (get_or text.now at 0) ≡ true) }
    ensures { result ≡ number_at text.now from }
{
    let b = text[at];
    if !matches!(b, b'0'..=b'9') {
        return None;
    }
    let digit = u64::from(b - b'0');
    let value = v.checked_mul(10)?.checked_add(digit)?;
    let end = at + 1;
    if is_over(text, end) {
        return Some(Number { value, end });
    }
    None
}

// The number of the field that starts at `from`, and where the field ends.
pub fn number_at(text: &[u8], from: usize) -> Option<Number>
    requires { from ≤ length text.now }
    ensures { result ≡ number_at text.now from }
{
    let far = from + 19;
    let digits = digits_from(text, from, far.min(text.len()));
    if digits.end == from {
        return None;
    }
    if is_over(text, digits.end) {
        return Some(digits);
    }
    if digits.end < far {
        return None;
    }
    twentieth(text, from, digits.value, digits.end)
}

// Whether each name of two columns that are equally long lies in a text of so many bytes.
fn are_inside(from: &[usize], to: &[usize], size: usize) -> bool
    requires { length from.now ≡ length to.now }
    ensures { IsTrue result ↔ ((k : ℕ) → k < length from.now → (get_or from.now k 0 ≤ get_or to.now k 0) × (get_or to.now k 0 ≤ size)) }
{
    from.iter()
        .zip(to)
        .all(|(from, to)| from <= to && *to <= size)
}

impl<'a> NameList<'a> {
    ghost use Rattle.fields.specs.Names.{is_within};

    // Whether the two columns are equally long and each name lies in the text.
    pub fn is_within(self) -> bool
        ensures { result ≡ is_within self.entry }
    {
        self.from.len() == self.to.len() && are_inside(self.from, self.to, self.text.len())
    }

    // The list as one whose names all lie in its text, if they do.
    pub fn names(self) -> Option<Names<'a>>
        ensures { MatchOption result (is_within self.entry ≡ false) (λ n. (n.list ≡ self.entry) × (is_within self.entry ≡ true)) }
    {
        if self.is_within() {
            return Some(Names { list: self });
        }
        None
    }
}
