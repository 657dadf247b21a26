// What a line says.
ghost use Rattle.std.specs.Prelude.{◌≤◌};

use crate::SLOTS;
use crate::tamper::Field;
use rules::{Base, Chrom};
use runs::Mark;
use tests_shared::Reader;

// A line's command; a number that can't be read is 0.
#[derive(Clone, Copy)]
pub enum Command {
    Case,
    Chroms(usize),
    Name(usize, usize, usize),
    Stream,
    Rows(Base, usize),
    Range(usize, usize, usize),
    Lend(usize),
    Length(usize, usize),
    Begin(usize),
    LendAndBegin(usize, usize),
    Give(Base),
    Turn,
    Slot(usize, [u64; 4]),
    Field(Field, usize, u64),
    Mark(Mark),
    Remark,
}

// A number that is less than the slots of a column, or the most that is: one more fits in each slice.
fn small(x: u64) -> usize
    ensures { result ≤ 65537 }
{
    x.min(SLOTS as u64 - 1) as usize
}

// How a run stands, in numbers.
fn mark_of(kind: u64, [first, second, third]: [u64; 3]) -> Mark {
    Mark {
        kind,
        first,
        second,
        third,
    }
}

impl Command {
    // The command of a letter, with the numbers that stand behind it.
    pub fn read(letter: u8, mut numbers: Reader) -> Command {
        let mut read = [0; 5];
        for x in &mut read {
            *x = numbers.number().unwrap_or_default();
        }
        let [a, b, c, d, e] = read;
        let row = Base {
            chrom: Chrom(a),
            start: b,
            stop: c,
        };
        match letter {
            b'=' => Command::Case,
            b'c' => Command::Chroms(small(a)),
            b'n' => Command::Name(small(a), b as usize, c as usize),
            b's' => Command::Stream,
            b'r' => Command::Rows(row, small(d).max(1)),
            b't' => Command::Range(small(a), b as usize, c as usize),
            b'l' => Command::Lend(small(a)),
            b'w' => Command::Length(small(a), small(b)),
            b'h' => Command::Begin(a as usize),
            b'g' => Command::LendAndBegin(small(a), a as usize),
            b'b' => Command::Give(row),
            b'o' => Command::Turn,
            b'q' => Command::Slot(small(a), [b, c, d, e]),
            b'x' => Command::Field(Field::of(a), b as usize, c),
            b'a' => Command::Mark(mark_of(1, [a, b, c])),
            b'z' => Command::Mark(mark_of(a, [b, c, d])),
            _ => Command::Remark,
        }
    }
}
