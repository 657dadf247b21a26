// Sample texts read by the chromosome list and the row reader: what each answers and leaves in its columns.
// A slot that was not written shows as 7. The samples stand in this folder's `stdin`, each up to a byte 30.
#![tactic(auto)]

use fields::{NameList, ReadError};
use std::fmt::Display;
use std::io;

// How a reading ended: its refusal number or 0, and the rows ahead.
fn ended(rt: &impl Print, r: Result<usize, ReadError>) -> io::Result<()> {
    match r {
        Ok(n) => print!(rt; "0 {n}"),
        Err(ReadError::Refused) => print!(rt; "1"),
        Err(e) => print!(rt; "{} {}", e.number(), e.rows()),
    }
}

// The slots of three columns, of which the first two hold places or numbers.
fn slots<T: Display>(rt: &impl Print, a: &[T], b: &[T], c: &[u64]) -> io::Result<()> {
    for ((a, b), c) in a.iter().zip(b).zip(c) {
        print!(rt; " | {a} {b} {c}")?;
    }
    println!(rt)
}

// A chromosome list read to columns of three slots.
fn list(rt: &impl Print, text: &[u8]) -> io::Result<()> {
    let mut from = [7; 3];
    let mut to = [7; 3];
    let mut len = [7; 3];
    let r = chroms::read_list(text, &mut from, &mut to, &mut len);
    ended(rt, r)?;
    slots(rt, &from, &to, &len)
}

// Rows read to columns of three slots, with the names of a list.
fn listed(rt: &impl Print, text: &[u8], names: NameList) -> io::Result<()> {
    let mut chrom = [7; 3];
    let mut start = [7; 3];
    let mut stop = [7; 3];
    let r = rows::read_rows(text, names, &mut chrom, &mut start, &mut stop);
    ended(rt, r)?;
    slots(rt, &chrom, &start, &stop)
}

// Rows read with the chromosomes one and two.
fn rows(rt: &impl Print, text: &[u8]) -> io::Result<()> {
    let names = NameList {
        text: b"one\t1000\ntwo\n",
        from: &[0, 9],
        to: &[3, 12],
    };
    listed(rt, text, names)
}

// Columns that differ in length: nothing is written.
fn uneven(rt: &impl Print) -> io::Result<()> {
    let names = NameList {
        text: b"one\ntwo\n",
        from: &[0, 4],
        to: &[3, 7],
    };
    let mut from = [7; 3];
    let mut to = [7; 2];
    let mut len = [7; 3];
    let r = chroms::read_list(names.text, &mut from, &mut to, &mut len);
    print!(rt; "list columns of 3, 2 and 3: ")?;
    ended(rt, r)?;
    slots(rt, &from[..1], &to[..1], &len[..1])?;
    let mut chrom = [7; 3];
    let mut start = [7; 3];
    let mut stop = [7; 2];
    let r = rows::read_rows(b"one\t1\t2\n", names, &mut chrom, &mut start, &mut stop);
    print!(rt; "rows columns of 3, 3 and 2: ")?;
    ended(rt, r)?;
    slots(rt, &chrom[..1], &start[..1], &stop[..1])
}

// A list of names checked: its refusal number or 0.
fn check(rt: &impl Print, label: &str, list: NameList) -> io::Result<()> {
    let number = match chroms::check_list(list) {
        Ok(()) => 0,
        Err(x) => x.number(),
    };
    println!(rt; "check {label}: {number}")
}

// A list of two lines read and then checked.
fn check_two(rt: &impl Print, label: &str, text: &[u8]) -> io::Result<()> {
    let mut from = [7; 2];
    let mut to = [7; 2];
    let mut len = [7; 2];
    let _ = chroms::read_list(text, &mut from, &mut to, &mut len);
    let list = NameList {
        text,
        from: &from,
        to: &to,
    };
    check(rt, label, list)
}

// A name asked for.
fn find(rt: &impl Print, name: &str, from: &[usize], to: &[usize]) -> io::Result<()> {
    let list = NameList {
        text: b"one\ntwo\n",
        from,
        to,
    };
    match chroms::find_name(list, name.as_bytes()) {
        Some(n) => println!(rt; "find {name}: {n}"),
        None => println!(rt; "find {name}: refused"),
    }
}

// One sample: a line that says what it is, `list` or `rows` first, and then the text.
fn sample(rt: &impl Print, case: &[u8]) -> io::Result<()> {
    let Some(k) = case.iter().position(|b| *b == b'\n') else {
        rt.write_all(case)?;
        return rt.write_all(b": ");
    };
    rt.write_all(&case[..k])?;
    rt.write_all(b": ")?;
    let text = &case[k + 1..];
    if case[0] == b'l' {
        return list(rt, text);
    }
    rows(rt, text)
}

// The samples of standard input, each up to a byte 30.
fn samples(rt: &impl Print, all: &[u8]) -> io::Result<()> {
    for part in all.split_inclusive(|b| *b == 30) {
        let case = match part.split_last() {
            Some((30, front)) => front,
            _ => part,
        };
        sample(rt, case)?;
    }
    Ok(())
}

// Lists of two lines: the first and the last are fine.
fn two_names(rt: &impl Print) -> io::Result<()> {
    check_two(rt, "two names", b"one\ntwo\n")?;
    check_two(rt, "a name twice", b"one\none\n")?;
    check_two(rt, "an empty name", b"\t5\none\n")?;
    check_two(rt, "a name that starts another", b"one\nones\n")
}

// A check of names in a text of 300 bytes, all the same.
fn check_long(rt: &impl Print, label: &str, from: &[usize], to: &[usize]) -> io::Result<()> {
    let list = NameList {
        text: &[b'x'; 300],
        from,
        to,
    };
    check(rt, label, list)
}

// Long names, names that aren't within the text, and columns of different lengths or of no slot.
fn sizes(rt: &impl Print) -> io::Result<()> {
    check_long(rt, "255 bytes", &[0], &[255])?;
    check_long(rt, "256 bytes", &[0], &[256])?;
    check_long(rt, "beyond the text", &[0, 290], &[300, 301])?;
    check_long(rt, "a stop before its start", &[2], &[1])?;
    check_long(rt, "columns of 1 and 2", &[0], &[1, 2])?;
    check_long(rt, "no name", &[], &[])
}

// Many names.
fn counts(rt: &impl Print) -> io::Result<()> {
    check_long(rt, "257 names", &[0; 257], &[1; 257])?;
    check_long(rt, "256 names, all the same", &[0; 256], &[1; 256])
}

// Names and their numbers.
fn numbers(rt: &impl Print) -> io::Result<()> {
    find(rt, "one", &[0, 4], &[3, 7])?;
    find(rt, "two", &[0, 4], &[3, 7])?;
    find(rt, "six", &[0, 4], &[3, 7])?;
    find(rt, "on", &[0, 4], &[3, 7])?;
    find(rt, "ones", &[0, 4], &[3, 7])
}

// The empty name, a name twice, no name, a name beyond the text.
fn other_numbers(rt: &impl Print) -> io::Result<()> {
    find(rt, "", &[0, 4], &[3, 7])?;
    find(rt, "two", &[4, 4], &[7, 7])?;
    find(rt, "one", &[], &[])?;
    find(rt, "one", &[0, 4], &[3, 9])
}

// Rows with other lists.
fn other_lists(rt: &impl Print) -> io::Result<()> {
    let none = NameList {
        text: b"",
        from: &[],
        to: &[],
    };
    let with_tab = NameList {
        text: b"a\tb",
        from: &[0, 0],
        to: &[3, 1],
    };
    let beyond = NameList {
        text: b"one",
        from: &[0],
        to: &[4],
    };
    print!(rt; "rows a list of no name: ")?;
    listed(rt, b"one\t1\t2\n", none)?;
    print!(rt; "rows a list that names a tab: ")?;
    listed(rt, b"a\t3\t4\na\tb\t1\t2\n", with_tab)?;
    print!(rt; "rows a list beyond its text: ")?;
    listed(rt, b"one\t1\t2\n", beyond)
}

fn main(rt: HostRuntime) -> io::Result<()> {
    let mut memory = [0u8; 65536];
    let text = tests_shared::read_text(&mut rt.stdin(), &mut memory)?;
    samples(&rt, text)?;
    uneven(&rt)?;
    two_names(&rt)?;
    sizes(&rt)?;
    counts(&rt)?;
    numbers(&rt)?;
    other_numbers(&rt)?;
    other_lists(&rt)
}
