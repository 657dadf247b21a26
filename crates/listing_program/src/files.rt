// The files that the arguments name, read to one buffer.
ghost use Rattle.std.specs.Prelude.{◌≡◌, ◌≤◌, length, IfOk, IfSome};

use crate::failure::fail;
use rules::Settings;
use std::env::FillError;
use std::io::{Error, Print, Read};
use std::rt::{Env, Files};
use std::{fs, io, str};

// The system's numbers for an argument that isn't there, for one that is too long, and for a name that isn't text, with which `std` opens no file.
const MISSING: i32 = 22;

const TOO_LONG: i32 = 36;

const NO_TEXT: i32 = 84;

// Reads an open file to the buffer, up to the end of either; how many bytes were read. The memory is of a fixed size: std's own reading to the end
// takes a heap.
fn read_open(file: &mut impl Read, bytes: &mut [u8]) -> io::Result<usize>
    ensures { IfOk result (λ n. n ≤ length bytes.old) }
{
    let mut at = 0;
    while at < bytes.len() {
        let n = file.read(&mut bytes[at..])?;
        if n == 0 {
            break;
        }
        at += n;
    }
    Ok(at)
}

// Reads the file that a path names to the buffer; how many bytes were read.
fn read_path(rt: &impl Files, path: &[u8], bytes: &mut [u8]) -> io::Result<usize>
    ensures { IfOk result (λ n. n ≤ length bytes.old) }
{
    let Ok(name) = str::from_utf8(path) else {
        return Err(Error::from_raw_os_error(NO_TEXT));
    };
    let mut file = fs::open(rt, name)?;
    read_open(&mut file, bytes)
}

// Reads the file that an argument names to the buffer; how many bytes were read. What can't be opened or read is said, and nothing is given.
fn read_named(
    rt: &(impl Env + Files),
    stderr: &impl Print,
    word: usize,
    bytes: &mut [u8],
) -> Option<usize>
    ensures { IfSome result (λ n. n ≤ length bytes.old) }
{
    let mut path = [0u8; 4096];
    let n = match rt.arg(word, &mut path) {
        Ok(n) => n,
        Err(e) => {
            let number = match e {
                FillError::TooLong => TOO_LONG,
                FillError::NotPresent => MISSING,
            };
            fail(stderr, b"an argument", Error::from_raw_os_error(number));
            return None;
        }
    };
    match read_path(rt, &path[..n], bytes) {
        Ok(read) => Some(read),
        Err(e) => {
            fail(stderr, &path[..n], e);
            None
        }
    }
}

// Reads the files that the arguments name to the buffer, one behind the other, as many as there are slots for where each ends; the place behind
// the last. Where there are more files than a listing may have, none is read; where the buffer is full, none behind it: both listings are the
// refusal 1. Nothing is given where one could not be read.
pub fn read_files(
    rt: &(impl Env + Files),
    stderr: &impl Print,
    bytes: &mut [u8],
    ends: &mut [usize],
) -> Option<usize>
    ensures { IfSome result (λ end. end ≤ length bytes.old) }
{
    if Settings::STREAMS + 2 < ends.len() {
        return Some(0);
    }
    let mut at = 0;
    for (k, end) in ends.iter_mut().enumerate() {
        at += read_named(rt, stderr, k + 1, &mut bytes[at..])?;
        *end = at;
        if at == bytes.len() {
            break;
        }
    }
    Some(at)
}
