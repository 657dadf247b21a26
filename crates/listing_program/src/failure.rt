// What failed, as it is said on standard error: its name, a colon, and the system's words for the reason.
ghost use Rattle.std.specs.Prelude.{◌≤◌, length};

use std::io::{Cursor, Error, Print, Write};

// How much of the text of a system's error are its words: all ahead of its number, which stands behind them as ` (os error 2)`.
fn words(text: &[u8]) -> usize
    ensures { result ≤ length text.now }
{
    match text.iter().rposition(|b| *b == b'(') {
        Some(n) if 0 < n => n - 1,
        _ => text.len(),
    }
}

// Writes a line to standard error: what failed, as the caller names it, and the reason. Where it can't be written, nothing else can be said.
pub fn fail(stderr: &impl Print, what: &[u8], error: Error) {
    let mut line = Cursor::new([0u8; 128]);
    let _ = write!(line, "{error}");
    let n = line.position().min(128) as usize;
    let text = line.into_inner();
    let reason = match error.raw_os_error() {
        Some(_) => words(&text[..n]),
        None => n,
    };
    let _ = stderr.write_all(what);
    let _ = stderr.write_all(b": ");
    let _ = stderr.write_all(&text[..reason]);
    let _ = stderr.write_all(b"\n");
}
