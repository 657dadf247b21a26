// Writes the listing of files to standard output: `./cedarlash list LIST BASES STREAM...`.
// What can't be read or written is said on standard error, and nothing else is; the program itself ends with status 0 all the same.
#![tactic(auto)]

mod failure;
mod files;
mod listing;

ghost use Rattle.std.specs.Prelude.{◌≤◌};

use crate::listing::Output;
use inputs::Texts;
use std::env::FillError;
use std::io::Print;
use std::rt::Env;

// How the program is called.
const USAGE: &str = "usage: ./cedarlash list LIST BASES STREAM...
lists, for each base, the records that overlap it; fields are parted by tabs
  LIST    chromosomes in their order: name, length where known
  BASES   sorted target regions: chromosome, start, stop
  STREAM  sorted records, the same; 1 to 8 files
what is refused stands in the listing, as an X line (status 0); what can't be read or
written is said on standard error (status 2, given by ./cedarlash list)
";

// Writes to standard error. Where that fails, nothing else can be said.
fn say(stderr: &impl Print, text: &str) {
    let _ = stderr.write_all(text.as_bytes());
}

// How many words the program was called with, its own name among them; of more than twelve, twelve.
fn word_count(rt: &impl Env) -> usize
    ensures { result ≤ 12 }
{
    let mut word = [0u8; 1];
    for n in 0..12 {
        if let Err(FillError::NotPresent) = rt.arg(n, &mut word) {
            return n;
        }
    }
    12
}

fn main(rt: HostRuntime) {
    let stdout = rt.stdout();
    let stderr = rt.stderr();
    let words = word_count(&rt);
    if words < 4 {
        say(&stderr, USAGE);
        return;
    }
    let mut bytes = [0u8; 65537];
    let mut ends = [0usize; 11];
    let count = (words - 1).min(11);
    let read = files::read_files(&rt, &stderr, &mut bytes, &mut ends[..count]);
    if let Some(n) = read {
        let texts = Texts {
            bytes: &bytes[..n],
            ends: &ends[..count],
        };
        let output = Output {
            stdout: &stdout,
            stderr: &stderr,
        };
        output.list_texts(texts);
    }
}
