// The jobs of a list.
ghost use Rattle.std.specs.Prelude.{◌≡◌, ℕ};
ghost use Rattle.tests_shared.specs.declared.reader.Reader.{Reader};

use crate::Reader;

// Goes by the jobs of a list, a line each, but for comments: each call is given the line's number, from 1, and a reader of the whole text at the
// line's start.
pub fn each_job<'a, F: FnMut(u64, Reader<'a>)>(text: &'a [u8], mut visit: F)
    requires { (state : F) (line : ℕ) (reader : Reader) → reader.text.now ≡ text.now → F.pre state line reader }
{
    let mut at: usize = 0;
    for (i, line) in text.split_inclusive(|b| *b == b'\n').enumerate() {
        if line.first() != Some(&b'#') {
            visit(i as u64 + 1, Reader { text, at });
        }
        at = at.saturating_add(line.len());
    }
}
