// A text is read, and the numbers in it.
ghost use Rattle.std.specs.Prelude.{◌≡◌, ◌+◌, ◌<◌, ◌≤◌, ◌↔◌, ◌⊎◌, length, take, slice_index, IfOk, IfSome, OnSome, IsTrue};

use std::io;
use std::io::Read;

// Reads an input to lent memory, up to the end of either: the bytes that were read. There is no heap in this repository: a read tells how far it
// came.
pub fn read_text<'a, R: Read>(input: &mut R, memory: &'a mut [u8]) -> io::Result<&'a [u8]>
    ensures room { IfOk result (λ text. length text.now ≤ length memory.old) }
    ensures bytes { IfOk result (λ text. IfSome (R.remaining input.old) (λ bytes. text.now ≡ take (length memory.old) bytes)) }
{
    let mut done = 0;
    while done < memory.len() {
        let n = input.read(&mut memory[done..])?;
        if n == 0 {
            break;
        }
        done += n;
    }
    Ok(&memory[..done])
}

// The number with one digit more, where it has 64 bits.
fn grown(value: u64, digit: u8) -> Option<u64> {
    value
        .checked_mul(10)?
        .checked_add(u64::from(digit.wrapping_sub(b'0')))
}

// A place in a text, at which it is read. Programs that go by lines give it the whole text and count the line's place beside: a number that can't be
// read takes the place to the start of the text, not of the line, and reading goes on there.
#[derive(Clone, Copy)]
pub struct Reader<'a> {
    pub text: &'a [u8],
    pub at: usize,
}

impl Reader<'_> {
    // The number that stands at the place, where one does; the place is then behind it and one space. Where a byte beyond `9`
    // follows, as a letter is, or the number has more than 64 bits, there is none, and the place is the text's start.
    pub fn number(&mut self) -> Option<u64>
        ensures same { self.new.text.now ≡ self.old.text.now }
        ensures ahead { OnSome result (self.old.at < self.new.at) }
    {
        let rest = self.text.get(self.at..)?;
        let mut value = 0;
        for (i, b) in rest.iter().enumerate() {
            if !b.is_ascii_digit() {
                return self.pass(i, *b, value);
            }
            let Some(more) = grown(value, *b) else {
                self.at = 0;
                return None;
            };
            value = more;
        }
        self.pass(rest.len(), b'\n', value)
    }

    // The number whose n digits stand at the place, ahead of the byte that follows them.
    fn pass(&mut self, n: usize, next: u8, value: u64) -> Option<u64>
        requires { self.old.at + n ≤ length self.old.text.now }
        ensures same { self.new.text.now ≡ self.old.text.now }
        ensures ahead { OnSome result (self.old.at < self.new.at) }
    {
        if b'9' < next {
            self.at = 0;
            return None;
        }
        self.at += if next == b' ' { n + 1 } else { n };
        if n == 0 { None } else { Some(value) }
    }

    // Reads a number as above: `Some` where it is this one, `None` where it is another or can't be read.
    pub fn matches(&mut self, value: u64) -> Option<()>
        ensures same { self.new.text.now ≡ self.old.text.now }
        ensures ahead { OnSome result (self.old.at < self.new.at) }
    {
        if self.number()? == value {
            Some(())
        } else {
            None
        }
    }

    // Whether a line ends at the place.
    pub fn is_end(&self) -> bool
        ensures { IsTrue result ↔ ((length self.now.text.now ≤ self.now.at) ⊎ (slice_index self.now.text.now self.now.at ≡ 10)) }
    {
        self.text.get(self.at).is_none_or(|b| *b == b'\n')
    }
}

#[cfg(test)]
mod tests {
    use super::*;
    use std::test::Fail;

    #[test]
    fn a_text_is_read(rt: HostRuntime) -> Result<(), Fail> {
        let mut memory = [0; 16];
        let text = read_text(&mut b"s 0\nr 0 5 9\n".as_slice(), &mut memory)?;
        assert_eq!(rt; text, b"s 0\nr 0 5 9\n".as_slice());
        Ok(())
    }
}
