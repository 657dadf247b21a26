// The listing of texts, written out one base's lines at a time.
ghost use Rattle.std.specs.Prelude.{◌≡◌, ◌≤◌, length};
ghost use Rattle.heads.specs.View.{cols_of};
ghost use Rattle.inputs.specs.Parted.{texts_of};
ghost use Rattle.walk.specs.Run.{Bases};
ghost use Rattle.walk.specs.Memory.{FineIn};

use crate::failure::fail;
use crate::say;
use inputs::{InputError, Read, Texts};
use rules::Answer;
use runs::Run;
use std::io::Print;
use walk::{Memory, Tables};

// Where the listing goes, and where what fails is said.
#[derive(Drop)]
pub struct Output<'a, O, E> {
    pub stdout: &'a O,
    pub stderr: &'a E,
}

impl<O: Print, E: Print> Output<'_, O, E> {
    // Writes out the lines that stand in the buffer up to a place, nothing where these are not all. None where they can't be written, which is said.
    fn write_lines(&self, out: &[u8], end: Option<usize>) -> Option<()> {
        let Some(lines) = end.and_then(|n| out.get(..n)) else {
            say(self.stderr, "./cedarlash list: a base's lines don't fit\n");
            return None;
        };
        match self.stdout.write_all(lines) {
            Ok(()) => Some(()),
            Err(e) => {
                fail(self.stderr, b"standard output", e);
                None
            }
        }
    }

    // The line of what is wrong before the run.
    fn list_fault(&self, e: InputError) {
        let mut out = [0; 128];
        let end = lines::put_fault(&mut out, 0, e.number(), e.text(), e.ahead());
        let _ = self.write_lines(&out, end);
    }

    // The lines of n bases, until the run ends.
    fn list_bases(&self, run: Run, n: usize, tables: Tables)
        requires { Bases tables.names.text.now tables.names.from.now tables.names.to.now (cols_of tables.bases) n }
    {
        let mut queue = [[0; 4]; 1024];
        let mut answers = [[0; 2]; 1024];
        let mut out = [0; 131072];
        let mut run = run;
        for i in 0..n {
            let base = walk::list_row(run, i, tables, &mut queue, &mut answers, &mut out, 0);
            let written = self.write_lines(&out, base.lines.ok());
            if written.is_none() || matches!(base.answer, Answer::Ended(_)) {
                return;
            }
            run = base.run;
        }
    }

    // The listing of texts that were read, with nothing wrong.
    fn list_read(&self, read: Read, texts: Texts, memory: &Memory)
        requires { FineIn (texts_of texts.bytes.now texts.ends.now) read memory.now }
    {
        let tables = memory.tables(read, texts);
        let run = walk::begin(read, tables);
        self.list_bases(run, read.bases, tables);
    }

    // The listing of texts.
    pub fn list_texts(&self, texts: Texts) {
        let mut memory = Memory::new();
        match memory.read(texts) {
            Ok(read) => self.list_read(read, texts, &memory),
            Err(x) => self.list_fault(x.error),
        }
    }
}
