// The listing of texts: files to text, in one call for hosts.
#![tactic(auto)]

ghost use Rattle.std.specs.Prelude.{◌≡◌, length};
ghost use Rattle.fields.specs.Names.{listed};
ghost use Rattle.heads.specs.View.{cols_of};
ghost use Rattle.lines.specs.Laid.{Lays};
ghost use Rattle.inputs.specs.Texts.{rows_most, room};
ghost use Rattle.inputs.specs.Parted.{texts_of};
ghost use Rattle.walk.specs.Run.{Comes, Bases};
ghost use Rattle.walk.specs.Memory.{FineIn};
ghost use Rattle.listing.specs.Listing.{listing};
ghost use Rattle.listing.specs.Run.{lines_from, step_of, told_of};
ghost use Rattle.listing.specs.Call.{Writes};

use inputs::{Read, Texts};
use lines::Cut;
use rules::Answer;
use runs::Run;
use walk::{Memory, Tables};

// 0, or 14 where the listing is longer than its buffer; and how many bytes of it stand there. C's layout: numbers alone.
#[repr(C)]
#[derive(Clone, Copy)]
pub struct Listing {
    pub number: u64,
    pub length: usize,
}

// What became of the lines, in numbers.
impl From<Result<usize, Cut>> for Listing {
    ghost from_gives = { λ lines x. x ≡ told_of lines };

    fn from(lines: Result<usize, Cut>) -> Listing {
        match lines {
            Ok(length) => Listing { number: 0, length },
            Err(Cut(length)) => Listing { number: 14, length },
        }
    }
}

// The place from which the listing goes on behind a base's lines: where all of them stand and the run has not ended.
fn step_after(answer: Answer, lines: Result<usize, Cut>) -> Option<usize>
    ensures { result ≡ step_of answer lines }
{
    match answer {
        Answer::Found(_, _) | Answer::Refused(_) => lines.ok(),
        Answer::Ended(_) => None,
    }
}

// The lines of n bases, one behind the other, until the run ends or a line doesn't fit. The program's twin writes each base's lines out and takes
// the buffer anew; what is written out no contract can speak of.
fn list_bases(
    run: Run,
    n: usize,
    tables: Tables,
    queue: &mut [[u64; 4]],
    answers: &mut [[u64; 2]],
    out: &mut [u8],
) -> Result<usize, Cut>
    requires { Bases tables.names.text.now tables.names.from.now tables.names.to.now (cols_of tables.bases) n
        × Comes (cols_of tables.rows) tables.lengths.now run queue.old
        × (length answers.old ≡ room) }
    ensures { Lays out.old 0
        (lines_from (listed tables.entry.names) tables.entry.lengths.now (cols_of tables.entry.bases)
        (cols_of tables.entry.rows) n 0 run queue.old)
        result out.new }
{
    let mut run = run;
    let mut at = 0;
    for i in 0..n {
        let base = walk::list_row(run, i, tables, queue, answers, out, at);
        let Some(next) = step_after(base.answer, base.lines) else {
            return base.lines;
        };
        run = base.run;
        at = next;
    }
    Ok(at)
}

// The listing of texts that were read, with nothing wrong. The program's `list_read` is its twin, and its `list_texts` that of the one below: both
// call `list_bases`, of which no contract can speak there.
fn list_run(read: Read, texts: Texts, memory: &Memory, out: &mut [u8]) -> Result<usize, Cut>
    requires { FineIn (texts_of texts.bytes.now texts.ends.now) read memory.now }
    ensures { Lays out.old 0 (listing (texts_of texts.entry.bytes.now texts.entry.ends.now)) result out.new }
{
    let tables = memory.tables(read, texts);
    let run = walk::begin(read, tables);
    let mut queue = [[0; 4]; 1024];
    let mut answers = [[0; 2]; 1024];
    list_bases(run, read.bases, tables, &mut queue, &mut answers, out)
}

// The listing of texts: a fault before the run gives one line, else the bases are listed.
fn list_texts(texts: Texts, out: &mut [u8]) -> Result<usize, Cut>
    ensures { Lays out.old 0 (listing (texts_of texts.entry.bytes.now texts.entry.ends.now)) result out.new }
{
    let mut memory = Memory::new();
    match memory.read(texts) {
        Ok(read) => list_run(read, texts, &memory, out),
        Err(x) => {
            let e = x.error;
            lines::put_fault(out, 0, e.number(), e.text(), e.ahead()).ok_or(Cut(0))
        }
    }
}

// Writes the whole listing of texts to a buffer. Given are the texts one behind the other, the chromosome list, the bases and
// each stream, and where each of them ends.
#[unsafe(no_mangle)]
pub extern "C" fn cedarlash_list(bytes: &[u8], ends: &[usize], out: &mut [u8]) -> Listing
    ensures { Writes (texts_of bytes.now ends.now) out.old result out.new }
{
    list_texts(Texts { bytes, ends }, out).into()
}
