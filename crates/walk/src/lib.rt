// The bases of a listing's texts, one at a time: the run that begins, a base given to it, its lines written.
// The functions here are called by the proved listing and its program alone.
#![tactic(auto)]

ghost use Rattle.std.specs.Prelude.{◌≡◌, [], ◌+◌, ◌≤◌, ◌<◌, length, get_or};
ghost use Rattle.fields.specs.Names.{listed};
ghost use Rattle.heads.specs.View.{cols_of};
ghost use Rattle.pulls.specs.Pulls.{lent};
ghost use Rattle.runs.specs.Start.{start_of, kept_of};
ghost use Rattle.replies.specs.List.{Lists};
ghost use Rattle.inputs.specs.Texts.{rows_most, room};
ghost use Rattle.inputs.specs.Parted.{texts_of};
ghost use Rattle.inputs.specs.Read.{base_in};
ghost use Rattle.walk.specs.Run.{Bases, plan_of};
ghost use Rattle.walk.specs.Memory.{IsEmpty, ReadsTo, FineIn, Stands};

use fields::NameList;
use heads::Columns;
use inputs::{Misread, Read, Texts};
use replies::{Entry, Listed};
use rules::{Base, Chrom, Settings};
use runs::Run;

// What a listing's texts hold: the chromosomes' names and lengths, the bases, and the streams' rows.
#[derive(Clone, Copy)]
pub struct Tables<'a> {
    pub names: NameList<'a>,
    pub lengths: &'a [u64],
    pub bases: Columns<'a>,
    pub rows: Columns<'a>,
}

// The memory that a listing's texts are read to: where each name begins and ends, the chromosomes' lengths, the bases and, in eight parts, the
// streams' rows. It is of a fixed size, since a host's call takes no heap.
#[derive(Drop)]
pub struct Memory {
    pub from: [usize; 1024],
    pub to: [usize; 1024],
    pub lengths: [u64; 1024],
    pub base_chrom: [u64; 1024],
    pub base_start: [u64; 1024],
    pub base_stop: [u64; 1024],
    pub chrom: [u64; 8192],
    pub start: [u64; 8192],
    pub stop: [u64; 8192],
}

impl Memory {
    // Memory with nothing read to it.
    pub fn new() -> Memory
        ensures { IsEmpty result }
    {
        Memory {
            from: [0; 1024],
            to: [0; 1024],
            lengths: [0; 1024],
            base_chrom: [0; 1024],
            base_start: [0; 1024],
            base_stop: [0; 1024],
            chrom: [0; 8192],
            start: [0; 8192],
            stop: [0; 8192],
        }
    }

    // Reads all texts: how much was read, and what is wrong before the run, if anything is.
    pub fn read(&mut self, texts: Texts) -> Result<Read, Misread>
        ensures { ReadsTo (texts_of texts.entry.bytes.now texts.entry.ends.now) result self.new }
    {
        inputs::read_texts(
            texts,
            &mut self.from,
            &mut self.to,
            &mut self.lengths,
            &mut self.base_chrom,
            &mut self.base_start,
            &mut self.base_stop,
            &mut self.chrom,
            &mut self.start,
            &mut self.stop,
        )
    }

    // The tables of texts that were read, with nothing wrong.
    pub fn tables<'a>(&'a self, read: Read, texts: Texts<'a>) -> Tables<'a>
        requires { FineIn (texts_of texts.bytes.now texts.ends.now) read self.now }
        ensures { Stands texts.entry.bytes.now texts.entry.ends.now read self.now result }
    {
        let n = read.names;
        let names = NameList {
            text: &texts.bytes[..texts.ends[0]],
            from: &self.from[..n],
            to: &self.to[..n],
        };
        let bases = Columns {
            chrom: &self.base_chrom,
            start: &self.base_start,
            stop: &self.base_stop,
        };
        let rows = Columns {
            chrom: &self.chrom,
            start: &self.start,
            stop: &self.stop,
        };
        Tables {
            names,
            lengths: &self.lengths[..n],
            bases,
            rows,
        }
    }
}

// The run of texts that were read, with nothing wrong. A caller may lend more names than were read, so those that were are taken. Where no run
// begins, which texts with nothing wrong exclude, it is the run of no streams.
pub fn begin(read: Read, tables: Tables) -> Run
    requires { (read.names ≤ length tables.names.from.now) × (read.names ≤ length tables.names.to.now) }
    ensures { result ≡ kept_of (start_of (plan_of read tables.entry.names.text.now tables.entry.names.from.now tables.entry.names.to.now (cols_of tables.entry.rows))) }
{
    let n = read.names;
    let names = NameList {
        text: tables.names.text,
        from: &tables.names.from[..n],
        to: &tables.names.to[..n],
    };
    let places = [0, 1024, 2048, 3072, 4096, 5120, 6144, 7168];
    let fixed = Settings {
        streams: read.streams,
        chroms: n,
        room: 1024,
    };
    Run::kept(Run::start(fixed, places, read.to, names, tables.rows))
}

// Base number i is given to the run, and its lines are written. The lent slices stay parameters by themselves: of a struct that holds them, each
// clause would have to say whose slices it still holds.
pub fn list_row(
    run: Run,
    i: usize,
    tables: Tables,
    queue: &mut [[u64; 4]],
    answers: &mut [[u64; 2]],
    out: &mut [u8],
    at: usize,
) -> Listed
    requires { Bases tables.names.text.now tables.names.from.now tables.names.to.now (cols_of tables.bases) (i + 1) }
    ensures { Lists (cols_of tables.entry.rows) tables.entry.lengths.now run
        (base_in (cols_of tables.entry.bases) i) i
        (get_or (listed tables.entry.names) (get_or tables.entry.bases.chrom.now i 0) [])
        (lent queue.old answers.old)
        out.old at result
        (lent queue.new answers.new)
        out.new }
{
    let Tables {
        names,
        lengths,
        bases,
        rows,
    } = tables;
    let c = bases.chrom[i];
    let first = replies::place_at(names.from, c);
    let end = replies::place_at(names.to, c);
    let entry = Entry {
        base: Base {
            chrom: Chrom(c),
            start: bases.start[i],
            stop: bases.stop[i],
        },
        row: i as u64,
        name: &names.text[first..end],
    };
    replies::list_base(run, entry, rows, lengths, queue, answers, out, at)
}
