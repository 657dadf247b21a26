// Plays cases over the sweep and writes each command with what it got. The cases stand in this folder's `stdin`, a command a line:
//   = LABEL               a case: two chromosomes, no stream, no run
//   # TEXT                what the next lines are about
//   c N                   N chromosomes: `one` of length 1000, `two`, and further ones of unknown length
//   n K FROM TO           the name of chromosome K stands from byte FROM up to byte TO of the text of names
//   s K                   stream K, with no row yet
//   r CHROM START STOP N  a row of the last stream, or N of them
//   t K FROM TO           the rows of stream K stand from place FROM up to place TO
//   l Q                   as much is lent as a room of Q asks, and one answer row more
//   w SLICE N             of a slice N places are lent: 0 chromosomes, 1 starts, 2 stops, 3 lengths, 4 the queue's slots, 5 the answer rows,
//                         6 and 7 where names begin and end
//   h Q                   a run begins with room Q; g Q: l Q, then h Q
//   b CHROM START STOP    a base; written are the records, the place offered, and how many streams and row numbers of the answer rows behind
//                         them still hold what was put there before
//   o 1                   the other run and its queue's memory
//   q SLOT STREAM ROW START STOP
//                         a slot of the queue is overwritten
//   x FIELD K VALUE       a field of the run is overwritten, of stream K: 0 its head's chromosome, 1 start, 2 stop, 3 row, 4 its mark, 5 its next
//                         place, 6 where its rows begin, 7 where they end; 8 the number of streams, 9 of chromosomes; of the queue 10 head,
//                         11 length, 12 room, 13 chromosome
//   a CHROM START STOP    the run stands as after this base
//   z KIND A B C          the run's mark is overwritten: 7 to 10, ended by that, for 7 and 8 at stream A and row B
#![tactic(auto)]

mod cases;
mod command;
mod given;
mod tamper;

use cases::{Bench, Memory, Rows};
use command::Command;
use std::io;
use tests_shared::Reader;

// How many slots a column has.
pub const SLOTS: usize = 65538;

// How many slots the queues of two runs have together.
pub const QUEUES: usize = 65601;

// All cases of a text: each line as it stands, but for its end, and what its command got.
fn play_all(rt: &impl Print, text: &[u8]) -> io::Result<()> {
    let rows = Rows {
        chrom: [0; SLOTS],
        start: [0; SLOTS],
        stop: [0; SLOTS],
    };
    let mut memory = Memory {
        rows,
        queue: [[0; 4]; QUEUES],
    };
    let mut bench = Bench::new();
    let mut at: usize = 0;
    for line in text.split_inclusive(|b| *b == b'\n') {
        let letter = line.first().copied().unwrap_or(b'#');
        let numbers = Reader {
            text,
            at: at.saturating_add(2),
        };
        rt.write_all(&line[..line.len().saturating_sub(1)])?;
        bench.play(rt, Command::read(letter, numbers), &mut memory)?;
        rt.write_all(b"\n")?;
        at = at.saturating_add(line.len());
    }
    Ok(())
}

fn main(rt: HostRuntime) -> io::Result<()> {
    let mut memory = [0u8; 65536];
    let text = tests_shared::read_text(&mut rt.stdin(), &mut memory)?;
    play_all(&rt, text)
}
