// Drives the queue through a full ring, wrap-around, dead records at the front and in the middle, touching ones, a new chromosome and a
// room of one, and writes what waits after each step.
#![tactic(auto)]

ghost use Rattle.std.specs.Prelude.{◌≡◌, ◌≤◌, ◌<◌, length, IfOk, OnErr};
ghost use Rattle.queue.specs.Ring.{Fair};
ghost use Rattle.tests_queue.specs.Ready.{GoesOn, Ready};

use queue::{Ring, Slot};
use rules::{Base, Chrom, Stream};
use std::{fmt, io};

#[derive(Clone, Copy)]
enum Step {
    // A record is pushed: stream, row, start, stop.
    Push(u64, u64, u64, u64),
    // A base comes: chromosome, start, stop.
    Give(u64, u64, u64),
}

const STEPS: [Step; 20] = [
    Step::Give(0, 0, 5),
    Step::Push(0, 0, 0, 16),
    Step::Push(0, 1, 10, 20),
    Step::Push(1, 0, 12, 60),
    Step::Push(1, 1, 14, 70),
    Step::Give(0, 15, 18),
    Step::Give(0, 20, 30),
    Step::Push(0, 2, 31, 35),
    Step::Push(1, 2, 32, 90),
    Step::Push(2, 0, 33, 34),
    Step::Give(0, 32, 33),
    Step::Give(0, 40, 50),
    Step::Push(2, 1, 49, 99),
    Step::Give(0, 60, 65),
    Step::Give(0, 90, 200),
    Step::Push(2, 2, 199, 200),
    Step::Give(0, 99, 150),
    Step::Push(3, 0, 200, 18446744073709551615),
    Step::Give(1, 0, 18446744073709551615),
    Step::Push(7, 9, 18446744073709551615, 18446744073709551615),
];

impl fmt::Display for Step {
    fn fmt<W: fmt::Write>(&self, f: &mut fmt::Formatter<W>) -> fmt::Result {
        match *self {
            Step::Push(stream, row, start, stop) => write!(f, "push {stream}/{row}:{start}-{stop}"),
            Step::Give(chrom, start, stop) => write!(f, "base {chrom}:{start}-{stop}"),
        }
    }
}

// The end of a line: a bar and what waits, the oldest first.
fn show_waiting(rt: &impl Print, ring: Ring, queue: &[[u64; 4]]) -> io::Result<()>
    requires { Fair ring queue.now }
{
    print!(rt; " |")?;
    for k in 0..ring.len {
        let x = ring.slot(queue, k);
        print!(rt; " {}/{}:{}-{}", x.stream.0, x.row, x.start, x.stop)?;
    }
    println!(rt)
}

// Answer rows: stream and row of each.
fn show_hits(rt: &impl Print, rows: &[[u64; 2]]) -> io::Result<()> {
    for x in rows {
        print!(rt; " {}/{}", x[0], x[1])?;
    }
    Ok(())
}

// Where the first that waits starts.
fn show_front(rt: &impl Print, front: Option<u64>) -> io::Result<()> {
    match front {
        Some(start) => print!(rt; " front {start}"),
        None => print!(rt; " front none"),
    }
}

// One record is pushed.
fn push_step(rt: &impl Print, ring: Ring, queue: &mut [[u64; 4]], slot: Slot) -> io::Result<Ring>
    requires { Fair ring queue.old }
    ensures ok { IfOk result (λ r. GoesOn ring r queue.new) }
    ensures err { OnErr result (length queue.new ≡ length queue.old) }
{
    let Some(after) = ring.push(queue, slot) else {
        print!(rt; " full")?;
        show_waiting(rt, ring, queue)?;
        return Ok(ring);
    };
    show_waiting(rt, after, queue)?;
    Ok(after)
}

// A base comes: the queue is cleared for it and its records are written.
fn base_step(
    rt: &impl Print,
    ring: Ring,
    queue: &mut [[u64; 4]],
    answers: &mut [[u64; 2]],
    b: Base,
) -> io::Result<Ring>
    requires { Ready ring queue.old answers.old }
    ensures ok { IfOk result (λ r. GoesOn ring r queue.new) }
    ensures err { OnErr result (length queue.new ≡ length queue.old) }
{
    let after = ring.clear(queue, b);
    let n = after.scan(queue, b, answers);
    show_hits(rt, &answers[..n])?;
    show_front(rt, after.front(queue))?;
    show_waiting(rt, after, queue)?;
    Ok(after)
}

// One step of the table.
fn play(
    rt: &impl Print,
    ring: Ring,
    queue: &mut [[u64; 4]],
    answers: &mut [[u64; 2]],
    step: Step,
) -> io::Result<Ring>
    requires { Ready ring queue.old answers.old }
    ensures ok { IfOk result (λ r. GoesOn ring r queue.new) }
    ensures err { OnErr result (length queue.new ≡ length queue.old) }
{
    print!(rt; "{step}")?;
    match step {
        Step::Push(stream, row, start, stop) => {
            let slot = Slot {
                stream: Stream(stream),
                row,
                start,
                stop,
            };
            push_step(rt, ring, queue, slot)
        }
        Step::Give(chrom, start, stop) => {
            let b = Base {
                chrom: Chrom(chrom),
                start,
                stop,
            };
            base_step(rt, ring, queue, answers, b)
        }
    }
}

// All steps, over a ring with as many slots as were lent.
fn drive(rt: &impl Print, queue: &mut [[u64; 4]], answers: &mut [[u64; 2]]) -> io::Result<()>
    requires { (0 < length queue.old) × (length queue.old ≤ 65536) × (length answers.old ≡ length queue.old) }
{
    let room = queue.len();
    println!(rt; "room {room}")?;
    let mut ring = Ring::empty(room, Chrom(0));
    for step in STEPS {
        ring = play(rt, ring, queue, answers, step)?;
    }
    Ok(())
}

fn main(rt: HostRuntime) -> io::Result<()> {
    let mut queue = [[0u64; 4]; 3];
    let mut answers = [[0u64; 2]; 3];
    drive(&rt, &mut queue, &mut answers)?;
    let mut slot = [[0u64; 4]; 1];
    let mut row = [[0u64; 2]; 1];
    drive(&rt, &mut slot, &mut row)
}
