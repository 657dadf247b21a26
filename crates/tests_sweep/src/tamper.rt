// A run whose fields are overwritten.
use runs::Run;

// A field of a stream: its head's chromosome, start, stop and row, its mark, its next place, where its rows begin and where they end.
#[derive(Clone, Copy)]
pub enum StreamField {
    Chrom,
    Start,
    Stop,
    Row,
    Mark,
    Next,
    From,
    To,
}

// A field of a run: one of a stream; the number of streams, of chromosomes; of the queue head, length, room and chromosome.
#[derive(Clone, Copy)]
pub enum Field {
    OfStream(StreamField),
    Streams,
    Chroms,
    Head,
    Length,
    Room,
    Place,
}

impl Field {
    // The field of a number, as the cases name it.
    pub fn of(number: u64) -> Field {
        match number {
            0 => Field::OfStream(StreamField::Chrom),
            1 => Field::OfStream(StreamField::Start),
            2 => Field::OfStream(StreamField::Stop),
            3 => Field::OfStream(StreamField::Row),
            4 => Field::OfStream(StreamField::Mark),
            5 => Field::OfStream(StreamField::Next),
            6 => Field::OfStream(StreamField::From),
            7 => Field::OfStream(StreamField::To),
            8 => Field::Streams,
            9 => Field::Chroms,
            10 => Field::Head,
            11 => Field::Length,
            12 => Field::Room,
            _ => Field::Place,
        }
    }
}

// A field of the run, or of its stream k, is overwritten.
pub fn set_field(run: &mut Run, field: Field, k: usize, value: u64) {
    let place = value as usize;
    match field {
        Field::OfStream(x) => set_of_stream(run, x, k, value),
        Field::Streams => run.settings.streams = place,
        Field::Chroms => run.settings.chroms = place,
        Field::Head => run.head = place,
        Field::Length => run.len = place,
        Field::Room => run.settings.room = place,
        Field::Place => run.place = value,
    }
}

// A field of stream k, where there is such a stream.
fn set_of_stream(run: &mut Run, field: StreamField, k: usize, value: u64) {
    if 8 <= k {
        return;
    }
    match field {
        StreamField::Chrom => run.chrom[k] = value,
        StreamField::Start => run.start[k] = value,
        StreamField::Stop => run.stop[k] = value,
        StreamField::Row => run.row[k] = value,
        StreamField::Mark => run.ended[k] = value,
        StreamField::Next => run.next[k] = value as usize,
        StreamField::From => run.from[k] = value as usize,
        StreamField::To => run.to[k] = value as usize,
    }
}
