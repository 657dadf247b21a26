// The readers for hosts: a text to columns that the host lends.
ghost use Rattle.std.specs.Prelude.{◌≡◌, length};
ghost use Rattle.chroms.specs.Entry.{list_found, from_of, to_of, len_of};
ghost use Rattle.chroms.specs.Check.{check_of, check_number};
ghost use Rattle.rows.specs.Row.{rows_found, chrom_of, start_of, stop_of};
ghost use Rattle.inplace.specs.Tally.{tally_of, Tallies};

use fields::{NameList, ReadError};

// How a reading ended: the refusal's number or 0, and the rows ahead of the end. C's layout: numbers alone.
#[repr(C)]
#[derive(Clone, Copy)]
pub struct Tally {
    pub refusal: u64,
    pub rows: usize,
}

impl From<Result<usize, ReadError>> for Tally {
    ghost from_gives = { λ r t. t ≡ tally_of r };

    // How a reading that answers so ended.
    fn from(r: Result<usize, ReadError>) -> Tally {
        match r {
            Ok(rows) => Tally { refusal: 0, rows },
            Err(e) => Tally {
                refusal: e.number(),
                rows: e.rows(),
            },
        }
    }
}

// Reads a chromosome list to three columns: where each name starts and ends in the text, and its length.
#[unsafe(no_mangle)]
pub extern "C" fn cedarlash_read_list(
    text: &[u8],
    from: &mut [usize],
    to: &mut [usize],
    len: &mut [u64],
) -> Tally
    ensures { Tallies from_of to_of len_of (list_found text.now (length from.old) (length to.old) (length len.old))
        from.old to.old len.old result from.new to.new len.new }
{
    Tally::from(chroms::read_list(text, from, to, len))
}

// Reads BED text to three columns: chromosome number, start and stop. The list is its text and, for each name, where it starts and ends
// there.
#[unsafe(no_mangle)]
pub extern "C" fn cedarlash_read_rows(
    text: &[u8],
    list: &[u8],
    from: &[usize],
    to: &[usize],
    chrom: &mut [u64],
    start: &mut [u64],
    stop: &mut [u64],
) -> Tally
    ensures { Tallies chrom_of start_of stop_of (rows_found text.now list.now from.now to.now (length chrom.old) (length start.old) (length stop.old))
        chrom.old start.old stop.old result chrom.new start.new stop.new }
{
    let names = NameList {
        text: list,
        from,
        to,
    };
    Tally::from(rows::read_rows(text, names, chrom, start, stop))
}

// Checks a list of names, given as where each starts and ends in a text: 1 for its sizes, 2 for its names, 0 for neither.
#[unsafe(no_mangle)]
pub extern "C" fn cedarlash_check_list(text: &[u8], from: &[usize], to: &[usize]) -> u64
    ensures { result ≡ check_number (check_of text.now from.now to.now) }
{
    match chroms::check_list(NameList { text, from, to }) {
        Ok(()) => 0,
        Err(x) => x.number(),
    }
}
