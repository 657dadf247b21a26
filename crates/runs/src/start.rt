// A run begins: 1, then 2.
ghost use Rattle.std.specs.Prelude.{◌≡◌};
ghost use Rattle.heads.specs.View.{cols_of};
ghost use Rattle.runs.specs.Start.{plan, ranged, fresh_run, none_run, start_of, kept_of};

use crate::{Mark, Run};
use fields::NameList;
use heads::Columns;
use rules::{Settings, Stage, Unbegun};

impl Run {
    // A run that has accepted no base: its heads are not loaded and nothing waits.
    pub(crate) fn fresh(fixed: Settings, from: [usize; 8], to: [usize; 8]) -> Run
        ensures { result ≡ fresh_run fixed from to }
    {
        let none = [0; 8];
        Run {
            chrom: none,
            start: none,
            stop: none,
            row: none,
            ended: [1; 8],
            next: from,
            from,
            to,
            settings: fixed,
            head: 0,
            len: 0,
            place: 0,
            mark: Mark::from(Stage::Fresh),
        }
    }

    // The run of no streams, to which every base is refused by 1.
    pub fn none() -> Run
        ensures { result ≡ none_run }
    {
        let fixed = Settings {
            streams: 0,
            chroms: 0,
            room: 0,
        };
        Run::fresh(fixed, [0; 8], [0; 8])
    }

    // What is kept of a start: the run that began, or where none did the run of no streams.
    pub fn kept(begun: Result<Run, Unbegun>) -> Run
        ensures { result ≡ kept_of begun }
    {
        begun.unwrap_or(Run::none())
    }

    // Whether there are no more streams than places, and each one's range stands among the lent rows.
    fn are_ranges(streams: usize, from: &[usize; 8], to: &[usize; 8], rows: usize) -> bool
        ensures { result ≡ ranged rows streams from.now to.now }
    {
        if Run::STREAMS < streams {
            return false;
        }
        for k in 0..streams {
            if to[k] < from[k] || rows < to[k] {
                return false;
            }
        }
        true
    }

    // Begins a run. Given are what is fixed from its start, where each stream's rows begin and end in the lent columns, and the chromosomes' names.
    pub fn start(
        fixed: Settings,
        from: [usize; 8],
        to: [usize; 8],
        names: NameList,
        columns: Columns,
    ) -> Result<Run, Unbegun>
        ensures { result ≡ start_of (plan fixed from to names.entry.text.now names.entry.from.now names.entry.to.now (cols_of columns.entry)) }
    {
        let rows = columns.chrom.len();
        let sized = fixed.is_sized();
        let counted = names.from.len() == fixed.chroms;
        let even = (columns.start.len() == rows) & (columns.stop.len() == rows);
        let ranges = Run::are_ranges(fixed.streams, &from, &to, rows);
        if !(sized & ((counted & even) & ranges)) {
            return Err(Unbegun::Sizes);
        }
        chroms::check_list(names)?;
        Ok(Run::fresh(fixed, from, to))
    }
}
