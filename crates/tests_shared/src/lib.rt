// What the programs that replay and play jobs share: a text is read, and numbers in it that are parted by single spaces; parts of columns, and
// names of chromosomes.
#![tactic(auto)]

mod columns;
mod jobs;
mod names;
mod reader;

pub use columns::{at, front, part_mut};
pub use jobs::each_job;
pub use names::{name_ends, name_starts, name_text};
pub use reader::{Reader, read_text};
