// The drive file: 512-byte blocks that hold a header, samples and turns. The reader borrows the file's bytes and gives
// a record, or names the first fault. Relies on `faults`, and on `sections` for the ranges of their parameters.
#![tactic(auto)]

mod block;
mod bytes;
mod check;
mod copying;
mod header;
mod items;
mod reader;
mod record;

pub use header::{Header, MOST_ITEMS, NetworkChoice, SectionChoice};
pub use reader::MOST_BYTES;
pub use record::Record;
