// The evaluation of a drive file, and what is printed of it. Relies on the reader and the sections; it works on bytes, lists
// and a writer that it is lent, and allocates nothing.
#![tactic(auto)]

mod report;
mod words;

pub use report::print_evaluation;
pub use words::evaluate;
