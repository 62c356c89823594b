// The recursive sections of the evaluation: what a section is, its three laws, the three sections, and the
// sample-by-sample recursion. Relies on `faults` for the refusal of a parameter out of range, and on nothing else.
#![tactic(auto)]

pub mod envelope;
pub mod recursion;
pub mod roll;
pub mod section;
pub mod stroke;
