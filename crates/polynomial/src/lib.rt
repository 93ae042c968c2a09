// The polynomial that sums lead to: its coefficients, its value at a code, and the entries of a log that are its roots. Numbers in lent slices, however many.
// A list goes to the front of a lent buffer, and how many entries it has is answered: there is no heap.
#![tactic(auto)]

pub mod coefficients;
pub mod evaluator;
pub mod one_reduction;
