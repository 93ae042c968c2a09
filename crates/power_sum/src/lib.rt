// The power-sum sketch of codes of any width: all its calls are methods of one struct, each a list of refusals and then a loop of `sums` or `polynomial`.
// Sums and coefficients stand in arrays that the greatest threshold fills, since there is no heap.
#![tactic(auto)]

pub mod blank;
pub mod decoder;
pub mod in_place;
pub mod packet;
pub mod power_sum;
pub mod subtract;
pub mod surplus;
