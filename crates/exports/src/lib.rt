// The calls of the sketch and of the field over words and bytes that are lent, at any width of code. Every call takes any input.
// What a call keeps of its own stands in arrays of the greatest size, since there is no heap.
#![tactic(auto)]

pub mod decoder;
pub mod evaluator;
pub mod field;
pub mod layout;
pub mod one_reduction;
pub mod packet;
pub mod power_sum;
pub mod surplus;
mod words;
