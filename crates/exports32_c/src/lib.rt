// The calls of `exports` under their names for C, at codes of 32 bits. C has no type parameters, so each width has its functions and its structs. It has no
// `Result` either, so a refusal is a number, and where there is a value it stands beside it: what is answered and what is lent are told apart, in two clauses.
#![tactic(auto)]

pub mod decoder;
pub mod evaluator;
pub mod field;
pub mod packet;
pub mod power_sum;
pub mod surplus;
