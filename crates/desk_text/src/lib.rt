// The desk program's answer: what the lines that were read come to, written as text into a lent buffer.
#![tactic(auto)]

pub mod answer;
pub mod writer;
