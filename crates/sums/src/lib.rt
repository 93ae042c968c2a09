// The sums of a sketch, as words in lent slices, however many there are: tested, moved by powers, subtracted, written as a packet and read from one.
#![tactic(auto)]

pub mod packet;
pub mod places;
pub mod powers;
