// Inputs of the desk program, good and bad, listed on standard input or built here. Each is fed at once and in pieces of
// 1, of 7 and of all bytes, and what is written is held to what should be.
#![tactic(auto)]

mod large;
mod listed;
mod tally;
mod text;

use crate::tally::Tally;
use std::io;

fn main(rt: HostRuntime) -> io::Result<()> {
    let mut tally = Tally::default();
    listed::inputs(&mut rt.stdin(), &mut tally)?;
    large::inputs(&mut tally)?;
    println!(rt;
        "{} inputs, {} differences",
        tally.inputs, tally.differences
    )
}
