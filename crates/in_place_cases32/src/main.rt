// Runs the calls in place on cases of the bench at 32 bits, and writes how many there are and how many differ.
// A program takes no width, so each width has its own.
#![tactic(auto)]

use in_place_cases::Numbers;
use std::io;

fn main(rt: HostRuntime) -> io::Result<()> {
    let (cases, differences) = in_place_cases::run::<u32>(Numbers {
        greatest: 4294967295,
        residue: 4,
        apart: [4294967290, 4294967288],
    });
    println!(rt; "{cases} cases, {differences} differences")
}
