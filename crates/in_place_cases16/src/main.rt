// Runs the calls in place on cases of the bench at 16 bits, and writes how many there are and how many differ.
// A program takes no width, so each width has its own.
#![tactic(auto)]

use in_place_cases::Numbers;
use std::io;

fn main(rt: HostRuntime) -> io::Result<()> {
    let (cases, differences) = in_place_cases::run::<u16>(Numbers {
        greatest: 65535,
        residue: 14,
        apart: [65520, 65518],
    });
    println!(rt; "{cases} cases, {differences} differences")
}
