// Replays a recorded list of operations, read from standard input, on the calls of both widths, and writes how many
// operations there were and how many were not answered as recorded.
#![tactic(auto)]

mod answer;
mod field;
mod line;
mod operation;
mod reading;
mod sketch;
mod slots;
mod widths;

use reading::Reading;
use std::io;
use std::io::Read;

// A proved loop has to end, and nothing says that the input does: the turns are counted to a number that no run reaches. The pieces read stand in
// fixed memory, which a buffered reader does not.
fn read_all(input: &mut impl Read) -> io::Result<Reading> {
    let mut reading = Reading::default();
    let mut buffer = [0u8; 65536];
    for _ in 0..u64::MAX {
        let n = input.read(&mut buffer)?;
        if n == 0 {
            break;
        }
        reading.feed(&buffer[..n]);
    }
    reading.finish();
    Ok(reading)
}

fn main(rt: HostRuntime) -> io::Result<()> {
    let reading = read_all(&mut rt.stdin())?;
    println!(rt;
        "{} operations, {} differences",
        reading.operations, reading.differences
    )
}
