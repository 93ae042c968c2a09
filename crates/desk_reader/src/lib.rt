// The desk program's lines, read byte by byte, in pieces of any length.
#![tactic(auto)]

ghost use Rattle.std.specs.Prelude.{◌≡◌, ◌≤◌, length};
ghost use Rattle.desk_rules.specs.Desk.{most_lines};
ghost use Rattle.desk_reader.specs.Reader.{standing, fed_of, start_of, feed_answer, feed_log, feed_got};

use lent::refusal::Refusal;

mod bytes;
mod lines;

pub use bytes::{Key, Line};
pub use lines::{Desk, MOST_LINES, Phase};

// Where the reading of an input stands.
#[derive(Clone, Copy)]
pub struct Reading {
    pub desk: Desk,
    pub line: Line,
}

// The core of `feed`, which lends the two lists side by side. A struct of both would be made here and taken apart in `take_line`.
fn take_bytes(r: Reading, log: &mut [u32], got: &mut [u32], piece: &[u8]) -> Reading
    requires { (most_lines ≤ length log.old) × (most_lines ≤ length got.old) }
    ensures { standing result log.new got.new ≡ fed_of (standing r log.old got.old) piece.now }
{
    let Reading { mut desk, mut line } = r;
    for b in piece {
        if *b == b'\n' {
            desk = desk.take_line(log, got, line);
            line = Line::Fresh;
        } else {
            line = line.followed_by(*b);
        }
    }
    Reading { desk, line }
}

// The reading of an input before its first byte.
pub fn start() -> Reading
    ensures { result ≡ start_of }
{
    Reading {
        desk: Desk::empty(Phase::Unbegun),
        line: Line::Fresh,
    }
}

// The next piece of the input. The log's entries go to the front of `log` and the got codes to the front of `got`, each of which has a place for every
// line that may come.
#[tactic(auto, unfolding(crate::specs::Reader::feed_answer, crate::specs::Reader::feed_log, crate::specs::Reader::feed_got))]
pub fn feed(r: Reading, log: &mut [u32], got: &mut [u32], piece: &[u8]) -> Result<Reading, Refusal>
    ensures answer { result ≡ feed_answer r log.old got.old piece.now }
    ensures log { log.new ≡ feed_log r log.old got.old piece.now }
    ensures got { got.new ≡ feed_got r log.old got.old piece.now }
{
    if log.len() < MOST_LINES || got.len() < MOST_LINES {
        return Err(Refusal::NoRoom);
    }
    Ok(take_bytes(r, log, got, piece))
}
