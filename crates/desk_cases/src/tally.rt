// One input fed in pieces of several sizes, and what is written held to what is expected. Lists and texts stand in arrays, since there is no heap; an input and
// what is expected go side by side, since a case has them as two texts.
ghost use Rattle.std.specs.Prelude.{◌<◌};

use crate::text::ROOM;
use desk_reader::MOST_LINES;
use desk_text::answer;
use lent::refusal::Refusal;

// How many inputs were tried, and how many of them were answered otherwise than expected.
#[derive(Clone, Copy, Default)]
pub(crate) struct Tally {
    pub(crate) inputs: u32,
    pub(crate) differences: u32,
}

// The input in pieces of `size` bytes.
fn in_pieces(input: &[u8], expected: &[u8], size: usize) -> Result<bool, Refusal>
    requires { 0 < size }
{
    let mut log = [0u32; MOST_LINES];
    let mut got = [0u32; MOST_LINES];
    let mut reading = desk_reader::start();
    for piece in input.chunks(size) {
        reading = desk_reader::feed(reading, &mut log, &mut got, piece)?;
    }
    let mut out = [0u8; ROOM];
    let end = answer::finish(reading, &log, &got, &mut out)?;
    Ok(&out[..end] == expected)
}

// The input at once.
fn at_once(input: &[u8], expected: &[u8]) -> Result<bool, Refusal> {
    let mut out = [0u8; ROOM];
    let end = answer::answer(input, &mut out)?;
    Ok(&out[..end] == expected)
}

// All ways of feeding an input give what is expected. None is refused: there is room for every line and for every answer.
fn agrees(input: &[u8], expected: &[u8]) -> Result<bool, Refusal> {
    Ok(
        at_once(input, expected)?
            && in_pieces(input, expected, 1)?
            && in_pieces(input, expected, 7)?
            && in_pieces(input, expected, 65536)?,
    )
}

impl Tally {
    // One input more, and whether it was answered as expected.
    pub(crate) fn count(&mut self, agreed: bool) {
        self.inputs = self.inputs.wrapping_add(1);
        if !agreed {
            self.differences = self.differences.wrapping_add(1);
        }
    }

    pub(crate) fn case(&mut self, input: &[u8], expected: &[u8]) {
        self.count(agrees(input, expected) == Ok(true));
    }
}
