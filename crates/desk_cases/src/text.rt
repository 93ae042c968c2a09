// Texts in memory of a fixed size.
ghost use Rattle.std.specs.Iterator.{IsFinite};

use arrayvec::ArrayVec;
use std::io;
use std::io::Write;

// The room for the list, and for every input and every answer here.
pub(crate) const ROOM: usize = 262144;

// A text, with room for the longest.
pub(crate) type Text = ArrayVec<u8, ROOM>;

// Adds a line of a word for each number.
pub(crate) fn put_lines<N: Iterator<Item = u32>>(
    text: &mut Text,
    word: &str,
    numbers: N,
) -> io::Result<()>
where
    N: Drop,
    requires can { N.can_next numbers }
    requires ends { IsFinite (N.remaining numbers) }
{
    for number in numbers {
        writeln!(text, "{word}={number}")?;
    }
    Ok(())
}
