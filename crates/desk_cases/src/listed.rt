// The inputs that standard input lists, one to a line, each with what should be written.
use crate::tally::Tally;
use crate::text::{ROOM, Text};
use std::io;
use std::io::Read;

// The byte that a byte of the list stands for. `|` and LF stand for each other, so a line of the list ends in `|` once its bytes are replaced.
fn meant(byte: u8) -> u8 {
    match byte {
        b'|' => b'\n',
        b'\n' => b'|',
        b'^' => b'\r',
        b'~' => b'\t',
        b'@' => 0,
        b'[' => 0xef,
        b'*' => 0xbb,
        b']' => 0xbf,
        _ => byte,
    }
}

// Replaces each byte by the one that it stands for.
fn put_meant(text: &mut [u8]) {
    for byte in text {
        *byte = meant(*byte);
    }
}

// A line of the list: the input, `>`, and what should be written. One without `>` is a difference.
fn pair(tally: &mut Tally, line: &[u8]) {
    let Some(end) = line.iter().position(|byte| *byte == b'>') else {
        tally.count(false);
        return;
    };
    tally.case(&line[..end], &line[end + 1..]);
}

// All lines of the list. One that begins with `#` is passed over, and a last line that does not end is a difference.
fn lines(tally: &mut Tally, text: &[u8]) {
    for line in text.split_inclusive(|byte| *byte == b'|') {
        match line {
            [b'#', .., b'|'] => {}
            [line @ .., b'|'] => pair(tally, line),
            _ => tally.count(false),
        }
    }
}

// The whole list. One that fills the text may be longer than it, and is a difference.
pub(crate) fn inputs(input: &mut impl Read, tally: &mut Tally) -> io::Result<()> {
    let mut text = Text::new();
    io::copy(&mut input.by_ref().take(ROOM as u64), &mut text)?;
    if text.is_full() {
        tally.count(false);
        return Ok(());
    }
    put_meant(text.as_mut_slice());
    lines(tally, text.as_slice());
    Ok(())
}
