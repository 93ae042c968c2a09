// The list read byte by byte, its numbers digit by digit, since a piece that is read may end anywhere: the numbers of a line are kept until the line ends,
// and the line is run then.
use crate::line::Slots;
use arrayvec::ArrayVec;

// A line so far: its whole numbers, the number that is being read, and whether the line is none of the list, which is known before it ends.
// That is a flag, since an `Option` of the line would move the line at each byte.
#[derive(Default, Drop)]
struct Line {
    numbers: ArrayVec<u32, 512>,
    number: Option<u32>,
    unreadable: bool,
}

impl Line {
    // One digit more, where the number then still fits.
    fn digit(&mut self, digit: u8) -> Option<()> {
        let tens = self.number.unwrap_or(0).checked_mul(10)?;
        self.number = Some(tens.checked_add(u32::from(digit))?);
        Some(())
    }

    // The end of a number, where one has begun and the line has room for it.
    fn end_number(&mut self) -> Option<()> {
        let number = self.number.take()?;
        self.numbers.try_push(number).ok()
    }

    // A byte within the line, where such a byte may stand there.
    fn byte(&mut self, byte: u8) -> Option<()> {
        match byte {
            b' ' => self.end_number(),
            b'0'..=b'9' => self.digit(byte - b'0'),
            _ => None,
        }
    }

    // Whether any byte of it was read.
    fn has_begun(&self) -> bool {
        !self.numbers.is_empty() || self.number.is_some() || self.unreadable
    }

    // The next line, of which no byte was read, in its place.
    fn start_anew(&mut self) {
        self.numbers.clear();
        self.number = None;
        self.unreadable = false;
    }
}

// The slots, the line that is being read, and what was counted up to it.
#[derive(Default, Drop)]
pub(crate) struct Reading {
    slots: Slots,
    line: Line,
    pub(crate) operations: u64,
    pub(crate) differences: u64,
}

impl Reading {
    // Whether the line so far is whole, and its operation is answered as it says.
    fn line_agrees(&mut self) -> bool {
        let ended = self.line.end_number().is_some();
        ended && !self.line.unreadable && self.slots.run_line(self.line.numbers.as_slice())
    }

    fn end_line(&mut self) {
        self.operations = self.operations.wrapping_add(1);
        if !self.line_agrees() {
            self.differences = self.differences.wrapping_add(1);
        }
        self.line.start_anew();
    }

    pub(crate) fn feed(&mut self, bytes: &[u8]) {
        for byte in bytes {
            if *byte == b'\n' {
                self.end_line();
            } else if self.line.byte(*byte).is_none() {
                self.line.unreadable = true;
            }
        }
    }

    // The end of the input ends a line that has begun.
    pub(crate) fn finish(&mut self) {
        if self.line.has_begun() {
            self.end_line();
        }
    }
}
