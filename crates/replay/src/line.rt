// A line of the list: a kind, the number of arguments, the arguments, the number of answers, the answers.

use crate::answer::Expected;
use crate::{operation, slots};

// The kinds of operations on 16-bit codes are those on 32-bit codes and this number.
const NARROW: u32 = 100;

// The slots of both widths.
#[derive(Clone, Copy, Default)]
pub(crate) struct Slots {
    wide: slots::Slots<u32>,
    narrow: slots::Slots<u16>,
}

impl Slots {
    // Whether an operation is answered as expected. Its kind is the number that the list has.
    fn run(&mut self, kind: u32, args: &[u32], expected: Expected<'_>) -> bool {
        match kind.checked_sub(NARROW) {
            None => operation::run(kind, args, expected, &mut self.wide),
            Some(kind) => operation::run(kind, args, expected, &mut self.narrow),
        }
    }

    // Whether these numbers are a line whose operation is answered as the line says.
    pub(crate) fn run_line(&mut self, numbers: &[u32]) -> bool {
        let [kind, given, rest @ ..] = numbers else {
            return false;
        };
        let Some((args, [answers, expected @ ..])) = rest.split_at_checked(*given as usize) else {
            return false;
        };
        *answers as usize == expected.len() && self.run(*kind, args, Expected(expected))
    }
}
