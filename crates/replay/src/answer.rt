// The answers that a line of the list expects. They are held to an operation's where both stand: to gather an operation's would cost more than the operation.
use lent::refusal::{Refusal, refusal_or_none};

// The numbers that a line expects as its operation's answers.
#[derive(Clone, Copy)]
pub(crate) struct Expected<'a>(pub(crate) &'a [u32]);

impl<'a> Expected<'a> {
    // Whether they are these numbers.
    pub(crate) fn are(self, numbers: &[u32]) -> bool {
        self.0 == numbers
    }

    // Whether they are these numbers, and behind them words or bytes.
    fn are_followed<T: Copy + Into<u32>>(self, head: &[u32], rest: &[T]) -> bool {
        let Some(numbers) = self.0.strip_prefix(head) else {
            return false;
        };
        numbers.len() == rest.len()
            && numbers
                .iter()
                .zip(rest)
                .all(|(number, item)| *number == (*item).into())
    }

    // Whether they are the answers of a call that changes words: its refusal, and all the words.
    pub(crate) fn are_changed<T: Copy + Into<u32>>(
        self,
        done: Result<(), Refusal>,
        words: &[T],
    ) -> bool {
        self.are_followed(&[refusal_or_none(done)], words)
    }

    // Whether they are the answers of a call that writes into a buffer: its refusal or how many it wrote, and the whole buffer.
    pub(crate) fn are_written<T: Copy + Into<u32>>(
        self,
        listed: Result<usize, Refusal>,
        buffer: &[T],
    ) -> bool {
        match listed {
            Ok(many) => {
                u32::try_from(many).is_ok_and(|many| self.are_followed(&[0, many], buffer))
            }
            Err(refusal) => self.are_followed(&[refusal.number(), 0], buffer),
        }
    }
}
