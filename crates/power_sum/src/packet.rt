// A sketch written as bytes, and read from them.
ghost use Rattle.std.specs.Prelude.{◌≡◌, length};
ghost use Rattle.rules.specs.Calls.{written};
ghost use Rattle.lent.specs.Refusals.{listed};
ghost use Rattle.power_sum.specs.Answers.{write_of, write_with_hint_of, read_of};

use crate::power_sum;
use crate::power_sum::PowerSumQuack;
use lent::refusal::Refusal;
use modint::PLACES;
use modint::word::Word;
use sums::packet;

impl<W: Word> PowerSumQuack<W> {
    pub fn serialize_with_hint(self, buf: &mut [u8], hint: usize) -> Result<usize, Refusal>
        ensures answer { result ≡ listed (write_with_hint_of W.width self hint (length buf.old)) }
        ensures buffer { buf.new ≡ written (write_with_hint_of W.width self hint (length buf.old)) buf.old }
    {
        self.checked()?;
        let last = self.last.ok_or(Refusal::NoLastCode)?;
        let sums = self.numbers();
        let n = self.threshold.min(hint);
        packet::put_packet(buf, self.count, last, &sums[..n])
    }

    pub fn serialize(self, buf: &mut [u8]) -> Result<usize, Refusal>
        ensures answer { result ≡ listed (write_of W.width self (length buf.old)) }
        ensures buffer { buf.new ≡ written (write_of W.width self (length buf.old)) buf.old }
    {
        self.serialize_with_hint(buf, self.threshold)
    }

    pub fn deserialize(buf: &[u8]) -> Result<PowerSumQuack<W>, Refusal>
        ensures { result ≡ read_of W.width buf.now }
    {
        let mut sums = [W::zero(); PLACES];
        let head = packet::read(buf, &mut sums)?;
        Ok(power_sum::accepted(head.threshold, sums, head.count, Some(head.last)))
    }
}
