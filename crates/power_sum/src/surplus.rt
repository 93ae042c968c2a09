// The count as a signed difference, the negated sketch, and the got codes that are surplus.
ghost use Rattle.std.specs.Prelude.{◌≡◌, length};
ghost use Rattle.rules.specs.Calls.{written};
ghost use Rattle.lent.specs.Refusals.{listed};
ghost use Rattle.power_sum.specs.Answers.{signed_count_of, negate_of, decode_surplus_of};

use crate::power_sum::PowerSumQuack;
use lent::refusal::Refusal;
use modint::word::Word;

impl<W: Word> PowerSumQuack<W> {
    pub fn signed_count(self) -> i32
        ensures { result ≡ signed_count_of W.width self }
    {
        lent::signed(self.count)
    }

    // A fresh sketch less this one.
    pub fn negate(self) -> Result<PowerSumQuack<W>, Refusal>
        ensures { result ≡ negate_of W.width self }
    {
        self.checked()?;
        PowerSumQuack::new(self.threshold)?.sub(self)
    }

    pub fn decode_surplus_with_log(self, got: &[W], out: &mut [W]) -> Result<usize, Refusal>
        ensures answer { result ≡ listed (decode_surplus_of W.width self (W.width.nums got.now) (length out.old)) }
        ensures buffer { W.width.nums out.new
            ≡ written (decode_surplus_of W.width self (W.width.nums got.now) (length out.old)) (W.width.nums out.old) }
    {
        self.checked()?;
        let surplus = lent::below_zero(self.signed_count()) as usize;
        if self.threshold < surplus {
            return Err(Refusal::TooMany);
        }
        if out.len() < got.len() {
            return Err(Refusal::NoRoom);
        }
        if surplus == 0 {
            return Ok(0);
        }
        self.negate()?.decode_with_log(got, out)
    }
}
