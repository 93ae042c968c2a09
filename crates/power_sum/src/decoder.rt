// The coefficients of a sketch, and the entries of a log that it lists.
ghost use Rattle.std.specs.Prelude.{◌≡◌, length};
ghost use Rattle.rules.specs.Calls.{written};
ghost use Rattle.lent.specs.Refusals.{listed};
ghost use Rattle.power_sum.specs.Answers.{coefficients_of, decode_of};

use crate::power_sum::PowerSumQuack;
use lent::refusal::Refusal;
use modint::PLACES;
use modint::word::Word;
use polynomial::{coefficients, evaluator};

impl<W: Word> PowerSumQuack<W> {
    pub fn to_coeffs(self, coeffs: &mut [W]) -> Result<usize, Refusal>
        ensures answer { result ≡ listed (coefficients_of W.width self (length coeffs.old)) }
        ensures buffer { W.width.nums coeffs.new
            ≡ written (coefficients_of W.width self (length coeffs.old)) (W.width.nums coeffs.old) }
    {
        self.checked()?;
        let n = self.count as usize;
        if self.threshold < n {
            return Err(Refusal::TooMany);
        }
        if coeffs.len() < n {
            return Err(Refusal::NoRoom);
        }
        let sums = self.numbers();
        coefficients::put_coefficients(&sums[..self.threshold], &mut coeffs[..n]);
        Ok(n)
    }

    pub fn decode_with_log(self, log: &[W], out: &mut [W]) -> Result<usize, Refusal>
        ensures answer { result ≡ listed (decode_of W.width self (W.width.nums log.now) (length out.old)) }
        ensures buffer { W.width.nums out.new
            ≡ written (decode_of W.width self (W.width.nums log.now) (length out.old)) (W.width.nums out.old) }
    {
        let mut coeffs = [W::zero(); PLACES];
        let n = self.to_coeffs(&mut coeffs)?;
        if out.len() < log.len() {
            return Err(Refusal::NoRoom);
        }
        Ok(evaluator::put_roots(&coeffs[..n], log, out))
    }
}
