// Both subtractions of sketches. They are methods and no operators: both can refuse, and neither changes the sketch that it is called on.
ghost use Rattle.std.specs.Prelude.{◌≡◌, true, ◌&&◌};
ghost use Rattle.rules.specs.Sketch.{subtract};
ghost use Rattle.power_sum.specs.Answers.{view, built, well_formed_of, sub_assign_of, sub_of};

use crate::power_sum;
use crate::power_sum::PowerSumQuack;
use lent::refusal::Refusal;
use modint::PLACES;
use modint::word::Word;
use sums::places;

impl<W: Word> PowerSumQuack<W> {
    // The difference of two well-formed sketches: the smaller threshold is kept.
    fn subtracted(self, rhs: PowerSumQuack<W>) -> PowerSumQuack<W>
        requires { well_formed_of W.width self && well_formed_of W.width rhs ≡ true }
        ensures { result ≡ built W.width (subtract W.width.kind (view W.width self) (view W.width rhs)) }
    {
        let threshold = self.threshold.min(rhs.threshold);
        let mine = self.numbers();
        let others = rhs.numbers();
        let mut sums = [W::zero(); PLACES];
        places::put_differences(&mut sums[..threshold], &mine, &others);
        power_sum::accepted(threshold, sums, self.count.wrapping_sub(rhs.count), None)
    }

    pub fn sub_assign(self, rhs: PowerSumQuack<W>) -> Result<PowerSumQuack<W>, Refusal>
        ensures { result ≡ sub_assign_of W.width self rhs }
    {
        self.checked()?;
        rhs.checked()?;
        if self.threshold != rhs.threshold {
            return Err(Refusal::ThresholdsDiffer);
        }
        Ok(self.subtracted(rhs))
    }

    pub fn sub(self, rhs: PowerSumQuack<W>) -> Result<PowerSumQuack<W>, Refusal>
        ensures { result ≡ sub_of W.width self rhs }
    {
        self.checked()?;
        rhs.checked()?;
        Ok(self.subtracted(rhs))
    }
}
