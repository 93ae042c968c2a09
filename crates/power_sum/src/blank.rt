// The struct of no sketch.
ghost use Rattle.std.specs.Prelude.{◌≡◌};
ghost use Rattle.rules.specs.Sketch.{no_sketch};
ghost use Rattle.power_sum.specs.Answers.{built};

use crate::power_sum;
use crate::power_sum::PowerSumQuack;
use modint::PLACES;
use modint::word::Word;

impl<W: Word> PowerSumQuack<W> {
    // The threshold 0, no sums and no last code: every call but those that show parts refuses it as not well formed.
    pub fn blank() -> PowerSumQuack<W>
        ensures { result ≡ built W.width no_sketch }
    {
        power_sum::accepted(0, [W::zero(); PLACES], 0, None)
    }
}
