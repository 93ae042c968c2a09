// Insert and remove on a sketch that is lent: thin forms of the calls by value.
ghost use Rattle.std.specs.Prelude.{◌≡◌};
ghost use Rattle.power_sum.specs.Answers.{insert_of, remove_of, only_refusal, left_in};

use crate::power_sum::PowerSumQuack;
use lent::refusal::Refusal;
use modint::Code;
use modint::word::Word;

impl<W: Word> PowerSumQuack<W> {
    pub fn insert_in_place(&mut self, code: Code<W>) -> Result<(), Refusal>
        ensures { (result ≡ only_refusal (insert_of W.width self.old code)) × (self.new ≡ left_in self.old (insert_of W.width self.old code)) }
    {
        *self = self.insert(code)?;
        Ok(())
    }

    pub fn remove_in_place(&mut self, code: Code<W>) -> Result<(), Refusal>
        ensures { (result ≡ only_refusal (remove_of W.width self.old code)) × (self.new ≡ left_in self.old (remove_of W.width self.old code)) }
    {
        *self = self.remove(code)?;
        Ok(())
    }

    // The same on a sketch of one's own, which is lent and handed back.
    pub fn insert_once(self, code: Code<W>) -> Result<PowerSumQuack<W>, Refusal>
        ensures { result ≡ insert_of W.width self code }
    {
        let mut lent = self;
        lent.insert_in_place(code)?;
        Ok(lent)
    }

    pub fn remove_once(self, code: Code<W>) -> Result<PowerSumQuack<W>, Refusal>
        ensures { result ≡ remove_of W.width self code }
    {
        let mut lent = self;
        lent.remove_in_place(code)?;
        Ok(lent)
    }
}
