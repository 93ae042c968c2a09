// Slices of words: the greatest, and whether all are below the prime.
ghost use Rattle.std.specs.Prelude.{◌≡◌};
ghost use Rattle.rules.specs.Sums.{greatest, all_below};

use crate::word::Word;

// The greatest word, 0 for none: a loop without a branch.
pub fn greatest<W: Word>(numbers: &[W]) -> W
    ensures { W.width.num result ≡ greatest (W.width.nums numbers.now) }
{
    let mut most = W::zero();
    for here in numbers {
        most = most.greater_of(*here);
    }
    most
}

// Whether every word is below the prime.
pub fn all_below<W: Word>(numbers: &[W]) -> bool
    ensures { result ≡ all_below W.width.kind (W.width.nums numbers.now) }
{
    greatest(numbers).is_residue()
}
