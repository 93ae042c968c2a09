// The inverses of the numbers from 1 on, ready made as far as the greatest threshold.
ghost use Rattle.std.specs.Prelude.{◌≡◌};
ghost use Rattle.rules.specs.Field.{inverse, inverse_at};
ghost use Rattle.modint.specs.Answers.{wrap};

use crate::word::Word;
use crate::{Code, Residue};

// The inverse of i + 1: from the table, and past its end by the power. A test and an index: the law of the table is of entries below its length.
pub fn inverse_at<W: Word>(i: usize) -> Residue<W>
    ensures { result ≡ wrap W.width (inverse_at W.width.kind i) }
{
    let table = W::inverses();
    if i < table.len() {
        return table[i];
    }
    let below = W::low(i as u64 % W::MODULUS.number());
    (Code(below) + Code(W::one())).inv()
}
