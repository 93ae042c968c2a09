// The value of a polynomial at a code.
ghost use Rattle.std.specs.Prelude.{◌≡◌};
ghost use Rattle.rules.specs.Calls.{evaluate};
ghost use Rattle.lent.specs.Refusals.{answered};
ghost use Rattle.modint.specs.Answers.{wrap};

use lent::refusal::Refusal;
use modint::word::Word;
use modint::{Code, Residue};

pub fn eval<W: Word>(coeffs: &[W], x: W) -> Result<Residue<W>, Refusal>
    ensures { result ≡ answered (wrap W.width) (evaluate W.width.kind (W.width.nums coeffs.now) (W.width.num x)) }
{
    polynomial::evaluator::eval(coeffs, Code(x))
}
