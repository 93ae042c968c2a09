// The value of a polynomial at a code of 16 bits with one reduction.
ghost use Rattle.std.specs.Prelude.{◌≡◌};
ghost use Rattle.rules.specs.Kind.{kind16};
ghost use Rattle.rules.specs.Calls.{evaluate_once};
ghost use Rattle.lent.specs.Refusals.{answered};
ghost use Rattle.modint.specs.Width.{width16};
ghost use Rattle.modint.specs.Answers.{wrap};

use lent::refusal::Refusal;
use modint::{Code, Residue};

pub fn eval_precompute(coeffs: &[u16], x: u16) -> Result<Residue<u16>, Refusal>
    ensures { result ≡ answered (wrap width16) (evaluate_once kind16 coeffs.now x) }
{
    polynomial::one_reduction::eval_precompute(coeffs, Code(x))
}
