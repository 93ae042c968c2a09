// The value of a polynomial at a code with one reduction.
ghost use Rattle.std.specs.Prelude.{◌≡◌};
ghost use Rattle.rules.specs.Kind.{kind16};
ghost use Rattle.rules.specs.Calls.{evaluate_once};
ghost use Rattle.exports16_c.specs.Answers.{valued};

use crate::evaluator::Evaluated;
use exports::one_reduction;

#[unsafe(no_mangle)]
pub extern "C" fn eddy16_eval_precompute(coeffs: &[u16], x: u16) -> Evaluated
    ensures { result ≡ valued (evaluate_once kind16 coeffs.now x) }
{
    Evaluated::from(one_reduction::eval_precompute(coeffs, x))
}
