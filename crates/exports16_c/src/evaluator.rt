// The value of a polynomial at a code.
ghost use Rattle.std.specs.Prelude.{◌≡◌};
ghost use Rattle.rules.specs.Kind.{kind16};
ghost use Rattle.rules.specs.Calls.{evaluate};
ghost use Rattle.exports16_c.specs.Answers.{valued, evaluated};

use exports::evaluator;
use lent::refusal::Refusal;
use modint::Residue;

// A value as C has it, or the number of a refusal and 0.
#[repr(C)]
#[derive(Clone, Copy)]
pub struct Evaluated {
    pub refusal: u32,
    pub value: u16,
}

impl From<Result<Residue<u16>, Refusal>> for Evaluated {
    ghost from_gives = { λ answer e. e ≡ evaluated answer };

    fn from(answer: Result<Residue<u16>, Refusal>) -> Evaluated {
        match answer {
            Ok(value) => Evaluated {
                refusal: 0,
                value: value.value(),
            },
            Err(refusal) => Evaluated {
                refusal: refusal.number(),
                value: 0,
            },
        }
    }
}

#[unsafe(no_mangle)]
pub extern "C" fn eddy16_eval(coeffs: &[u16], x: u16) -> Evaluated
    ensures { result ≡ valued (evaluate kind16 coeffs.now x) }
{
    Evaluated::from(evaluator::eval(coeffs, x))
}
