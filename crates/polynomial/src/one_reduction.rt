// The value of a polynomial at a code with one reduction: each coefficient times its power is formed and added up first, and the whole sum is reduced.
// It is of 16-bit codes alone: 32 of their products and a power fit 64 bits, and of wider codes not even two products do.
ghost use Rattle.std.specs.Prelude.{◌≡◌, ◌%◌, ◌≤◌, ◌<◌, length};
ghost use Rattle.lent.specs.Refusals.{answered};
ghost use Rattle.modint.specs.Width.{width16};
ghost use Rattle.modint.specs.Answers.{wrap};
ghost use Rattle.rules.specs.Kind.{kind16};
ghost use Rattle.rules.specs.Decode.{evaluate};
ghost use Rattle.rules.specs.Calls.{evaluate_once};

use lent::refusal::Refusal;
use modint::word::Word;
use modint::{Code, PLACES, Residue, slices};

// The value, unreduced: the products from the constant term on, two at a time, and the power behind the last. The powers are two chains, so that each waits
// for the one before the last.
fn unreduced(coeffs: &[u16], x: u16) -> u64
    requires { (length coeffs.now ≤ kind16.greatest) × (x < kind16.modulus) }
    ensures { result % kind16.modulus ≡ evaluate kind16 coeffs.now x }
{
    let square = x.times(x);
    let mut power = 1;
    let mut next = x;
    let mut sum: u64 = 0;
    let pairs = coeffs.rchunks_exact(2);
    let single = pairs.remainder();
    for pair in pairs {
        sum += u64::from(pair[1]) * u64::from(power);
        sum += u64::from(pair[0]) * u64::from(next);
        power = power.times(square);
        next = next.times(square);
    }
    if let Some(first) = single.first() {
        sum += u64::from(*first) * u64::from(power);
        power = next;
    }
    sum + u64::from(power)
}

// The value at a code of coefficients that are lent, which are refused where there is none, then where there are more than a sketch has sums, then where one
// is not below the prime.
pub fn eval_precompute(coeffs: &[u16], x: Code<u16>) -> Result<Residue<u16>, Refusal>
    ensures { result ≡ answered (wrap width16) (evaluate_once kind16 coeffs.now x.0) }
{
    if coeffs.is_empty() {
        return Err(Refusal::NoCoefficient);
    }
    if PLACES < coeffs.len() {
        return Err(Refusal::TooMany);
    }
    if !slices::all_below(coeffs) {
        return Err(Refusal::NotBelowPrime);
    }
    let sum = unreduced(coeffs, Residue::reduce(x).value());
    let reduced = sum % u64::from(u16::MODULUS);
    Ok(Residue::reduce(Code(reduced as u16)))
}
