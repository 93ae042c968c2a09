// The coefficients that sums lead to, by Newton's identities.
ghost use Rattle.std.specs.Prelude.{◌≡◌, ◌++◌, ℕ, ◌*◌, ◌-◌, ◌%◌, ◌≤◌, length, get_or, drop};
ghost use Rattle.numbers.proofs.Binomial.{sum_to};
ghost use Rattle.rules.specs.Decode.{coefficients};
ghost use Rattle.rules.specs.Sums.{common};

use modint::precompute;
use modint::word::Word;

// The sum s1 · ai + s2 · a(i-1) + .. + si · a1 modulo the prime, for the coefficients a1 .. ai. No product waits for the one before it.
// By the place: with a chain over the reversed coefficients a million calls take a tenth longer at 32 bits.
fn newton_sum<W: Word>(sums: &[W], coeffs: &[W]) -> W
    requires { length coeffs.now ≤ length sums.now }
    ensures { W.width.num result
        ≡ sum_to (λ (j : ℕ). get_or (W.width.nums sums.now) j 0 * get_or (W.width.nums coeffs.now) (length coeffs.now - j - 1) 0)
        (length coeffs.now) % W.width.kind.modulus }
{
    let i = coeffs.len();
    let mut total = W::zero();
    for (j, sum) in sums[..i].iter().enumerate() {
        total = total.plus(sum.times(coeffs[i - j - 1]));
    }
    total
}

// As many coefficients as there are sums and places for them, over the front of a buffer. What it holds is read only where one has been written.
// By an index: a coefficient is made from those before it and from the sum at its own place, and no chain says that more plainly.
pub fn put_coefficients<W: Word>(sums: &[W], coeffs: &mut [W])
    ensures { W.width.nums coeffs.new ≡ coefficients W.width.kind (W.width.nums sums.now) (common (W.width.nums sums.now) (W.width.nums coeffs.old))
        ++ drop (common (W.width.nums sums.now) (W.width.nums coeffs.old)) (W.width.nums coeffs.old) }
{
    let n = sums.len().min(coeffs.len());
    if n == 0 {
        return;
    }
    coeffs[0] = W::zero().minus(sums[0]);
    for i in 1..n {
        let lower = newton_sum(sums, &coeffs[..i]);
        let next = W::zero().minus(lower).minus(sums[i]);
        coeffs[i] = next.times(precompute::inverse_at::<W>(i).value());
    }
}
