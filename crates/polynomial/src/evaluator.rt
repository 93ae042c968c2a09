// The value of a polynomial at a residue, and the entries of a log that are its roots. It is monic: its coefficients are given from the one below
// the leading 1 down to the constant term. The value is Horner's, from x + a1 on, so that n coefficients take n - 1 multiplications.
ghost use Rattle.std.specs.Prelude.{◌≡◌, ◌++◌, map, ℕ, ◌*◌, ◌≤◌, eqb, length, get_or, take, drop};
ghost use Rattle.lent.specs.Refusals.{answered};
ghost use Rattle.modint.specs.Answers.{val, wrap};
ghost use Rattle.rules.specs.Field.{plus};
ghost use Rattle.rules.specs.Sketch.{each};
ghost use Rattle.rules.specs.Decode.{evaluate};
ghost use Rattle.rules.specs.Sums.{roots};
ghost use Rattle.rules.specs.Calls as calls;
ghost use Rattle.rules.proofs.Listing.{Listed};

use lent::refusal::Refusal;
use modint::word::Word;
use modint::{Code, Residue, slices};

// How many entries are valued side by side, so that no product waits for the one before it.
const BLOCK: usize = 64;

// Without coefficients the polynomial is 1.
pub fn value<W: Word>(coeffs: &[W], x: Residue<W>) -> Residue<W>
    ensures { result ≡ wrap W.width (evaluate W.width.kind (W.width.nums coeffs.now) (val W.width x)) }
{
    let Some((first, rest)) = coeffs.split_first() else {
        return Residue::reduce(Code(W::one()));
    };
    let mut result = x + Residue::reduce(Code(*first));
    for coeff in rest {
        result = result.mul_add(x, Code(*coeff));
    }
    result
}

// The value at a code of coefficients that are lent, which are refused where there is none, and then where one is not below the prime.
pub fn eval<W: Word>(coeffs: &[W], x: Code<W>) -> Result<Residue<W>, Refusal>
    ensures { result ≡ answered (wrap W.width) (calls.evaluate W.width.kind (W.width.nums coeffs.now) (W.width.num x.0)) }
{
    if coeffs.is_empty() {
        return Err(Refusal::NoCoefficient);
    }
    if !slices::all_below(coeffs) {
        return Err(Refusal::NotBelowPrime);
    }
    Ok(value(coeffs, Residue::reduce(x)))
}

// Each entry and the first coefficient. By place, here and in a step: of what is written through a zip no proof learns. The two loops are one line each, and
// one loop for both would take that line as a closure, with its contract. The entries and their values stay two slices: one of both would lend for writing
// what `put_zeros` only reads.
fn put_firsts<W: Word>(values: &mut [W], log: &[W], a: W)
    requires { length values.old ≡ length log.now }
    ensures { W.width.nums values.new ≡ map (λ (c : ℕ). plus W.width.kind c (W.width.num a)) (W.width.nums log.now) }
{
    for (j, value) in values.iter_mut().enumerate() {
        *value = log[j].plus(a);
    }
}

// Each value times its entry, and the next coefficient.
fn step<W: Word>(values: &mut [W], log: &[W], a: W)
    requires { length values.old ≡ length log.now }
    ensures { W.width.nums values.new
        ≡ each (λ (j v : ℕ). plus W.width.kind (v * get_or (W.width.nums log.now) j 0) (W.width.num a)) 0 (W.width.nums values.old) }
{
    for (j, value) in values.iter_mut().enumerate() {
        *value = value.times_plus(log[j], a);
    }
}

// The value at each entry of a block.
fn put_values<W: Word>(coeffs: &[W], log: &[W], values: &mut [W])
    requires { (1 ≤ length coeffs.now) × (length values.old ≡ length log.now) }
    ensures { W.width.nums values.new ≡ map (evaluate W.width.kind (W.width.nums coeffs.now)) (W.width.nums log.now) }
{
    put_firsts(values, log, coeffs[0]);
    for coeff in &coeffs[1..] {
        step(values, log, *coeff);
    }
}

// The entries of a block whose value is 0, over the front of a buffer. Answers how many there are.
// By the place of an entry, at which a listing with gaps would write it, as an edit that must fail does.
fn put_zeros<W: Word>(log: &[W], values: &[W], out: &mut [W]) -> usize
    requires { (length values.now ≡ length log.now) × (length log.now ≤ length out.old) }
    ensures by_index { (f : ℕ → ℕ) → W.width.nums values.now ≡ map f (W.width.nums log.now)
        → Listed (λ (c : ℕ). eqb (f c) 0) (W.width.nums log.now) (W.width.nums out.old) (W.width.nums out.new) result }
    ensures few { result ≤ length log.now }
{
    let mut n: usize = 0;
    for (j, entry) in log.iter().enumerate() {
        if values[j] == W::zero() {
            out[n] = *entry;
            n += 1;
        }
    }
    n
}

// The entries of a block that are roots, over the front of a buffer. Answers how many there are.
fn put_block<W: Word>(coeffs: &[W], log: &[W], out: &mut [W]) -> usize
    requires { (1 ≤ length coeffs.now) × (length log.now ≤ 64) × (length log.now ≤ length out.old) }
    ensures listed { Listed (λ (c : ℕ). eqb (evaluate W.width.kind (W.width.nums coeffs.now) c) 0) (W.width.nums log.now)
        (W.width.nums out.old) (W.width.nums out.new) result }
    ensures few { result ≤ length log.now }
{
    let mut values = [W::zero(); BLOCK];
    let values = &mut values[..log.len()];
    put_values(coeffs, log, values);
    put_zeros(log, values, out)
}

// The entries of a log that are roots, as far as the buffer has places, over its front. Answers how many there are.
pub fn put_roots<W: Word>(coeffs: &[W], log: &[W], out: &mut [W]) -> usize
    ensures many { result ≡ length (roots W.width.kind (W.width.nums coeffs.now) (take (length out.old) (W.width.nums log.now))) }
    ensures buffer { W.width.nums out.new ≡ roots W.width.kind (W.width.nums coeffs.now) (take (length out.old) (W.width.nums log.now))
        ++ drop result (W.width.nums out.old) }
{
    if coeffs.is_empty() {
        return 0;
    }
    let entries = &log[..log.len().min(out.len())];
    let mut n = 0;
    for block in entries.chunks(BLOCK) {
        n += put_block(coeffs, block, &mut out[n..]);
    }
    n
}
