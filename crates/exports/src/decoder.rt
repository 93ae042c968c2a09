// The coefficients of a sketch in words, and the entries of a log that it lists.
ghost use Rattle.std.specs.Prelude.{◌≡◌, length};
ghost use Rattle.rules.specs.Calls.{written};
ghost use Rattle.rules.specs.Words.{coefficients_in, decode_in};
ghost use Rattle.lent.specs.Refusals.{listed};

use crate::layout::Layout;
use crate::words;
use lent::refusal::Refusal;
use modint::PLACES;
use polynomial::{coefficients, evaluator};

pub fn to_coeffs<W: Layout>(s: &[W], coeffs: &mut [W]) -> Result<usize, Refusal>
    ensures answer { result ≡ listed (coefficients_in W.width.kind (W.width.nums s.now) (length coeffs.old)) }
    ensures buffer { W.width.nums coeffs.new
        ≡ written (coefficients_in W.width.kind (W.width.nums s.now) (length coeffs.old)) (W.width.nums coeffs.old) }
{
    let head = words::head_of(s)?;
    let n = head.count as usize;
    if head.threshold < n {
        return Err(Refusal::TooMany);
    }
    if coeffs.len() < n {
        return Err(Refusal::NoRoom);
    }
    let end = W::HEAD + head.threshold;
    coefficients::put_coefficients(&s[W::HEAD..end], &mut coeffs[..n]);
    Ok(n)
}

pub fn decode_with_log<W: Layout>(s: &[W], log: &[W], out: &mut [W]) -> Result<usize, Refusal>
    ensures answer { result ≡ listed (decode_in W.width.kind (W.width.nums s.now) (W.width.nums log.now) (length out.old)) }
    ensures buffer { W.width.nums out.new
        ≡ written (decode_in W.width.kind (W.width.nums s.now) (W.width.nums log.now) (length out.old)) (W.width.nums out.old) }
{
    let mut coeffs = [W::zero(); PLACES];
    let n = to_coeffs(s, &mut coeffs)?;
    if out.len() < log.len() {
        return Err(Refusal::NoRoom);
    }
    Ok(evaluator::put_roots(&coeffs[..n], log, out))
}
