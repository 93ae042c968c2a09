// The signed count of a sketch in words, its negation, and the got codes that are surplus.
ghost use Rattle.std.specs.Prelude.{◌≡◌, length};
ghost use Rattle.rules.specs.Calls.{written};
ghost use Rattle.rules.specs.Words.{signed_count_in, negate_in, decode_surplus_in};
ghost use Rattle.lent.specs.Refusals.{listed, changed};

use crate::layout::Layout;
use crate::{decoder, power_sum, words};
use lent::refusal::Refusal;
use modint::PLACES;

// As many words as a sketch of the greatest threshold has at any width, of which at most five stand before the sums. One size for all widths, since an array's
// size is no constant that is computed of a type parameter.
const MOST: usize = 5 + PLACES;

pub fn signed_count<W: Layout>(s: &[W]) -> i32
    ensures { result ≡ signed_count_in W.width.kind (W.width.nums s.now) }
{
    if s.len() < W::HEAD {
        return 0;
    }
    lent::signed(W::count_in(s))
}

// A fresh sketch less this one.
pub fn negate<W: Layout>(s: &[W], out: &mut [W]) -> Result<(), Refusal>
    ensures answer { result ≡ changed (negate_in W.width.kind (W.width.nums s.now) (length out.old)) }
    ensures words { W.width.nums out.new ≡ written (negate_in W.width.kind (W.width.nums s.now) (length out.old)) (W.width.nums out.old) }
{
    let head = words::head_of(s)?;
    let mut nothing = [W::zero(); MOST];
    power_sum::new(head.threshold, &mut nothing)?;
    power_sum::sub(&nothing, s, out)
}

pub fn decode_surplus_with_log<W: Layout>(
    s: &[W],
    got: &[W],
    out: &mut [W],
) -> Result<usize, Refusal>
    ensures answer { result ≡ listed (decode_surplus_in W.width.kind (W.width.nums s.now) (W.width.nums got.now) (length out.old)) }
    ensures buffer { W.width.nums out.new
        ≡ written (decode_surplus_in W.width.kind (W.width.nums s.now) (W.width.nums got.now) (length out.old)) (W.width.nums out.old) }
{
    let head = words::head_of(s)?;
    let surplus = lent::below_zero(lent::signed(head.count)) as usize;
    if head.threshold < surplus {
        return Err(Refusal::TooMany);
    }
    if out.len() < got.len() {
        return Err(Refusal::NoRoom);
    }
    if surplus == 0 {
        return Ok(0);
    }
    let mut negated = [W::zero(); MOST];
    negate(s, &mut negated)?;
    decoder::decode_with_log(&negated, got, out)
}
