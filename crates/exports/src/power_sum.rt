// A sketch in words: made, tested, changed and subtracted. What insert and remove share, and both subtractions, are calls; the count, the last code and
// the refusals are each one's own.
ghost use Rattle.std.specs.Prelude.{◌≡◌, length};
ghost use Rattle.rules.specs.Calls.{written};
ghost use Rattle.rules.specs.Words.{words_fit, new_in, insert_in, remove_in, sub_assign_in, sub_in};
ghost use Rattle.lent.specs.Refusals.{changed};

use crate::layout::Layout;
use crate::{layout, words};
use lent::refusal::Refusal;
use modint::{Code, PLACES, Residue};
use sums::{places, powers};

pub fn new<W: Layout>(threshold: usize, out: &mut [W]) -> Result<(), Refusal>
    ensures answer { result ≡ changed (new_in W.width.kind threshold (length out.old)) }
    ensures words { W.width.nums out.new ≡ written (new_in W.width.kind threshold (length out.old)) (W.width.nums out.old) }
{
    // Two comparisons, as in `words`: each tells the proof one bound, which a range's `contains` tells only together.
    if threshold < 1 || PLACES < threshold {
        return Err(Refusal::ThresholdOutOfRange);
    }
    let end = W::HEAD + threshold;
    if out.len() < end {
        return Err(Refusal::NoRoom);
    }
    layout::put_head(out, threshold, 0, None);
    places::clear(&mut out[W::HEAD..end]);
    Ok(())
}

pub fn well_formed<W: Layout>(s: &[W]) -> bool
    ensures { result ≡ words_fit W.width.kind (W.width.nums s.now) }
{
    words::head_of(s).is_ok()
}

pub fn insert<W: Layout>(s: &mut [W], code: W) -> Result<(), Refusal>
    ensures answer { result ≡ changed (insert_in W.width.kind (W.width.nums s.old) (W.width.num code)) }
    ensures words { W.width.nums s.new ≡ written (insert_in W.width.kind (W.width.nums s.old) (W.width.num code)) (W.width.nums s.old) }
{
    let head = words::head_of(s)?;
    let x = Residue::reduce(Code(code));
    let end = W::HEAD + head.threshold;
    layout::put_head(
        s,
        head.threshold,
        head.count.wrapping_add(1),
        Some(x.value()),
    );
    powers::shift_by_powers(&mut s[W::HEAD..end], x, false);
    Ok(())
}

pub fn remove<W: Layout>(s: &mut [W], code: W) -> Result<(), Refusal>
    ensures answer { result ≡ changed (remove_in W.width.kind (W.width.nums s.old) (W.width.num code)) }
    ensures words { W.width.nums s.new ≡ written (remove_in W.width.kind (W.width.nums s.old) (W.width.num code)) (W.width.nums s.old) }
{
    let head = words::head_of(s)?;
    let x = Residue::reduce(Code(code));
    let residue = x.value();
    let end = W::HEAD + head.threshold;
    let last = words::without(head.last, residue);
    layout::put_head(s, head.threshold, head.count.wrapping_sub(1), last);
    powers::shift_by_powers(&mut s[W::HEAD..end], x, true);
    Ok(())
}

pub fn sub_assign<W: Layout>(s: &mut [W], rhs: &[W]) -> Result<(), Refusal>
    ensures answer { result ≡ changed (sub_assign_in W.width.kind (W.width.nums s.old) (W.width.nums rhs.now)) }
    ensures words { W.width.nums s.new
        ≡ written (sub_assign_in W.width.kind (W.width.nums s.old) (W.width.nums rhs.now)) (W.width.nums s.old) }
{
    let head = words::head_of(s)?;
    let other = words::head_of(rhs)?;
    if head.threshold != other.threshold {
        return Err(Refusal::ThresholdsDiffer);
    }
    let end = W::HEAD + head.threshold;
    let count = head.count.wrapping_sub(other.count);
    layout::put_head(s, head.threshold, count, None);
    places::subtract(&mut s[W::HEAD..end], &rhs[W::HEAD..end]);
    Ok(())
}

pub fn sub<W: Layout>(s: &[W], rhs: &[W], out: &mut [W]) -> Result<(), Refusal>
    ensures answer { result ≡ changed (sub_in W.width.kind (W.width.nums s.now) (W.width.nums rhs.now) (length out.old)) }
    ensures words { W.width.nums out.new
        ≡ written (sub_in W.width.kind (W.width.nums s.now) (W.width.nums rhs.now) (length out.old)) (W.width.nums out.old) }
{
    let head = words::head_of(s)?;
    let other = words::head_of(rhs)?;
    let threshold = head.threshold.min(other.threshold);
    let end = W::HEAD + threshold;
    if out.len() < end {
        return Err(Refusal::NoRoom);
    }
    let count = head.count.wrapping_sub(other.count);
    layout::put_head(out, threshold, count, None);
    places::put_differences(&mut out[W::HEAD..end], &s[W::HEAD..end], &rhs[W::HEAD..end]);
    Ok(())
}
