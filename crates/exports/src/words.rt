// The words of a sketch, tested where they are lent.
ghost use Rattle.std.specs.Prelude.{◌≡◌};
ghost use Rattle.rules.specs.Sketch.{last_without};
ghost use Rattle.lent.specs.Refusals.{answered};
ghost use Rattle.exports.specs.Heads.{said_last, head_in, head_parts, fitting, last_of};

use crate::layout::Layout;
use lent::refusal::Refusal;
use modint::word::Word;
use modint::{PLACES, slices};

// The words before the sums, of words that fit.
#[derive(Clone, Copy)]
pub(crate) struct Head<W> {
    pub threshold: usize,
    pub count: u32,
    pub last: Option<W>,
}

// The last code that two words say, or none; and nothing where they say it in no way.
fn last_said<W: Word>(has: W, code: W) -> Option<Option<W>>
    ensures { result ≡ said_last W.width (W.width.num has) (W.width.num code) }
{
    if has == W::zero() {
        return if code == W::zero() { Some(None) } else { None };
    }
    if has != W::one() {
        return None;
    }
    if code.is_residue() {
        Some(Some(code))
    } else {
        None
    }
}

// What stands before the sums in words that begin with those of a well-formed sketch; the words are tested once.
fn find_head<W: Layout>(words: &[W]) -> Option<Head<W>>
    ensures { result ≡ head_in W.width words.now }
{
    if words.len() < W::HEAD {
        return None;
    }
    let threshold = words[0].number() as usize;
    if threshold < 1 || PLACES < threshold {
        return None;
    }
    let last = last_said(words[W::HEAD - 2], words[W::HEAD - 1])?;
    let count = W::count_in(words);
    let end = W::HEAD + threshold;
    if words.len() < end || !slices::all_below(&words[W::HEAD..end]) {
        return None;
    }
    Some(Head {
        threshold,
        count,
        last,
    })
}

// The same, with the refusal of words that do not fit.
pub(crate) fn head_of<W: Layout>(words: &[W]) -> Result<Head<W>, Refusal>
    ensures { result ≡ answered (head_parts W.width) (fitting W.width.kind (W.width.nums words.now)) }
{
    find_head(words).ok_or(Refusal::NotWellFormed)
}

// A last code, or none where it is the residue x: of words, where `power_sum` says it of residues, which only the field makes.
pub(crate) fn without<W: Word>(last: Option<W>, x: W) -> Option<W>
    ensures { last_of W.width result ≡ last_without (last_of W.width last) (W.width.num x) }
{
    match last {
        Some(code) if code == x => None,
        _ => last,
    }
}
