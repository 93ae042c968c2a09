// Where the words of a sketch stand before its sums: the threshold, the count, 1 or 0 for a last code or none, and the last code.
ghost use Rattle.std.specs.Prelude.{◌≡◌, ◌≤◌, ℕ, length, refl};
ghost use Rattle.std.proofs.Math.Seq.{sets};
ghost use Rattle.rules.specs.Sketch.{has_code, code_or0};
ghost use Rattle.rules.specs.Words.{head_words, count_in, count_parts};
ghost use Rattle.rules.proofs.Words.{headed};
ghost use Rattle.exports.specs.Heads.{last_of};

use modint::word::Word;

// A count takes one word, or two: all in which the widths differ here. Where fewer words are there, a word that is missing is read as 0 and not stored.
pub trait Layout: Word {
    // How many words stand before the sums.
    const HEAD: usize;

    ghost HEAD: { ℕ };

    fn count_in(words: &[Self]) -> u32
        ensures { result ≡ count_in Self.width.kind (Self.width.nums words.now) };

    fn put_count(words: &mut [Self], count: u32)
        ensures { Self.width.nums words.new ≡ sets (Self.width.nums words.old) 1 (count_parts Self.width.kind count) };

    ghost head: { HEAD ≡ head_words Self.width.kind };
}

impl Layout for u32 {
    const HEAD: usize = 4;

    ghost HEAD = { 4 };

    ghost head = { refl };

    fn count_in(words: &[u32]) -> u32 {
        words.get(1).copied().unwrap_or(0)
    }

    fn put_count(words: &mut [u32], count: u32) {
        if 1 < words.len() {
            words[1] = count;
        }
    }
}

// The lower half first.
impl Layout for u16 {
    const HEAD: usize = 5;

    ghost HEAD = { 5 };

    ghost head = { refl };

    fn count_in(words: &[u16]) -> u32 {
        let low = words.get(1).copied().unwrap_or(0);
        let high = words.get(2).copied().unwrap_or(0);
        u32::from(low) + 65536 * u32::from(high)
    }

    fn put_count(words: &mut [u16], count: u32) {
        if 1 < words.len() {
            words[1] = (count % 65536) as u16;
        }
        if 2 < words.len() {
            words[2] = (count / 65536) as u16;
        }
    }
}

// The words before the sums, stored. Its callers change one part or two of a `Head`, and would build one only to have it taken apart here.
pub(crate) fn put_head<W: Layout>(words: &mut [W], threshold: usize, count: u32, last: Option<W>)
    requires { (head_words W.width.kind ≤ length words.old) × (threshold ≤ W.width.kind.greatest) }
    ensures { W.width.nums words.new
        ≡ headed W.width.kind (W.width.nums words.old) threshold count (has_code (last_of W.width last)) (code_or0 (last_of W.width last)) }
{
    words[0] = W::low(threshold as u64);
    W::put_count(words, count);
    let (has, code) = match last {
        Some(code) => (W::one(), code),
        None => (W::zero(), W::zero()),
    };
    words[W::HEAD - 2] = has;
    words[W::HEAD - 1] = code;
}
