// The places of a sketch: tested, cleared and subtracted.
ghost use Rattle.std.specs.Prelude.{◌≡◌, ◌++◌, length, drop, replicate};
ghost use Rattle.numbers.specs.Table.{every};
ghost use Rattle.rules.specs.Sketch.{place_fits};
ghost use Rattle.rules.specs.Sums.{common, copied, differences};

use modint::slices;
use modint::word::Word;

// Whether the places below the threshold hold residues, and those from it on 0.
pub fn places_fit<W: Word>(places: &[W], threshold: usize) -> bool
    ensures { result ≡ every (place_fits W.width.kind threshold) 0 (W.width.nums places.now) }
{
    let used = threshold.min(places.len());
    slices::all_below(&places[..used]) && slices::greatest(&places[used..]) == W::zero()
}

// Every place 0. A loop, since `fill` asks that a clone cannot fail, of which `Word` says nothing.
pub fn clear<W: Word>(places: &mut [W])
    ensures { W.width.nums places.new ≡ replicate (length places.old) 0 }
{
    for place in places {
        *place = W::zero();
    }
}

// The differences of the sums that both have, over the front of lent places. By the place, since what a loop over `iter_mut().zip(..)` wrote is not known.
pub fn put_differences<W: Word>(places: &mut [W], sums: &[W], others: &[W])
    ensures { W.width.nums places.new
        ≡ copied (W.width.nums places.old) (differences W.width.kind (W.width.nums sums.now) (W.width.nums others.now)) }
{
    let n = places.len().min(sums.len()).min(others.len());
    for k in 0..n {
        places[k] = sums[k].minus(others[k]);
    }
}

// Each sum that both have, down by the other's; further ones stay. By the place, as above.
pub fn subtract<W: Word>(sums: &mut [W], others: &[W])
    ensures { W.width.nums sums.new
        ≡ differences W.width.kind (W.width.nums sums.old) (W.width.nums others.now)
        ++ drop (common (W.width.nums sums.old) (W.width.nums others.now)) (W.width.nums sums.old) }
{
    let both = sums.len().min(others.len());
    for (k, other) in others[..both].iter().enumerate() {
        sums[k] = sums[k].minus(*other);
    }
}
