// Each sum up or down by its power of a residue.
ghost use Rattle.std.specs.Prelude.{◌≡◌, ℕ, ◌<◌, ◌≤◌, ◌+◌, Bool, List, length};
ghost use Rattle.rules.specs.Sums.{signed, moved_by_powers, raised_at};
ghost use Rattle.rules.proofs.Changing.{Reaches};
ghost use Rattle.modint.specs.Answers.{val};
ghost use Rattle.sums.specs.Chains.{four_at, times_at};

use modint::Residue;
use modint::word::Word;

// Four numbers side by side, so that no product waits for the one before it.
#[derive(Clone, Copy)]
struct Four<W> {
    v0: W,
    v1: W,
    v2: W,
    v3: W,
}

// How many sums have moved, and the power by which the last of them did.
#[derive(Clone, Copy)]
struct Reached<W> {
    place: usize,
    power: W,
}

// A power, or its negative where sums move down.
fn signed<W: Word>(y: W, down: bool) -> W
    ensures { W.width.num result ≡ signed W.width.kind down (W.width.num y) }
{
    if down { W::zero().minus(y) } else { y }
}

// The sum at a place, up by y.
fn raise<W: Word>(sums: &mut [W], k: usize, y: W)
    requires { k < length sums.old }
    ensures { W.width.nums sums.new ≡ raised_at W.width.kind (W.width.nums sums.old) k (W.width.num y) }
{
    sums[k] = sums[k].plus(y);
}

// Four sums from a place on, each up by its number.
fn raise_four<W: Word>(sums: &mut [W], k: usize, y: Four<W>)
    requires { k + 4 ≤ length sums.old }
    ensures { W.width.nums sums.new ≡ four_at W.width (W.width.nums sums.old) k y }
{
    raise(sums, k, y.v0);
    raise(sums, k + 1, y.v1);
    raise(sums, k + 2, y.v2);
    raise(sums, k + 3, y.v3);
}

// Four products with the same number.
fn times_four<W: Word>(y: Four<W>, z: W) -> Four<W>
    ensures { result ≡ times_at W.width y (W.width.num z) }
{
    Four {
        v0: y.v0.times(z),
        v1: y.v1.times(z),
        v2: y.v2.times(z),
        v3: y.v3.times(z),
    }
}

// The first sum moves by x itself.
fn first_sum<W: Word>(sums: &mut [W], x: W, down: bool) -> Reached<W>
    requires { 0 < length sums.old }
    ensures { Reaches W.width.kind down (W.width.num x) (W.width.nums sums.old) (W.width.nums sums.new) result.place (W.width.num result.power) }
{
    let y = signed(x, down);
    raise(sums, 0, y);
    Reached { place: 1, power: y }
}

// Four sums at a time move, as long as there are four: each power is the one four places before times the fourth power. The place is counted by hand, since
// what a loop over `chunks_mut` wrote is not known after it.
fn by_fours<W: Word>(sums: &mut [W], x: W, down: bool) -> Reached<W>
    requires { 4 ≤ length sums.old }
    ensures { Reaches W.width.kind down (W.width.num x) (W.width.nums sums.old) (W.width.nums sums.new) result.place (W.width.num result.power) }
{
    let n = sums.len();
    let square = x.times(x);
    let cube = square.times(x);
    let fourth = square.times(square);
    let mut y = Four {
        v0: signed(x, down),
        v1: signed(square, down),
        v2: signed(cube, down),
        v3: signed(fourth, down),
    };
    raise_four(sums, 0, y);
    let mut k: usize = 4;
    while 3 < n - k {
        y = times_four(y, fourth);
        raise_four(sums, k, y);
        k += 4;
    }
    Reached {
        place: k,
        power: y.v3,
    }
}

// The further sums move one by one: each power is the one before times x. By the place, since what a loop over `iter_mut().skip(..)` wrote is not known.
fn one_by_one<W: Word>(sums: &mut [W], from: Reached<W>, x: W)
    ensures { (down : Bool) (before : List ℕ) → Reaches W.width.kind down (W.width.num x) before (W.width.nums sums.old) from.place (W.width.num from.power)
        → W.width.nums sums.new ≡ moved_by_powers W.width.kind down (W.width.num x) before }
{
    let mut power = from.power;
    for k in from.place..sums.len() {
        power = power.times(x);
        raise(sums, k, power);
    }
}

// Sum k, counted from 1, moves by the k-th power of x, with one product less than there are sums. `down` is no choice of a step, but the sign of the first
// powers, and a bool as in the rule `moved_by_powers`.
pub fn shift_by_powers<W: Word>(sums: &mut [W], x: Residue<W>, down: bool)
    ensures { W.width.nums sums.new ≡ moved_by_powers W.width.kind down (val W.width x) (W.width.nums sums.old) }
{
    let first = x.value();
    let n = sums.len();
    if n == 0 {
        return;
    }
    let from = if n < 4 {
        first_sum(sums, first, down)
    } else {
        by_fours(sums, first, down)
    };
    one_by_one(sums, from, first);
}
