// The sketch: its parts, and how it is made, tested and changed.
ghost use Rattle.std.specs.Prelude.{◌≡◌, ⊤, true, map};
ghost use Rattle.modint.specs.Answers.{val, wrap};
ghost use Rattle.rules.specs.Sketch.{last_fits, in_range, last_without, placed};
ghost use Rattle.rules.specs.Sums.{all_below, moved_by_powers};
ghost use Rattle.power_sum.specs.Answers.{view, last_of, last_to, well_formed_of, checked_of, new_of, insert_of, remove_of};

use lent::refusal::Refusal;
use modint::word::Word;
use modint::{Code, PLACES, Residue};
use std::alloc::AllocError;
use sums::{places, powers};

// The sums stand in the first `threshold` places; the further places hold 0. `last` is the last code that was inserted, or none.
// An array and a threshold, since there is no heap; the two may disagree, which `well_formed` tells.
#[derive(Copy)]
pub struct PowerSumQuack<W: Word> {
    pub threshold: usize,
    pub sums: [Residue<W>; PLACES],
    pub count: u32,
    pub last: Option<Residue<W>>,
}

// The sketch of 32-bit codes.
pub type PowerSumQuackU32 = PowerSumQuack<u32>;

// The sketch of 16-bit codes.
pub type PowerSumQuackU16 = PowerSumQuack<u16>;

// By hand: the derive clones the array, which asks for sizes that are not known of a type parameter.
impl<W: Word> Clone for PowerSumQuack<W> {
    ghost is_clone = { λ x y. y ≡ x };

    ghost is_infallible = { λ _. ⊤ };

    fn clone(&self) -> Result<PowerSumQuack<W>, AllocError> {
        Ok(*self)
    }
}

// Whether a sketch may have this threshold.
fn in_range<W: Word>(threshold: usize) -> bool
    ensures { result ≡ in_range W.width.kind threshold }
{
    (1..=PLACES).contains(&threshold)
}

// Whether a last code, where there is one, is below the prime.
fn last_fits<W: Word>(last: Option<Residue<W>>) -> bool
    ensures { result ≡ last_fits W.width.kind (last_of W.width last) }
{
    last.is_none_or(|x| x.value().is_residue())
}

// A last code, or none where it is the residue x.
fn last_without<W: Word>(last: Option<Residue<W>>, x: Residue<W>) -> Option<Residue<W>>
    ensures { result ≡ last_to W.width (last_without (last_of W.width last) (val W.width x)) }
{
    let y = last?;
    if y == x { None } else { last }
}

// The residues of numbers.
fn residues<W: Word>(numbers: [W; PLACES]) -> [Residue<W>; PLACES]
    requires { all_below W.width.kind (W.width.nums numbers) ≡ true }
    ensures { result ≡ map (wrap W.width) (W.width.nums numbers) }
{
    let mut residues = [Residue::zero(); PLACES];
    // By places: an array's `map` asks for sizes that are not known of a type parameter, and what a loop over `iter_mut` beside others wrote is not known.
    for (k, number) in numbers.iter().enumerate() {
        residues[k] = Residue::reduce(Code(*number));
    }
    residues
}

// A sketch whose places hold these numbers.
pub(crate) fn accepted<W: Word>(
    threshold: usize,
    sums: [W; PLACES],
    count: u32,
    last: Option<Residue<W>>,
) -> PowerSumQuack<W>
    requires { all_below W.width.kind (W.width.nums sums) ≡ true }
    ensures { result ≡ record { threshold = threshold; sums = map (wrap W.width) (W.width.nums sums); count = count; last = last } }
{
    let sums = residues(sums);
    PowerSumQuack {
        threshold,
        sums,
        count,
        last,
    }
}

impl<W: Word> PowerSumQuack<W> {
    // The numbers of its places.
    pub(crate) fn numbers(self) -> [W; PLACES]
        ensures { W.width.nums result ≡ map (val W.width) self.sums }
    {
        let mut numbers = [W::zero(); PLACES];
        // By places, as `residues` is made.
        for (k, residue) in self.sums.iter().enumerate() {
            numbers[k] = residue.value();
        }
        numbers
    }

    pub fn new(threshold: usize) -> Result<PowerSumQuack<W>, Refusal>
        ensures { result ≡ new_of W.width threshold }
    {
        if !in_range::<W>(threshold) {
            return Err(Refusal::ThresholdOutOfRange);
        }
        Ok(accepted(threshold, [W::zero(); PLACES], 0, None))
    }

    pub fn threshold(self) -> usize
        ensures { result ≡ self.threshold }
    {
        self.threshold
    }

    pub fn count(self) -> u32
        ensures { result ≡ self.count }
    {
        self.count
    }

    pub fn last_value(self) -> Option<Residue<W>>
        ensures { result ≡ last_to W.width (view W.width self).last }
    {
        self.last
    }

    pub fn well_formed(self) -> bool
        ensures { result ≡ well_formed_of W.width self }
    {
        in_range::<W>(self.threshold)
            && places::places_fit(&self.numbers(), self.threshold)
            && last_fits(self.last)
    }

    // Refuses a sketch that is not well formed, for the calls that take no other.
    pub(crate) fn checked(self) -> Result<(), Refusal>
        ensures { result ≡ checked_of W.width self }
    {
        if self.well_formed() {
            Ok(())
        } else {
            Err(Refusal::NotWellFormed)
        }
    }

    // The places of a well-formed sketch once each sum has moved by its power of a residue, up or down as `shift_by_powers` has it.
    fn shifted(self, x: Residue<W>, down: bool) -> [W; PLACES]
        requires { well_formed_of W.width self ≡ true }
        ensures { W.width.nums result
            ≡ placed W.width.kind (moved_by_powers W.width.kind down (val W.width x) (view W.width self).sums) }
    {
        let mut sums = self.numbers();
        powers::shift_by_powers(&mut sums[..self.threshold], x, down);
        sums
    }

    pub fn insert(self, code: Code<W>) -> Result<PowerSumQuack<W>, Refusal>
        ensures { result ≡ insert_of W.width self code }
    {
        self.checked()?;
        let x = Residue::reduce(code);
        let sums = self.shifted(x, false);
        Ok(accepted(self.threshold, sums, self.count.wrapping_add(1), Some(x)))
    }

    // The way of the sums, the count and the last code are others than in `insert`; what both share are the calls.
    pub fn remove(self, code: Code<W>) -> Result<PowerSumQuack<W>, Refusal>
        ensures { result ≡ remove_of W.width self code }
    {
        self.checked()?;
        let x = Residue::reduce(code);
        let sums = self.shifted(x, true);
        let last = last_without(self.last, x);
        Ok(accepted(self.threshold, sums, self.count.wrapping_sub(1), last))
    }
}
