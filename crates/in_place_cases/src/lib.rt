// Cases of the bench for the calls in place, at any width of code. Each function is a case of its own, with its numbers in sight.
#![tactic(auto)]

ghost use Rattle.std.specs.Prelude.{◌≡◌};

use lent::refusal::Refusal;
use modint::Code;
use modint::word::Word;
use power_sum::power_sum::PowerSumQuack;

// The numbers in which the cases of one width differ from another's: the greatest code, its residue, and both sums once 1 is in and 2 is out.
#[derive(Clone, Copy)]
pub struct Numbers {
    pub greatest: u64,
    pub residue: u64,
    pub apart: [u64; 2],
}

fn code<W: Word>(number: u64) -> Code<W> {
    Code(W::low(number))
}

// Whether a sketch has these sums in its first three places, this count and this last code.
fn holds<W: Word>(sketch: PowerSumQuack<W>, sums: [u64; 3], count: u32, last: Option<u64>) -> bool {
    let [first, second, third, ..] = sketch.sums;
    [
        first.value().number(),
        second.value().number(),
        third.value().number(),
    ] == sums
        && sketch.count == count
        && sketch.last.map(|x| x.value().number()) == last
}

// P5 at this width: the threshold 3, with 10 and 12 inserted.
#[tactic(auto, using(power_sum::proofs::Sizes::sketch_fits))]
fn two_insertions<W: Word>() -> Result<bool, Refusal> {
    let empty = PowerSumQuack::<W>::new(3)?;
    let two = empty.insert_once(code(10))?.insert_once(code(12))?;
    Ok(holds(two, [22, 244, 2728], 2, Some(12)))
}

// P11 at this width: the threshold 2, with the greatest code inserted, and then a code of the same residue removed.
#[tactic(auto, using(power_sum::proofs::Sizes::sketch_fits))]
fn back_and_forth<W: Word>(greatest: u64, same: u64) -> Result<bool, Refusal> {
    let empty = PowerSumQuack::<W>::new(2)?;
    let none = empty.insert_once(code(greatest))?.remove_once(code(same))?;
    Ok(holds(none, [0, 0, 0], 0, None))
}

// P10 at this width: the threshold 2, with 1 inserted and 2 removed.
#[tactic(auto, using(power_sum::proofs::Sizes::sketch_fits))]
fn another_code<W: Word>(apart: [u64; 2]) -> Result<bool, Refusal> {
    let empty = PowerSumQuack::<W>::new(2)?;
    let out = empty.insert_once(code(1))?.remove_once(code(2))?;
    Ok(holds(out, [apart[0], apart[1], 0], 0, Some(1)))
}

// A sketch whose second place is used though its threshold is 1 is refused by 12, and in place as not well formed, and stays as it was.
#[tactic(auto, using(power_sum::proofs::Sizes::sketch_fits))]
fn refused<W: Word>() -> Result<bool, Refusal> {
    let one = PowerSumQuack::<W>::new(2)?.insert_once(code(10))?;
    let mut lent = PowerSumQuack {
        threshold: 1,
        ..one
    };
    let once = lent
        .insert_once(code(7))
        .is_err_and(|refusal| refusal.number() == 12);
    let again = lent.insert_in_place(code(7));
    let unchanged = lent.threshold == 1 && holds(lent, [10, 100, 0], 1, Some(10));
    Ok(once && again == Err(Refusal::NotWellFormed) && unchanged)
}

// How many cases there are, and how many of them come out otherwise than they should.
pub fn run<W: Word>(numbers: Numbers) -> (usize, usize)
    ensures { result.0 ≡ 5 }
{
    let cases = [
        two_insertions::<W>(),
        back_and_forth::<W>(numbers.greatest, numbers.greatest),
        back_and_forth::<W>(numbers.greatest, numbers.residue),
        another_code::<W>(numbers.apart),
        refused::<W>(),
    ];
    let differences = cases.iter().filter(|case| **case != Ok(true)).count();
    (cases.len(), differences)
}
