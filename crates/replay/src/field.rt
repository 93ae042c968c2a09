// The operations on codes and on the value of a polynomial. Each has a function that takes its arguments apart and names its call, which is all in which it
// differs. A function that takes a call asks that it can be called always: no bound says that.
use crate::answer::Expected;
use crate::operation::Operand;
use crate::widths::{MOST, Narrow, low_word, narrowed};
use exports::{evaluator, field};
use lent::refusal::Refusal;
use modint::Residue;
use modint::word::Word;

// The value of coefficients, which stand behind the code, by a call.
pub(crate) fn evaluated<W, F>(args: &[u32], expected: Expected<'_>, call: F) -> bool
where
    W: Word + Narrow + Into<u32>,
    F: FnOnce(&[W], W) -> Result<Residue<W>, Refusal>,
    requires { F.IsAlwaysCallable call }
{
    let [x, coeffs @ ..] = args else {
        return false;
    };
    let mut places = [W::zero(); MOST];
    let Some(coeffs) = narrowed(coeffs, &mut places) else {
        return false;
    };
    match call(coeffs, low_word(*x)) {
        Ok(value) => expected.are(&[0, value.value().into()]),
        Err(refusal) => expected.are(&[refusal.number(), 0]),
    }
}

// A call on one code.
fn of_one<W, F>(args: &[u32], expected: Expected<'_>, call: F) -> bool
where
    W: Operand,
    F: FnOnce(W) -> u32,
    requires { F.IsAlwaysCallable call }
{
    let [a] = args else {
        return false;
    };
    expected.are(&[call(low_word(*a))])
}

// A call on two codes.
fn of_two<W, F>(args: &[u32], expected: Expected<'_>, call: F) -> bool
where
    W: Operand,
    F: FnOnce(W, W) -> W,
    requires { F.IsAlwaysCallable call }
{
    let [a, b] = args else {
        return false;
    };
    expected.are(&[call(low_word(*a), low_word(*b)).into()])
}

pub(crate) fn eval<W: Operand>(args: &[u32], expected: Expected<'_>) -> bool {
    evaluated::<W, _>(args, expected, evaluator::eval)
}

pub(crate) fn reduce<W: Operand>(args: &[u32], expected: Expected<'_>) -> bool {
    of_one(args, expected, |a: W| field::reduce(a).into())
}

pub(crate) fn neg<W: Operand>(args: &[u32], expected: Expected<'_>) -> bool {
    of_one(args, expected, |a: W| field::neg(a).into())
}

pub(crate) fn inv<W: Operand>(args: &[u32], expected: Expected<'_>) -> bool {
    of_one(args, expected, |a: W| field::inv(a).into())
}

pub(crate) fn pow_multiplications<W: Operand>(args: &[u32], expected: Expected<'_>) -> bool {
    of_one::<W, _>(args, expected, field::pow_multiplications)
}

pub(crate) fn add<W: Operand>(args: &[u32], expected: Expected<'_>) -> bool {
    of_two::<W, _>(args, expected, field::add)
}

pub(crate) fn sub<W: Operand>(args: &[u32], expected: Expected<'_>) -> bool {
    of_two::<W, _>(args, expected, field::sub)
}

pub(crate) fn mul<W: Operand>(args: &[u32], expected: Expected<'_>) -> bool {
    of_two::<W, _>(args, expected, field::mul)
}

// The power, and how many multiplications were made for it.
pub(crate) fn pow<W: Operand>(args: &[u32], expected: Expected<'_>) -> bool {
    let [a, e] = args else {
        return false;
    };
    let power = field::pow::<W>(low_word(*a), low_word(*e));
    expected.are(&[power.value.value().into(), power.multiplications])
}
