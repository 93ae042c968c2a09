// The field of codes modulo the greatest prime of a width: codes, residues, and their arithmetic.
#![tactic(auto)]

ghost use Rattle.std.specs.Prelude.{◌≡◌, ◌*◌};
ghost use Rattle.rules.specs.Field.{residue, plus, minus, negative, times, multiplications, inverse};
ghost use Rattle.modint.specs.Answers.{val, wrap, powered};

mod folding;
mod narrow;
pub mod precompute;
pub mod slices;
mod wide;
pub mod word;

use std::ops::{Add, Mul, Neg, Sub};
use word::Word;

// A code as it is printed on a piece: any word.
#[derive(Clone, Copy, Debug, PartialEq, Eq)]
pub struct Code<W>(pub W);

// A residue modulo the prime. Only a reduction turns a code into one.
#[derive(Clone, Copy, Debug, PartialEq, Eq)]
pub struct Residue<W>(W);

// A power, and the number of field multiplications that were made for it.
#[derive(Clone, Copy, Debug, PartialEq, Eq)]
pub struct Powered<W> {
    pub value: Residue<W>,
    pub multiplications: u32,
}

// The greatest threshold of a sketch: how many places it has for its sums.
pub const PLACES: usize = 32;

impl<W: Word> Add for Residue<W> {
    type Output = Residue<W>;

    ghost add_gives = { λ a b r. r ≡ wrap W.width (plus W.width.kind (val W.width a) (val W.width b)) };

    fn add(self, rhs: Residue<W>) -> Residue<W> {
        Residue(self.0.plus(rhs.0))
    }
}

impl<W: Word> Sub for Residue<W> {
    type Output = Residue<W>;

    ghost sub_gives = { λ a b r. r ≡ wrap W.width (minus W.width.kind (val W.width a) (val W.width b)) };

    fn sub(self, rhs: Residue<W>) -> Residue<W> {
        Residue(self.0.minus(rhs.0))
    }
}

impl<W: Word> Neg for Residue<W> {
    type Output = Residue<W>;

    ghost neg_gives = { λ a r. r ≡ wrap W.width (negative W.width.kind (val W.width a)) };

    fn neg(self) -> Residue<W> {
        Residue(W::zero().minus(self.0))
    }
}

impl<W: Word> Mul for Residue<W> {
    type Output = Residue<W>;

    ghost mul_gives = { λ a b r. r ≡ wrap W.width (times W.width.kind (val W.width a) (val W.width b)) };

    fn mul(self, rhs: Residue<W>) -> Residue<W> {
        Residue(self.0.times(rhs.0))
    }
}

impl<W: Word> Residue<W> {
    pub const MODULUS: W = W::MODULUS;

    // What the prime leaves of a code. Not by `From`, whose name would not say that a code is reduced.
    pub fn reduce(code: Code<W>) -> Residue<W>
        ensures { result ≡ wrap W.width (residue W.width.kind (W.width.num code.0)) }
    {
        Residue(code.0.below())
    }

    pub fn zero() -> Residue<W>
        ensures { result ≡ wrap W.width 0 }
    {
        Residue(W::zero())
    }

    // The word of a residue. A method, since no `From` can be written for a type parameter.
    pub fn value(self) -> W
        ensures { result ≡ self.0 }
    {
        self.0
    }

    // A step of Horner's rule.
    pub fn mul_add(self, rhs: Residue<W>, term: Code<W>) -> Residue<W>
        ensures { result ≡ wrap W.width (plus W.width.kind (val W.width self * val W.width rhs) (W.width.num term.0)) }
    {
        Residue(self.0.times_plus(rhs.0, term.0))
    }

    // The exponent is halved until it is 0 or 1; on the way back the power is squared, and multiplied once more where the exponent is odd.
    fn raised(self, exponent: u64) -> Powered<W>
        ensures { result ≡ powered W.width (val W.width self) exponent }
    {
        if exponent == 0 {
            return Powered {
                value: Residue(W::one()),
                multiplications: 0,
            };
        }
        if exponent == 1 {
            return Powered {
                value: Residue(self.0.below()),
                multiplications: 0,
            };
        }
        let half = self.raised(exponent / 2);
        let square = half.value * half.value;
        if exponent % 2 == 0 {
            return Powered {
                value: square,
                multiplications: half.multiplications + 1,
            };
        }
        Powered {
            value: square * self,
            multiplications: half.multiplications + 2,
        }
    }

    pub fn pow(self, exponent: W) -> Powered<W>
        ensures { result ≡ powered W.width (val W.width self) (W.width.num exponent) }
    {
        self.raised(exponent.number())
    }

    // The number of multiplications of `pow` alone, from the exponent's digits.
    pub fn pow_multiplications(exponent: W) -> u32
        ensures { result ≡ multiplications (W.width.num exponent) }
    {
        let exponent = exponent.number();
        if exponent == 0 {
            return 0;
        }
        (63 - exponent.leading_zeros()) + (exponent.count_ones() - 1)
    }

    pub fn inv(self) -> Residue<W>
        ensures { result ≡ wrap W.width (inverse W.width.kind (val W.width self)) }
    {
        self.raised(W::MODULUS.number() - 2).value
    }
}

// The same operations on codes, which are reduced first.
impl<W: Word> Add for Code<W> {
    type Output = Residue<W>;

    ghost add_gives = { λ a b r. r ≡ wrap W.width (plus W.width.kind (residue W.width.kind (W.width.num a.0)) (residue W.width.kind (W.width.num b.0))) };

    fn add(self, rhs: Code<W>) -> Residue<W> {
        Residue::reduce(self) + Residue::reduce(rhs)
    }
}

impl<W: Word> Sub for Code<W> {
    type Output = Residue<W>;

    ghost sub_gives = { λ a b r. r ≡ wrap W.width (minus W.width.kind (residue W.width.kind (W.width.num a.0)) (residue W.width.kind (W.width.num b.0))) };

    fn sub(self, rhs: Code<W>) -> Residue<W> {
        Residue::reduce(self) - Residue::reduce(rhs)
    }
}

impl<W: Word> Neg for Code<W> {
    type Output = Residue<W>;

    ghost neg_gives = { λ a r. r ≡ wrap W.width (negative W.width.kind (residue W.width.kind (W.width.num a.0))) };

    fn neg(self) -> Residue<W> {
        -Residue::reduce(self)
    }
}

impl<W: Word> Mul for Code<W> {
    type Output = Residue<W>;

    ghost mul_gives = { λ a b r. r ≡ wrap W.width (times W.width.kind (residue W.width.kind (W.width.num a.0)) (residue W.width.kind (W.width.num b.0))) };

    fn mul(self, rhs: Code<W>) -> Residue<W> {
        Residue::reduce(self) * Residue::reduce(rhs)
    }
}

impl<W: Word> Code<W> {
    pub fn pow(self, exponent: W) -> Powered<W>
        ensures { result ≡ powered W.width (residue W.width.kind (W.width.num self.0)) (W.width.num exponent) }
    {
        Residue::reduce(self).pow(exponent)
    }

    pub fn inv(self) -> Residue<W>
        ensures { result ≡ wrap W.width (inverse W.width.kind (residue W.width.kind (W.width.num self.0))) }
    {
        Residue::reduce(self).inv()
    }
}
