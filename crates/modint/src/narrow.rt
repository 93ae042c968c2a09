// Codes of 16 bits.
ghost use Rattle.std.specs.Prelude.{refl};
ghost use Rattle.std.proofs.Common.{rules};
ghost use Rattle.modint.specs.Width.{width16};

use crate::word::Word;
use crate::{PLACES, Residue};

// Entry i is the inverse of i + 1.
const INVERSES: [Residue<u16>; PLACES] = [
    Residue(1),
    Residue(32761),
    Residue(43681),
    Residue(49141),
    Residue(52417),
    Residue(54601),
    Residue(56161),
    Residue(57331),
    Residue(58241),
    Residue(58969),
    Residue(11913),
    Residue(60061),
    Residue(60481),
    Residue(60841),
    Residue(61153),
    Residue(61426),
    Residue(42396),
    Residue(61881),
    Residue(6897),
    Residue(62245),
    Residue(62401),
    Residue(38717),
    Residue(11395),
    Residue(62791),
    Residue(49796),
    Residue(63001),
    Residue(41254),
    Residue(63181),
    Residue(58743),
    Residue(63337),
    Residue(25363),
    Residue(30713),
];

impl Word for u16 {
    ghost width = { width16 };

    const MODULUS: u16 = 65521;

    ghost MODULUS = { 65521 };

    const CODE_BYTES: usize = 2;

    ghost CODE_BYTES = { 2 };

    ghost same = { λ x y. refl };

    ghost modulus = { refl };

    ghost bytes = { refl };

    ghost small = { Prim.search rules };

    ghost small_residue = { Prim.search rules };

    ghost few = { Prim.search rules };

    fn zero() -> u16 {
        0
    }

    fn one() -> u16 {
        1
    }

    fn low(number: u64) -> u16 {
        (number % 65536) as u16
    }

    fn number(self) -> u64 {
        u64::from(self)
    }

    fn is_residue(self) -> bool {
        self < u16::MODULUS
    }

    fn greater_of(self, other: u16) -> u16 {
        self.max(other)
    }

    fn below(self) -> u16 {
        if self < u16::MODULUS {
            self
        } else {
            self - u16::MODULUS
        }
    }

    // No choice in these is a branch. A sum is made in twice the bits. In `minus` it is that with the negative, and `times` adds no term: one line of each is
    // its own.
    fn plus(self, other: u16) -> u16 {
        let x = self.below();
        let y = other.below();
        let modulus = u32::from(u16::MODULUS);
        let sum = u32::from(x) + u32::from(y);
        if sum < modulus {
            sum as u16
        } else {
            (sum - modulus) as u16
        }
    }

    fn minus(self, other: u16) -> u16 {
        let x = self.below();
        let y = other.below();
        let modulus = u32::from(u16::MODULUS);
        let sum = u32::from(x) + (modulus - u32::from(y));
        if sum < modulus {
            sum as u16
        } else {
            (sum - modulus) as u16
        }
    }

    fn times(self, other: u16) -> u16 {
        ((u32::from(self) * u32::from(other)) % u32::from(u16::MODULUS)) as u16
    }

    fn times_plus(self, other: u16, term: u16) -> u16 {
        ((u32::from(self) * u32::from(other) + u32::from(term)) % u32::from(u16::MODULUS)) as u16
    }

    fn inverses() -> [Residue<u16>; PLACES] {
        INVERSES
    }
}
