// Codes of 32 bits.
ghost use Rattle.std.specs.Prelude.{refl};
ghost use Rattle.std.proofs.Common.{rules};
ghost use Rattle.modint.specs.Width.{width32};

use crate::word::Word;
use crate::{PLACES, Residue, folding};

// Entry i is the inverse of i + 1.
const INVERSES: [Residue<u32>; PLACES] = [
    Residue(1),
    Residue(2147483646),
    Residue(1431655764),
    Residue(1073741823),
    Residue(3435973833),
    Residue(715827882),
    Residue(613566756),
    Residue(2684354557),
    Residue(477218588),
    Residue(3865470562),
    Residue(390451572),
    Residue(357913941),
    Residue(991146298),
    Residue(306783378),
    Residue(1145324611),
    Residue(3489660924),
    Residue(3284386752),
    Residue(238609294),
    Residue(4068916381),
    Residue(1932735281),
    Residue(204522252),
    Residue(195225786),
    Residue(2427590208),
    Residue(2326440616),
    Residue(2405181683),
    Residue(495573149),
    Residue(3022384390),
    Residue(153391689),
    Residue(3110148728),
    Residue(2720145951),
    Residue(138547332),
    Residue(1744830462),
];

impl Word for u32 {
    ghost width = { width32 };

    const MODULUS: u32 = 4294967291;

    ghost MODULUS = { 4294967291 };

    const CODE_BYTES: usize = 4;

    ghost CODE_BYTES = { 4 };

    ghost same = { λ x y. refl };

    ghost modulus = { refl };

    ghost bytes = { refl };

    ghost small = { Prim.search rules };

    ghost small_residue = { Prim.search rules };

    ghost few = { Prim.search rules };

    fn zero() -> u32 {
        0
    }

    fn one() -> u32 {
        1
    }

    fn low(number: u64) -> u32 {
        (number % 4294967296) as u32
    }

    fn number(self) -> u64 {
        u64::from(self)
    }

    fn is_residue(self) -> bool {
        self < u32::MODULUS
    }

    fn greater_of(self, other: u32) -> u32 {
        self.max(other)
    }

    fn below(self) -> u32 {
        if self < u32::MODULUS {
            self
        } else {
            self - u32::MODULUS
        }
    }

    // No choice in a sum or a difference is a branch, and all are between numbers of 32 bits.
    fn plus(self, other: u32) -> u32 {
        let x = self.below();
        let y = other.below();
        let room = u32::MODULUS - y;
        if x < room { x + y } else { x - room }
    }

    fn minus(self, other: u32) -> u32 {
        let x = self.below();
        let y = other.below();
        if x < y { x + (u32::MODULUS - y) } else { x - y }
    }

    fn times(self, other: u32) -> u32 {
        folding::remainder(u64::from(self) * u64::from(other))
    }

    fn times_plus(self, other: u32, term: u32) -> u32 {
        ((u64::from(self) * u64::from(other) + u64::from(term)) % u64::from(u32::MODULUS)) as u32
    }

    fn inverses() -> [Residue<u32>; PLACES] {
        INVERSES
    }
}
