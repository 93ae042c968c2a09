// A word: the unsigned integer that a code of a width is, with the arithmetic of the width's field.
ghost use Rattle.std.specs.Prelude.{◌≡◌, ℕ, ◌<◌, ◌≤◌, ◌*◌, ◌%◌, ◌^◌, true, length, max, ltb, eqb};
ghost use Rattle.std.specs.Mem.{type_size};
ghost use Rattle.rules.specs.Field.{residue, plus, minus, times, inverses_right};
ghost use Rattle.modint.specs.contracts.Residue.{the_row};
ghost use Rattle.modint.specs.Width.{Width};
ghost use Rattle.modint.specs.Answers.{val};

use crate::{PLACES, Residue};

// The operations take words that are residues and words that are not; what they answer is a residue. Each width has bodies of its own, since a sum or a product
// needs room that is another type, or other steps, at another width. The shortest read alike at both: as bodies of the trait, each such line would need a law
// of a further bound, as `From`, `Ord` or `Sub`.
pub trait Word: Copy + PartialEq {
    ghost width: { Width Self };

    // The greatest prime below the number of words.
    const MODULUS: Self;

    ghost MODULUS: { Self };

    // The bytes of a code, which are those of a residue too.
    const CODE_BYTES: usize;

    ghost CODE_BYTES: { ℕ };

    fn zero() -> Self
        ensures { width.num result ≡ 0 };

    fn one() -> Self
        ensures { width.num result ≡ 1 };

    // The word of a number's low bits. The further bits are cut off, which no `TryFrom` does.
    fn low(number: u64) -> Self
        ensures { width.num result ≡ number % 256 ^ width.kind.code_bytes };

    fn number(self) -> u64
        ensures number { result ≡ width.num self }
        ensures fits { width.num self < 256 ^ width.kind.code_bytes };

    fn is_residue(self) -> bool
        ensures { result ≡ ltb (width.num self) width.kind.modulus };

    fn greater_of(self, other: Self) -> Self
        ensures { width.num result ≡ max (width.num self) (width.num other) };

    fn below(self) -> Self
        ensures { width.num result ≡ residue width.kind (width.num self) };

    fn plus(self, other: Self) -> Self
        ensures { width.num result ≡ plus width.kind (width.num self) (width.num other) };

    fn minus(self, other: Self) -> Self
        ensures { width.num result ≡ minus width.kind (width.num self) (width.num other) };

    fn times(self, other: Self) -> Self
        ensures { width.num result ≡ times width.kind (width.num self) (width.num other) };

    // The product and a further term, reduced once: a step of Horner's rule.
    fn times_plus(self, other: Self, term: Self) -> Self
        ensures { width.num result ≡ plus width.kind (width.num self * width.num other) (width.num term) };

    // Entry i is the inverse of i + 1.
    fn inverses() -> [Residue<Self>; PLACES]
        ensures right { inverses_right width.kind (val width) result ≡ true }
        ensures all { length result ≡ 32 };

    // Words are equal where their numbers are.
    ghost same: { (x y : Self) → Self.eq x y ≡ eqb (width.num x) (width.num y) };

    ghost modulus: { width.num MODULUS ≡ width.kind.modulus };

    ghost bytes: { CODE_BYTES ≡ width.kind.code_bytes };

    // A word has no more bytes than a number of 64 bits.
    ghost small: { type_size Self.row ≤ 8 };

    // Nor has a residue.
    ghost small_residue: { type_size (the_row Self.row) ≤ 8 };

    // Nor has a code.
    ghost few: { width.kind.code_bytes ≤ 8 };
}
