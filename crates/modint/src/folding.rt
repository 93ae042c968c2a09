// What the prime leaves of a number of 64 bits, without a division: two folds, and one subtraction where it is due.
ghost use Rattle.std.specs.Prelude.{◌≡◌, ◌<◌, ◌+◌};
ghost use Rattle.numbers.specs.Fold.{fold};
ghost use Rattle.rules.specs.Kind.{kind32, bits};
ghost use Rattle.rules.specs.Field.{residue};

// A number next to the prime, 32 below it.
const NEAR: u64 = 4294967259;

// 2^32 leaves 5 modulo the prime: a number's upper half counts five times, and what the prime leaves of it stays. The upper half is added once and
// four times more, since compilers make a multiplication of its fivefold and the lower half.
fn fold(n: u64) -> u64
    ensures { result ≡ fold (bits kind32) 5 n }
{
    let high = n >> 32;
    high + (n & 4294967295) + 4 * high
}

// What the prime leaves of a number less than 32 above it. Hardly any number that was folded twice reaches NEAR. Of one that does, the last five
// bits of what is past NEAR count from NEAR on, and from 0 on where the prime is reached: that is the number less the prime. Taken as bits, and not
// by a subtraction, they show compilers that every answer is below the prime.
fn reduced(n: u64) -> u64
    requires { n < kind32.modulus + 32 }
    ensures { result ≡ residue kind32 n }
{
    if n < NEAR {
        return n;
    }
    let past = n - NEAR;
    let rest = past & 31;
    if past < 32 { NEAR + rest } else { rest }
}

// Two folds bring any number of 64 bits less than 32 above the prime.
pub fn remainder(n: u64) -> u32
    ensures { result ≡ residue kind32 n }
{
    let once = fold(n);
    let twice = fold(once);
    reduced(twice) as u32
}
