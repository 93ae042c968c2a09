// Why a call is refused, and the answers of calls as C has them.
ghost use Rattle.std.specs.Prelude.{◌≡◌};
ghost use Rattle.lent.specs.Refusals.{number_of, refusal_or_none, number_answer};

use crate::Number;

// The table of refusals, each with its number.
#[derive(Clone, Copy, Debug, PartialEq, Eq)]
pub enum Refusal {
    ThresholdOutOfRange = 1,
    ThresholdsDiffer = 2,
    NoLastCode = 3,
    TooMany = 4,
    NoRoom = 5,
    PacketTooShort = 6,
    SumsOutOfRange = 7,
    NotBelowPrime = 8,
    BadLine = 9,
    TooManyLines = 10,
    NoCoefficient = 11,
    NotWellFormed = 12,
}

impl Refusal {
    // Its number in the table. A method and no `From`, since `u32::from` would not say which number it is.
    pub fn number(self) -> u32
        ensures { result ≡ number_of self }
    {
        self as u32
    }
}

// The number of a call's refusal, 0 for none, as C takes it.
pub fn refusal_or_none(answer: Result<(), Refusal>) -> u32
    ensures { result ≡ refusal_or_none answer }
{
    answer.map_or_else(|refusal| refusal.number(), |_| 0)
}

impl From<Result<usize, Refusal>> for Number {
    ghost from_gives = { λ answer n. n ≡ number_answer answer };

    fn from(answer: Result<usize, Refusal>) -> Number {
        match answer {
            Ok(value) => Number { refusal: 0, value },
            Err(refusal) => Number {
                refusal: refusal.number(),
                value: 0,
            },
        }
    }
}
