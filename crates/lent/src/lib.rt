// What every width of code does with slices that are lent: numbers as bytes, the lowest byte first, and the answer of a call that writes a
// list. And counts as signed numbers.
#![tactic(auto)]

ghost use Rattle.std.specs.Prelude.{◌≡◌, ◌<◌, ◌^◌, nat_abs, length, take};
ghost use Rattle.rules.specs.Kind.{count_bytes};
ghost use Rattle.rules.specs.Signed.{signed_count, below_zero};
ghost use Rattle.rules.specs.Packet.{bytes, number};

pub mod refusal;

// The bytes of a count, at every width.
pub const COUNT_BYTES: usize = 4;

// How many numbers or bytes were written, or the number of a refusal and 0: a `Result` as C takes it.
#[repr(C)]
#[derive(Clone, Copy, Debug, PartialEq, Eq)]
pub struct Number {
    pub refusal: u32,
    pub value: usize,
}

// A number over the whole of a part, in as many bytes as the part has. By hand, as `number_of` is: `to_le_bytes` and `from_le_bytes` are of one length alone.
pub fn put_number(part: &mut [u8], x: u64)
    ensures { part.new ≡ bytes (length part.old) x }
{
    let mut rest = x;
    for byte in part {
        *byte = (rest % 256) as u8;
        rest /= 256;
    }
}

// The number that a part says, of which the first eight bytes are read.
pub fn number_of(part: &[u8]) -> u64
    ensures value { result ≡ number (take 8 part.now) }
    ensures fits { result < 256 ^ length part.now }
{
    let mut sum = 0;
    let mut weight: u64 = 1;
    for byte in &part[..part.len().min(8)] {
        sum += weight * u64::from(*byte);
        weight = weight.wrapping_mul(256);
    }
    sum
}

// The count that a packet's first bytes say.
pub fn count_of(part: &[u8]) -> u32
    ensures { result ≡ number (take count_bytes part.now) }
{
    let end = part.len().min(COUNT_BYTES);
    number_of(&part[0..end]) as u32
}

// A count read as a signed difference: negative from 2^31 on.
#[tactic(auto, using(rules::proofs::Negation::signed_itself, rules::proofs::Negation::signed_negative))]
pub fn signed(count: u32) -> i32
    ensures { result ≡ signed_count count }
{
    count.cast_signed()
}

// The size of a signed number. That of the lowest is no signed number, so one is added once it is unsigned.
pub fn size(number: i32) -> u32
    ensures { result ≡ nat_abs number }
{
    number.unsigned_abs()
}

// How many a signed number is below zero, 0 for one that is not.
pub fn below_zero(number: i32) -> u32
    ensures { result ≡ below_zero number }
{
    if number < 0 { size(number) } else { 0 }
}
