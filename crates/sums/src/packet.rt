// A packet: a count, a last code and sums as bytes, the lowest byte of a number first. Its room and its bytes are tested here, for every caller.
ghost use Rattle.std.specs.Prelude.{◌≡◌, ◌++◌, ◌+◌, ◌*◌, ◌≤◌, length, take, drop};
ghost use Rattle.rules.specs.Sums.{all_below};
ghost use Rattle.rules.specs.Packet.{number, all_bytes, all_numbers, packet, packet_length, sums_at, sums_in};
ghost use Rattle.rules.specs.Calls.{fitting, written, read_for, sums_given};
ghost use Rattle.lent.specs.Refusals.{answered, listed};
ghost use Rattle.modint.specs.Answers.{val};
ghost use Rattle.sums.specs.Answers.{packet_head_of};

use lent::COUNT_BYTES;
use lent::refusal::Refusal;
use modint::word::Word;
use modint::{Code, PLACES, Residue};

// Where the sums begin.
fn sums_at<W: Word>() -> usize
    ensures { result ≡ sums_at W.width.kind }
{
    COUNT_BYTES + W::CODE_BYTES
}

// How many sums so many bytes hold, rounded down.
fn sums_in<W: Word>(size: usize) -> usize
    ensures { result ≡ sums_in W.width.kind size }
{
    size.saturating_sub(sums_at::<W>()) / W::CODE_BYTES
}

// Numbers one after the other over the front of a part; the further bytes stay. By the place, here and in `put_sums`: what a loop over `chunks_exact_mut`, or
// over `iter_mut` beside others, wrote is not known.
fn put_numbers<W: Word>(part: &mut [u8], numbers: &[W])
    requires { length numbers.now * W.width.kind.code_bytes ≤ length part.old }
    ensures { part.new ≡ all_bytes W.width.kind.code_bytes (W.width.nums numbers.now)
        ++ drop (length numbers.now * W.width.kind.code_bytes) part.old }
{
    for (k, number) in numbers.iter().enumerate() {
        let at = k * W::CODE_BYTES;
        let end = at + W::CODE_BYTES;
        lent::put_number(&mut part[at..end], number.number());
    }
}

// A packet over the front of a buffer that it fits into.
fn put_parts<W: Word>(buf: &mut [u8], count: u32, last: Residue<W>, sums: &[W])
    requires { packet_length W.width.kind (length sums.now) ≤ length buf.old }
    ensures { buf.new ≡ packet W.width.kind count (val W.width last) (W.width.nums sums.now)
        ++ drop (packet_length W.width.kind (length sums.now)) buf.old }
{
    let at = sums_at::<W>();
    lent::put_number(&mut buf[..COUNT_BYTES], u64::from(count));
    lent::put_number(&mut buf[COUNT_BYTES..at], last.value().number());
    put_numbers(&mut buf[at..], sums);
}

// A packet over the front of a buffer; there is no room where the buffer is shorter.
pub fn put_packet<W: Word>(
    buf: &mut [u8],
    count: u32,
    last: Residue<W>,
    sums: &[W],
) -> Result<usize, Refusal>
    ensures answer { result ≡ listed (fitting (packet W.width.kind count (val W.width last) (W.width.nums sums.now)) (length buf.old)) }
    ensures buffer { buf.new
        ≡ written (fitting (packet W.width.kind count (val W.width last) (W.width.nums sums.now)) (length buf.old)) buf.old }
{
    let at = sums_at::<W>();
    let room = buf.len();
    if room < at || sums_in::<W>(room) < sums.len() {
        return Err(Refusal::NoRoom);
    }
    put_parts(buf, count, last, sums);
    Ok(at + sums.len() * W::CODE_BYTES)
}

// The word in the bytes from a place on.
fn number_at<W: Word>(part: &[u8], at: usize) -> W
    requires { at + W.width.kind.code_bytes ≤ length part.now }
    ensures { W.width.num result ≡ number (take W.width.kind.code_bytes (drop at part.now)) }
{
    let end = at + W::CODE_BYTES;
    W::low(lent::number_of(&part[at..end]))
}

// Whether each of the first n numbers of a part is below the prime: a loop without a branch. By the place, since `number_at` reads them as it reads the last
// code; the part may go on behind them, so n stands beside it.
fn sums_below<W: Word>(part: &[u8], n: usize) -> bool
    requires { n * W.width.kind.code_bytes ≤ length part.now }
    ensures { result ≡ all_below W.width.kind (all_numbers W.width.kind.code_bytes n part.now) }
{
    let mut most = W::zero();
    for k in 0..n {
        most = most.greater_of(number_at(part, k * W::CODE_BYTES));
    }
    most.is_residue()
}

// The numbers of a part, as many as there are places for them.
fn put_sums<W: Word>(sums: &mut [W], part: &[u8])
    requires { length sums.old * W.width.kind.code_bytes ≤ length part.now }
    ensures { W.width.nums sums.new ≡ all_numbers W.width.kind.code_bytes (length sums.old) part.now }
{
    for (k, sum) in sums.iter_mut().enumerate() {
        *sum = number_at(part, k * W::CODE_BYTES);
    }
}

// What a packet says beside its sums.
#[derive(Clone, Copy)]
pub struct PacketHead<W> {
    pub threshold: usize,
    pub count: u32,
    pub last: Residue<W>,
}

// How many sums a packet has that is to be read into so many places, or why it is refused.
fn sums_to_read<W: Word>(buf: &[u8], places: usize) -> Result<usize, Refusal>
    ensures { result ≡ answered (λ s. s.threshold) (read_for W.width.kind buf.now places) }
{
    let at = sums_at::<W>();
    if buf.len() < at {
        return Err(Refusal::PacketTooShort);
    }
    let threshold = sums_in::<W>(buf.len());
    if !(1..=PLACES).contains(&threshold) {
        return Err(Refusal::SumsOutOfRange);
    }
    if !sums_below::<W>(&buf[at..], threshold) {
        return Err(Refusal::NotBelowPrime);
    }
    if places < threshold {
        return Err(Refusal::NoRoom);
    }
    Ok(threshold)
}

// A packet read, its sums over the front of lent places; there is no room where the places are fewer.
pub fn read<W: Word>(buf: &[u8], sums: &mut [W]) -> Result<PacketHead<W>, Refusal>
    ensures answer { result ≡ answered (packet_head_of W.width) (read_for W.width.kind buf.now (length sums.old)) }
    ensures sums { W.width.nums sums.new
        ≡ written (sums_given (read_for W.width.kind buf.now (length sums.old))) (W.width.nums sums.old) }
{
    let threshold = sums_to_read::<W>(buf, sums.len())?;
    put_sums(&mut sums[..threshold], &buf[sums_at::<W>()..]);
    Ok(PacketHead {
        threshold,
        count: lent::count_of(buf),
        last: Residue::reduce(Code(number_at(buf, COUNT_BYTES))),
    })
}
