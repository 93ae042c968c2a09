// A sketch in words, written as bytes and read from them.
ghost use Rattle.std.specs.Prelude.{◌≡◌, length};
ghost use Rattle.rules.specs.Kind.{kind16};
ghost use Rattle.rules.specs.Calls.{refusal_of, written};
ghost use Rattle.rules.specs.Words.{write_in, write_with_hint_in, read_in};
ghost use Rattle.lent.specs.Answers.{numbered};

use exports::packet;
use lent::Number;
use lent::refusal::refusal_or_none;

#[tactic(auto, using(lent::proofs::Refusals::number_handed, rules::proofs::Outcomes::hint_in_numbered))]
#[unsafe(no_mangle)]
pub extern "C" fn eddy16_serialize_with_hint(s: &[u16], buf: &mut [u8], hint: usize) -> Number
    ensures answer { result ≡ numbered (write_with_hint_in kind16 s.now hint (length buf.old)) }
    ensures buffer { buf.new ≡ written (write_with_hint_in kind16 s.now hint (length buf.old)) buf.old }
{
    Number::from(packet::serialize_with_hint(s, buf, hint))
}

#[tactic(auto, using(lent::proofs::Refusals::number_handed, rules::proofs::Outcomes::write_in_numbered))]
#[unsafe(no_mangle)]
pub extern "C" fn eddy16_serialize(s: &[u16], buf: &mut [u8]) -> Number
    ensures answer { result ≡ numbered (write_in kind16 s.now (length buf.old)) }
    ensures buffer { buf.new ≡ written (write_in kind16 s.now (length buf.old)) buf.old }
{
    Number::from(packet::serialize(s, buf))
}

#[tactic(auto, using(lent::proofs::Refusals::refusal_handed, rules::proofs::Outcomes::read_in_numbered))]
#[unsafe(no_mangle)]
pub extern "C" fn eddy16_deserialize(buf: &[u8], out: &mut [u16]) -> u32
    ensures refusal { result ≡ refusal_of (read_in kind16 buf.now (length out.old)) }
    ensures words { out.new ≡ written (read_in kind16 buf.now (length out.old)) out.old }
{
    refusal_or_none(packet::deserialize(buf, out))
}
