// The signed count of a sketch in words, its negation, and the got codes that are surplus.
ghost use Rattle.std.specs.Prelude.{◌≡◌, length};
ghost use Rattle.rules.specs.Kind.{kind32};
ghost use Rattle.rules.specs.Calls.{refusal_of, written};
ghost use Rattle.rules.specs.Words.{signed_count_in, negate_in, decode_surplus_in};
ghost use Rattle.lent.specs.Answers.{numbered};

use exports::surplus;
use lent::Number;
use lent::refusal::refusal_or_none;

#[unsafe(no_mangle)]
pub extern "C" fn eddy32_signed_count(s: &[u32]) -> i32
    ensures { result ≡ signed_count_in kind32 s.now }
{
    surplus::signed_count(s)
}

#[tactic(auto, using(lent::proofs::Refusals::refusal_handed, rules::proofs::Outcomes::negate_in_numbered))]
#[unsafe(no_mangle)]
pub extern "C" fn eddy32_negate(s: &[u32], out: &mut [u32]) -> u32
    ensures refusal { result ≡ refusal_of (negate_in kind32 s.now (length out.old)) }
    ensures words { out.new ≡ written (negate_in kind32 s.now (length out.old)) out.old }
{
    refusal_or_none(surplus::negate(s, out))
}

#[tactic(auto, using(lent::proofs::Refusals::number_handed, rules::proofs::Outcomes::decode_surplus_in_numbered))]
#[unsafe(no_mangle)]
pub extern "C" fn eddy32_decode_surplus_with_log(s: &[u32], got: &[u32], out: &mut [u32]) -> Number
    ensures answer { result ≡ numbered (decode_surplus_in kind32 s.now got.now (length out.old)) }
    ensures buffer { out.new
        ≡ written (decode_surplus_in kind32 s.now got.now (length out.old)) out.old }
{
    Number::from(surplus::decode_surplus_with_log(s, got, out))
}
