// The coefficients of a sketch in words, and the entries of a log that it lists.
ghost use Rattle.std.specs.Prelude.{◌≡◌, length};
ghost use Rattle.rules.specs.Kind.{kind32};
ghost use Rattle.rules.specs.Calls.{written};
ghost use Rattle.rules.specs.Words.{coefficients_in, decode_in};
ghost use Rattle.lent.specs.Answers.{numbered};

use exports::decoder;
use lent::Number;

#[tactic(auto, using(lent::proofs::Refusals::number_handed, rules::proofs::Outcomes::coefficients_in_numbered))]
#[unsafe(no_mangle)]
pub extern "C" fn eddy32_to_coeffs(s: &[u32], coeffs: &mut [u32]) -> Number
    ensures answer { result ≡ numbered (coefficients_in kind32 s.now (length coeffs.old)) }
    ensures buffer { coeffs.new ≡ written (coefficients_in kind32 s.now (length coeffs.old)) coeffs.old }
{
    Number::from(decoder::to_coeffs(s, coeffs))
}

#[tactic(auto, using(lent::proofs::Refusals::number_handed, rules::proofs::Outcomes::decode_in_numbered))]
#[unsafe(no_mangle)]
pub extern "C" fn eddy32_decode_with_log(s: &[u32], log: &[u32], out: &mut [u32]) -> Number
    ensures answer { result ≡ numbered (decode_in kind32 s.now log.now (length out.old)) }
    ensures buffer { out.new ≡ written (decode_in kind32 s.now log.now (length out.old)) out.old }
{
    Number::from(decoder::decode_with_log(s, log, out))
}
