// A sketch in words: made, tested, changed and subtracted.
ghost use Rattle.std.specs.Prelude.{◌≡◌, length};
ghost use Rattle.rules.specs.Kind.{kind16};
ghost use Rattle.rules.specs.Calls.{refusal_of, written};
ghost use Rattle.rules.specs.Words.{new_in, well_formed_in, insert_in, remove_in, sub_assign_in, sub_in};

use exports::power_sum;
use lent::refusal::refusal_or_none;

#[tactic(auto, using(lent::proofs::Refusals::refusal_handed, rules::proofs::Outcomes::new_in_numbered))]
#[unsafe(no_mangle)]
pub extern "C" fn eddy16_new(threshold: usize, out: &mut [u16]) -> u32
    ensures refusal { result ≡ refusal_of (new_in kind16 threshold (length out.old)) }
    ensures words { out.new ≡ written (new_in kind16 threshold (length out.old)) out.old }
{
    refusal_or_none(power_sum::new(threshold, out))
}

#[unsafe(no_mangle)]
pub extern "C" fn eddy16_well_formed(s: &[u16]) -> u32
    ensures { result ≡ well_formed_in kind16 s.now }
{
    u32::from(power_sum::well_formed(s))
}

#[tactic(auto, using(lent::proofs::Refusals::refusal_handed, rules::proofs::Outcomes::insert_in_numbered))]
#[unsafe(no_mangle)]
pub extern "C" fn eddy16_insert(s: &mut [u16], code: u16) -> u32
    ensures refusal { result ≡ refusal_of (insert_in kind16 s.old code) }
    ensures words { s.new ≡ written (insert_in kind16 s.old code) s.old }
{
    refusal_or_none(power_sum::insert(s, code))
}

#[tactic(auto, using(lent::proofs::Refusals::refusal_handed, rules::proofs::Outcomes::remove_in_numbered))]
#[unsafe(no_mangle)]
pub extern "C" fn eddy16_remove(s: &mut [u16], code: u16) -> u32
    ensures refusal { result ≡ refusal_of (remove_in kind16 s.old code) }
    ensures words { s.new ≡ written (remove_in kind16 s.old code) s.old }
{
    refusal_or_none(power_sum::remove(s, code))
}

#[tactic(auto, using(lent::proofs::Refusals::refusal_handed, rules::proofs::Outcomes::sub_assign_in_numbered))]
#[unsafe(no_mangle)]
pub extern "C" fn eddy16_sub_assign(s: &mut [u16], rhs: &[u16]) -> u32
    ensures refusal { result ≡ refusal_of (sub_assign_in kind16 s.old rhs.now) }
    ensures words { s.new ≡ written (sub_assign_in kind16 s.old rhs.now) s.old }
{
    refusal_or_none(power_sum::sub_assign(s, rhs))
}

#[tactic(auto, using(lent::proofs::Refusals::refusal_handed, rules::proofs::Outcomes::sub_in_numbered))]
#[unsafe(no_mangle)]
pub extern "C" fn eddy16_sub(s: &[u16], rhs: &[u16], out: &mut [u16]) -> u32
    ensures refusal { result ≡ refusal_of (sub_in kind16 s.now rhs.now (length out.old)) }
    ensures words { out.new ≡ written (sub_in kind16 s.now rhs.now (length out.old)) out.old }
{
    refusal_or_none(power_sum::sub(s, rhs, out))
}
