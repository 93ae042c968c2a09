// The field of codes modulo the prime. Every code is reduced first, and every answer is a residue.
ghost use Rattle.std.specs.Prelude.{◌≡◌};
ghost use Rattle.rules.specs.Kind.{kind32};
ghost use Rattle.rules.specs.Field.{residue, plus, minus, negative, times, multiplications, inverse};
ghost use Rattle.exports32_c.specs.Answers.{powered};

use exports::field;

// A power as C has it, and the number of field multiplications that were made for it.
#[repr(C)]
#[derive(Clone, Copy)]
pub struct Powered {
    pub value: u32,
    pub multiplications: u32,
}

#[unsafe(no_mangle)]
pub extern "C" fn eddy32_field_reduce(c: u32) -> u32
    ensures { result ≡ residue kind32 c }
{
    field::reduce(c)
}

#[unsafe(no_mangle)]
pub extern "C" fn eddy32_field_add(a: u32, b: u32) -> u32
    ensures { result ≡ plus kind32 (residue kind32 a) (residue kind32 b) }
{
    field::add(a, b)
}

#[unsafe(no_mangle)]
pub extern "C" fn eddy32_field_sub(a: u32, b: u32) -> u32
    ensures { result ≡ minus kind32 (residue kind32 a) (residue kind32 b) }
{
    field::sub(a, b)
}

#[unsafe(no_mangle)]
pub extern "C" fn eddy32_field_neg(a: u32) -> u32
    ensures { result ≡ negative kind32 (residue kind32 a) }
{
    field::neg(a)
}

#[unsafe(no_mangle)]
pub extern "C" fn eddy32_field_mul(a: u32, b: u32) -> u32
    ensures { result ≡ times kind32 (residue kind32 a) (residue kind32 b) }
{
    field::mul(a, b)
}

#[unsafe(no_mangle)]
pub extern "C" fn eddy32_field_inv(a: u32) -> u32
    ensures { result ≡ inverse kind32 (residue kind32 a) }
{
    field::inv(a)
}

#[unsafe(no_mangle)]
pub extern "C" fn eddy32_field_pow(a: u32, e: u32) -> Powered
    ensures { result ≡ powered (residue kind32 a) e }
{
    let power = field::pow(a, e);
    Powered {
        value: power.value.value(),
        multiplications: power.multiplications,
    }
}

#[unsafe(no_mangle)]
pub extern "C" fn eddy32_field_pow_multiplications(e: u32) -> u32
    ensures { result ≡ multiplications e }
{
    field::pow_multiplications(e)
}
