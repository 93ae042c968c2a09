// The field of codes modulo the prime. Every code is reduced first, and every answer is a residue.
ghost use Rattle.std.specs.Prelude.{◌≡◌};
ghost use Rattle.rules.specs.Kind.{kind16};
ghost use Rattle.rules.specs.Field.{residue, plus, minus, negative, times, multiplications, inverse};
ghost use Rattle.exports16_c.specs.Answers.{powered};

use exports::field;

// A power as C has it, and the number of field multiplications that were made for it.
#[repr(C)]
#[derive(Clone, Copy)]
pub struct Powered {
    pub value: u16,
    pub multiplications: u32,
}

#[unsafe(no_mangle)]
pub extern "C" fn eddy16_field_reduce(c: u16) -> u32
    ensures { result ≡ residue kind16 c }
{
    u32::from(field::reduce(c))
}

#[unsafe(no_mangle)]
pub extern "C" fn eddy16_field_add(a: u16, b: u16) -> u32
    ensures { result ≡ plus kind16 (residue kind16 a) (residue kind16 b) }
{
    u32::from(field::add(a, b))
}

#[unsafe(no_mangle)]
pub extern "C" fn eddy16_field_sub(a: u16, b: u16) -> u32
    ensures { result ≡ minus kind16 (residue kind16 a) (residue kind16 b) }
{
    u32::from(field::sub(a, b))
}

#[unsafe(no_mangle)]
pub extern "C" fn eddy16_field_neg(a: u16) -> u32
    ensures { result ≡ negative kind16 (residue kind16 a) }
{
    u32::from(field::neg(a))
}

#[unsafe(no_mangle)]
pub extern "C" fn eddy16_field_mul(a: u16, b: u16) -> u32
    ensures { result ≡ times kind16 (residue kind16 a) (residue kind16 b) }
{
    u32::from(field::mul(a, b))
}

#[unsafe(no_mangle)]
pub extern "C" fn eddy16_field_inv(a: u16) -> u32
    ensures { result ≡ inverse kind16 (residue kind16 a) }
{
    u32::from(field::inv(a))
}

#[unsafe(no_mangle)]
pub extern "C" fn eddy16_field_pow(a: u16, e: u16) -> Powered
    ensures { result ≡ powered (residue kind16 a) e }
{
    let power = field::pow(a, e);
    Powered {
        value: power.value.value(),
        multiplications: power.multiplications,
    }
}

#[unsafe(no_mangle)]
pub extern "C" fn eddy16_field_pow_multiplications(e: u16) -> u32
    ensures { result ≡ multiplications e }
{
    field::pow_multiplications(e)
}
