// The field of codes modulo the prime. Every code is reduced first, and every answer is a residue.
ghost use Rattle.std.specs.Prelude.{◌≡◌};
ghost use Rattle.rules.specs.Field.{residue, plus, minus, negative, times, multiplications, inverse};
ghost use Rattle.modint.specs.Answers.{powered};

use modint::word::Word;
use modint::{Code, Powered, Residue};

pub fn reduce<W: Word>(c: W) -> W
    ensures { W.width.num result ≡ residue W.width.kind (W.width.num c) }
{
    Residue::reduce(Code(c)).value()
}

pub fn add<W: Word>(a: W, b: W) -> W
    ensures { W.width.num result ≡ plus W.width.kind (residue W.width.kind (W.width.num a)) (residue W.width.kind (W.width.num b)) }
{
    (Code(a) + Code(b)).value()
}

pub fn sub<W: Word>(a: W, b: W) -> W
    ensures { W.width.num result ≡ minus W.width.kind (residue W.width.kind (W.width.num a)) (residue W.width.kind (W.width.num b)) }
{
    (Code(a) - Code(b)).value()
}

pub fn neg<W: Word>(a: W) -> W
    ensures { W.width.num result ≡ negative W.width.kind (residue W.width.kind (W.width.num a)) }
{
    (-Code(a)).value()
}

pub fn mul<W: Word>(a: W, b: W) -> W
    ensures { W.width.num result ≡ times W.width.kind (residue W.width.kind (W.width.num a)) (residue W.width.kind (W.width.num b)) }
{
    (Code(a) * Code(b)).value()
}

pub fn inv<W: Word>(a: W) -> W
    ensures { W.width.num result ≡ inverse W.width.kind (residue W.width.kind (W.width.num a)) }
{
    Code(a).inv().value()
}

pub fn pow<W: Word>(a: W, e: W) -> Powered<W>
    ensures { result ≡ powered W.width (residue W.width.kind (W.width.num a)) (W.width.num e) }
{
    Code(a).pow(e)
}

pub fn pow_multiplications<W: Word>(e: W) -> u32
    ensures { result ≡ multiplications (W.width.num e) }
{
    Residue::pow_multiplications(e)
}
