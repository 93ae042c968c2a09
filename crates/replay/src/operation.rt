// An operation of the list: its kind, its arguments, and the answers that are expected.
use crate::answer::Expected;
use crate::slots::Slots;
use crate::widths::Narrow;
use crate::{field, sketch};
use exports::layout::Layout;
use exports::one_reduction;

// A word that the list has operations for.
pub(crate) trait Operand: Layout + Narrow + Into<u32> {
    // Whether the value with one reduction, which only 16-bit codes have, is answered as expected.
    fn eval_precompute(args: &[u32], expected: Expected<'_>) -> bool;
}

impl Operand for u32 {
    fn eval_precompute(_args: &[u32], _expected: Expected<'_>) -> bool {
        false
    }
}

impl Operand for u16 {
    fn eval_precompute(args: &[u32], expected: Expected<'_>) -> bool {
        field::evaluated(args, expected, one_reduction::eval_precompute)
    }
}

// What a line of the list asks for, under the names of the calls.
#[derive(Clone, Copy, Debug, PartialEq, Eq)]
enum Operation {
    New,
    Put,
    WellFormed,
    Insert,
    Remove,
    SubAssign,
    Sub,
    ToCoeffs,
    Eval,
    EvalPrecompute,
    DecodeWithLog,
    Serialize,
    SerializeWithHint,
    Deserialize,
    FieldReduce,
    FieldAdd,
    FieldSub,
    FieldMul,
    FieldNeg,
    FieldInv,
    FieldPow,
    FieldPowMultiplications,
    SignedCount,
    Negate,
    DecodeSurplusWithLog,
}

// A number that is the kind of no operation.
#[derive(Clone, Copy, Debug, PartialEq, Eq)]
struct UnknownKind(u32);

// The recorded list has a number for each kind, and `run` takes a line's numbers as they are read.
impl TryFrom<u32> for Operation {
    type Error = UnknownKind;

    fn try_from(kind: u32) -> Result<Operation, UnknownKind> {
        match kind {
            1 => Ok(Operation::New),
            2 => Ok(Operation::Put),
            3 => Ok(Operation::WellFormed),
            4 => Ok(Operation::Insert),
            5 => Ok(Operation::Remove),
            6 => Ok(Operation::SubAssign),
            7 => Ok(Operation::Sub),
            8 => Ok(Operation::ToCoeffs),
            9 => Ok(Operation::Eval),
            10 => Ok(Operation::DecodeWithLog),
            11 => Ok(Operation::Serialize),
            12 => Ok(Operation::SerializeWithHint),
            13 => Ok(Operation::Deserialize),
            14 => Ok(Operation::FieldReduce),
            15 => Ok(Operation::FieldAdd),
            16 => Ok(Operation::FieldSub),
            17 => Ok(Operation::FieldMul),
            18 => Ok(Operation::FieldNeg),
            19 => Ok(Operation::FieldInv),
            20 => Ok(Operation::FieldPow),
            21 => Ok(Operation::FieldPowMultiplications),
            22 => Ok(Operation::EvalPrecompute),
            23 => Ok(Operation::SignedCount),
            24 => Ok(Operation::Negate),
            25 => Ok(Operation::DecodeSurplusWithLog),
            _ => Err(UnknownKind(kind)),
        }
    }
}

impl Operation {
    // Whether the operation is answered as expected. It is not where its arguments are too few, too many or no words or bytes.
    fn run<W: Operand>(self, args: &[u32], expected: Expected<'_>, slots: &mut Slots<W>) -> bool {
        match self {
            Operation::New => sketch::new(args, expected, slots),
            Operation::Put => sketch::put(args, expected, slots),
            Operation::WellFormed => sketch::well_formed(args, expected, slots),
            Operation::Insert => sketch::insert(args, expected, slots),
            Operation::Remove => sketch::remove(args, expected, slots),
            Operation::SubAssign => sketch::sub_assign(args, expected, slots),
            Operation::Sub => sketch::sub(args, expected, slots),
            Operation::ToCoeffs => sketch::to_coeffs(args, expected, slots),
            Operation::Eval => field::eval::<W>(args, expected),
            Operation::EvalPrecompute => W::eval_precompute(args, expected),
            Operation::DecodeWithLog => sketch::decode_with_log(args, expected, slots),
            Operation::Serialize => sketch::serialize(args, expected, slots),
            Operation::SerializeWithHint => sketch::serialize_with_hint(args, expected, slots),
            Operation::Deserialize => sketch::deserialize(args, expected, slots),
            Operation::FieldReduce => field::reduce::<W>(args, expected),
            Operation::FieldAdd => field::add::<W>(args, expected),
            Operation::FieldSub => field::sub::<W>(args, expected),
            Operation::FieldMul => field::mul::<W>(args, expected),
            Operation::FieldNeg => field::neg::<W>(args, expected),
            Operation::FieldInv => field::inv::<W>(args, expected),
            Operation::FieldPow => field::pow::<W>(args, expected),
            Operation::FieldPowMultiplications => field::pow_multiplications::<W>(args, expected),
            Operation::SignedCount => sketch::signed_count(args, expected, slots),
            Operation::Negate => sketch::negate(args, expected, slots),
            Operation::DecodeSurplusWithLog => sketch::decode_surplus_with_log(
                args, expected, slots,
            ),
        }
    }
}

// Whether there is an operation of this kind, and it is answered as expected.
pub(crate) fn run<W: Operand>(
    kind: u32,
    args: &[u32],
    expected: Expected<'_>,
    slots: &mut Slots<W>,
) -> bool {
    Operation::try_from(kind).is_ok_and(|operation| operation.run(args, expected, slots))
}
