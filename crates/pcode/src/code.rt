// The operations' codes: an operation's code is the place of its name in the list of names.
ghost use Rattle.std.specs.Prelude.{◌≡◌, ℕ};
ghost use Rattle.pcode.specs.Names.{code_of, number_of, op_of, with_number};

use crate::op::{
    BoolOp, CallOp, CompareOp, DivideOp, FloatOp, OneOp, Op, OpaqueOp, RotateOp, ShiftOp, TrapOp,
    TwoOp,
};
use crate::var::PcodeLabel;

// The operations without a number, family by family, in the order of their names.
const ONE_OPS: [OneOp; 8] = [
    OneOp::Copy,
    OneOp::ZeroExtend,
    OneOp::SignExtend,
    OneOp::IntNot,
    OneOp::IntNegate,
    OneOp::IntCountOnes,
    OneOp::IntCountLeadingZeroes,
    OneOp::BoolNot,
];

const TWO_OPS: [TwoOp; 6] = [
    TwoOp::IntAdd,
    TwoOp::IntSub,
    TwoOp::IntXor,
    TwoOp::IntOr,
    TwoOp::IntAnd,
    TwoOp::IntMul,
];

const DIVIDE_OPS: [DivideOp; 4] = [
    DivideOp::IntDiv,
    DivideOp::IntSignedDiv,
    DivideOp::IntRem,
    DivideOp::IntSignedRem,
];

const SHIFT_OPS: [ShiftOp; 3] = [ShiftOp::IntLeft, ShiftOp::IntRight, ShiftOp::IntSignedRight];

const ROTATE_OPS: [RotateOp; 2] = [RotateOp::IntRotateLeft, RotateOp::IntRotateRight];

const COMPARE_OPS: [CompareOp; 9] = [
    CompareOp::IntEqual,
    CompareOp::IntNotEqual,
    CompareOp::IntLess,
    CompareOp::IntSignedLess,
    CompareOp::IntLessEqual,
    CompareOp::IntSignedLessEqual,
    CompareOp::IntCarry,
    CompareOp::IntSignedCarry,
    CompareOp::IntSignedBorrow,
];

const BOOL_OPS: [BoolOp; 3] = [BoolOp::BoolAnd, BoolOp::BoolOr, BoolOp::BoolXor];

const FLOAT_OPS: [FloatOp; 15] = [
    FloatOp::FloatAdd,
    FloatOp::FloatSub,
    FloatOp::FloatMul,
    FloatOp::FloatDiv,
    FloatOp::FloatNegate,
    FloatOp::FloatAbs,
    FloatOp::FloatSqrt,
    FloatOp::FloatCeil,
    FloatOp::FloatFloor,
    FloatOp::FloatRound,
    FloatOp::FloatIsNan,
    FloatOp::FloatEqual,
    FloatOp::FloatNotEqual,
    FloatOp::FloatLess,
    FloatOp::FloatLessEqual,
];

const OPAQUE_OPS: [OpaqueOp; 6] = [
    OpaqueOp::IntToFloat,
    OpaqueOp::UintToFloat,
    OpaqueOp::FloatToFloat,
    OpaqueOp::FloatToInt,
    OpaqueOp::MultiEqual,
    OpaqueOp::Indirect,
];

const TRAP_OPS: [TrapOp; 2] = [TrapOp::Invalid, TrapOp::Exception];

const CALL_OPS: [CallOp; 6] = [
    CallOp::Arg,
    CallOp::PcodeOp,
    CallOp::Hook,
    CallOp::HookIf,
    CallOp::TracerLoad,
    CallOp::TracerStore,
];

impl Op {
    // The place of its name in the list of names.
    pub fn code(self) -> usize
        ensures { result ≡ code_of self }
    {
        match self {
            Op::Trap(k) => 56 + k as usize,
            Op::InstructionMarker => 58,
            Op::PcodeLabel(_) => 65,
            Op::PcodeBranch(_) => 64,
            Op::Branch(_) => 63,
            Op::Load(_) => 61,
            Op::Store(_) => 62,
            Op::Call(k, _) => 66 + k as usize,
            Op::Select(_) => 60,
            Op::Subpiece(_) => 59,
            Op::Opaque(k) => 50 + k as usize,
            Op::Float(k) => 35 + k as usize,
            Op::One(k) => k as usize,
            Op::Two(k) => 8 + k as usize,
            Op::Divide(k) => 14 + k as usize,
            Op::Shift(k) => 18 + k as usize,
            Op::Rotate(k) => 21 + k as usize,
            Op::Compare(k) => 23 + k as usize,
            Op::Bool(k) => 32 + k as usize,
        }
    }

    // Its number in the text form, where it has one.
    pub fn number(self) -> Option<u16>
        ensures { result ≡ number_of self }
    {
        match self {
            Op::Trap(_) => None,
            Op::InstructionMarker => None,
            Op::PcodeLabel(l) => Some(l.0),
            Op::PcodeBranch(l) => Some(l.0),
            Op::Branch(n) => Some(n),
            Op::Load(n) => Some(n),
            Op::Store(n) => Some(n),
            Op::Call(_, n) => Some(n),
            Op::Select(n) => Some(n),
            Op::Subpiece(n) => Some(n),
            Op::Opaque(_) => None,
            Op::Float(_) => None,
            Op::One(_) => None,
            Op::Two(_) => None,
            Op::Divide(_) => None,
            Op::Shift(_) => None,
            Op::Rotate(_) => None,
            Op::Compare(_) => None,
            Op::Bool(_) => None,
        }
    }

    // The operation with that code and number; `Invalid` past the last code.
    #[tactic(auto, unfolding(crate::specs::Names::op_of))]
    pub fn named(code: usize, number: u16) -> Op
        ensures { result ≡ op_of code number }
    {
        if code < 8 {
            return Op::One(ONE_OPS[code]);
        }
        if code < 14 {
            return Op::Two(TWO_OPS[code - 8]);
        }
        if code < 18 {
            return Op::Divide(DIVIDE_OPS[code - 14]);
        }
        if code < 21 {
            return Op::Shift(SHIFT_OPS[code - 18]);
        }
        if code < 23 {
            return Op::Rotate(ROTATE_OPS[code - 21]);
        }
        if code < 32 {
            return Op::Compare(COMPARE_OPS[code - 23]);
        }
        if code < 35 {
            return Op::Bool(BOOL_OPS[code - 32]);
        }
        if code < 50 {
            return Op::Float(FLOAT_OPS[code - 35]);
        }
        if code < 56 {
            return Op::Opaque(OPAQUE_OPS[code - 50]);
        }
        if code < 58 {
            return Op::Trap(TRAP_OPS[code - 56]);
        }
        if code < 59 {
            return Op::InstructionMarker;
        }
        if code < 66 {
            return numbered(code - 59, number);
        }
        if code < 72 {
            return Op::Call(CALL_OPS[code - 66], number);
        }
        Op::Trap(TrapOp::Invalid)
    }
}

// The operations with a number that are no calls.
fn numbered(code: usize, n: u16) -> Op
    ensures { result ≡ with_number code n }
{
    match code {
        0 => Op::Subpiece(n),
        1 => Op::Select(n),
        2 => Op::Load(n),
        3 => Op::Store(n),
        4 => Op::Branch(n),
        5 => Op::PcodeBranch(PcodeLabel(n)),
        _ => Op::PcodeLabel(PcodeLabel(n)),
    }
}
