// The operations, by families, and 01's rules for each: side effects, what operands and output it needs, and its sizes.
ghost use Rattle.std.specs.Prelude.{◌≡◌, Bool, true, false, ◌&&◌, ℕ, eqb};
ghost use Rattle.pcode.specs.Rules.{meets, output_need, call_output, first_need, second_need, side_effects, fits_rule, sizes_one, size_rule};

use crate::var::PcodeLabel;

// No run gets past these.
#[derive(Clone, Copy)]
pub enum TrapOp {
    Invalid,
    Exception,
}

// Other operations without side effects that nothing is known of.
#[derive(Clone, Copy)]
pub enum OpaqueOp {
    IntToFloat,
    UintToFloat,
    FloatToFloat,
    FloatToInt,
    MultiEqual,
    Indirect,
}

// Floats stay opaque.
#[derive(Clone, Copy)]
pub enum FloatOp {
    FloatAdd,
    FloatSub,
    FloatMul,
    FloatDiv,
    FloatNegate,
    FloatAbs,
    FloatSqrt,
    FloatCeil,
    FloatFloor,
    FloatRound,
    FloatIsNan,
    FloatEqual,
    FloatNotEqual,
    FloatLess,
    FloatLessEqual,
}

// Boolean operations of two operands.
#[derive(Clone, Copy)]
pub enum BoolOp {
    BoolAnd,
    BoolOr,
    BoolXor,
}

// Comparisons, carries and the borrow.
#[derive(Clone, Copy)]
pub enum CompareOp {
    IntEqual,
    IntNotEqual,
    IntLess,
    IntSignedLess,
    IntLessEqual,
    IntSignedLessEqual,
    IntCarry,
    IntSignedCarry,
    IntSignedBorrow,
}

// The two rotates.
#[derive(Clone, Copy)]
pub enum RotateOp {
    IntRotateLeft,
    IntRotateRight,
}

// A value and an amount.
#[derive(Clone, Copy)]
pub enum ShiftOp {
    IntLeft,
    IntRight,
    IntSignedRight,
}

// The four divisions.
#[derive(Clone, Copy)]
pub enum DivideOp {
    IntDiv,
    IntSignedDiv,
    IntRem,
    IntSignedRem,
}

// Two operands and an output of one size.
#[derive(Clone, Copy)]
pub enum TwoOp {
    IntAdd,
    IntSub,
    IntXor,
    IntOr,
    IntAnd,
    IntMul,
}

// One operand.
#[derive(Clone, Copy)]
pub enum OneOp {
    Copy,
    ZeroExtend,
    SignExtend,
    IntNot,
    IntNegate,
    IntCountOnes,
    IntCountLeadingZeroes,
    BoolNot,
}

// Operations with a number that reach outside the block.
#[derive(Clone, Copy)]
pub enum CallOp {
    Arg,
    PcodeOp,
    Hook,
    HookIf,
    TracerLoad,
    TracerStore,
}

// An operation. The families have at most 16 members each, so that a `match` on one stays small.
#[derive(Clone, Copy)]
pub enum Op {
    Trap(TrapOp),
    InstructionMarker,
    PcodeLabel(PcodeLabel),
    PcodeBranch(PcodeLabel),
    Branch(u16),
    Load(u16),
    Store(u16),
    Call(CallOp, u16),
    Select(u16),
    Subpiece(u16),
    Opaque(OpaqueOp),
    Float(FloatOp),
    One(OneOp),
    Two(TwoOp),
    Divide(DivideOp),
    Shift(ShiftOp),
    Rotate(RotateOp),
    Compare(CompareOp),
    Bool(BoolOp),
}

// Whether an operation takes an operand or an output.
#[derive(Clone, Copy)]
pub enum Need {
    Never,
    May,
    Must,
}

impl Need {
    // Whether the need is met where the operand or output is there, or is not.
    pub fn met(self, there: bool) -> bool
        ensures { result ≡ meets self there }
    {
        match self {
            Need::Never => !there,
            Need::May => true,
            Need::Must => there,
        }
    }
}

impl CallOp {
    fn output_need(self) -> Need
        ensures { result ≡ call_output self }
    {
        match self {
            CallOp::Arg => Need::Never,
            CallOp::PcodeOp => Need::May,
            CallOp::Hook => Need::May,
            CallOp::HookIf => Need::May,
            CallOp::TracerLoad => Need::May,
            CallOp::TracerStore => Need::Never,
        }
    }
}

// What 01 asks of the sizes of the operands (a, b) and the output (o).
#[derive(Clone, Copy)]
pub enum SizeRule {
    Any,
    // a = o
    FirstIsOutput,
    // a at most o
    FirstFitsOutput,
    // a = b = o
    AllSame,
    // a = b
    OperandsSame,
    // k at most a
    AtMostFirst(u16),
}

impl SizeRule {
    pub fn met(self, a: u8, b: u8, o: u8) -> bool
        ensures { result ≡ fits_rule self a b o }
    {
        match self {
            SizeRule::Any => true,
            SizeRule::FirstIsOutput => a == o,
            SizeRule::FirstFitsOutput => a <= o,
            SizeRule::AllSame => a == o && b == o,
            SizeRule::OperandsSame => a == b,
            SizeRule::AtMostFirst(k) => k <= a as u16,
        }
    }
}

impl OneOp {
    fn size_rule(self) -> SizeRule
        ensures { result ≡ sizes_one self }
    {
        match self {
            OneOp::Copy => SizeRule::FirstIsOutput,
            OneOp::ZeroExtend => SizeRule::FirstFitsOutput,
            OneOp::SignExtend => SizeRule::FirstFitsOutput,
            OneOp::IntNot => SizeRule::FirstIsOutput,
            OneOp::IntNegate => SizeRule::FirstIsOutput,
            OneOp::IntCountOnes => SizeRule::Any,
            OneOp::IntCountLeadingZeroes => SizeRule::Any,
            OneOp::BoolNot => SizeRule::Any,
        }
    }
}

impl Op {
    // Whether there is an output.
    pub fn output_need(self) -> Need
        ensures { result ≡ output_need self }
    {
        match self {
            Op::Trap(_) => Need::Never,
            Op::InstructionMarker => Need::Never,
            Op::PcodeLabel(_) => Need::Never,
            Op::PcodeBranch(_) => Need::Never,
            Op::Branch(_) => Need::Never,
            Op::Load(_) => Need::May,
            Op::Store(_) => Need::Never,
            Op::Call(k, _) => k.output_need(),
            Op::Select(_) => Need::Must,
            Op::Subpiece(_) => Need::Must,
            Op::Opaque(_) => Need::Must,
            Op::Float(_) => Need::Must,
            Op::One(_) => Need::Must,
            Op::Two(_) => Need::Must,
            Op::Divide(_) => Need::Must,
            Op::Shift(_) => Need::Must,
            Op::Rotate(_) => Need::Must,
            Op::Compare(_) => Need::Must,
            Op::Bool(_) => Need::Must,
        }
    }

    // Whether there is a first operand.
    pub fn first_need(self) -> Need
        ensures { result ≡ first_need self }
    {
        match self {
            Op::Trap(_) => Need::May,
            Op::InstructionMarker => Need::May,
            Op::PcodeLabel(_) => Need::May,
            Op::PcodeBranch(_) => Need::Must,
            Op::Branch(_) => Need::Must,
            Op::Load(_) => Need::Must,
            Op::Store(_) => Need::Must,
            Op::Call(_, _) => Need::May,
            Op::Select(_) => Need::May,
            Op::Subpiece(_) => Need::Must,
            Op::Opaque(_) => Need::May,
            Op::Float(_) => Need::May,
            Op::One(_) => Need::Must,
            Op::Two(_) => Need::Must,
            Op::Divide(_) => Need::Must,
            Op::Shift(_) => Need::Must,
            Op::Rotate(_) => Need::Must,
            Op::Compare(_) => Need::Must,
            Op::Bool(_) => Need::Must,
        }
    }

    // Whether there is a second operand.
    pub fn second_need(self) -> Need
        ensures { result ≡ second_need self }
    {
        match self {
            Op::Trap(_) => Need::May,
            Op::InstructionMarker => Need::May,
            Op::PcodeLabel(_) => Need::May,
            Op::PcodeBranch(_) => Need::May,
            Op::Branch(_) => Need::May,
            Op::Load(_) => Need::May,
            Op::Store(_) => Need::Must,
            Op::Call(_, _) => Need::May,
            Op::Select(_) => Need::May,
            Op::Subpiece(_) => Need::Never,
            Op::Opaque(_) => Need::May,
            Op::Float(_) => Need::May,
            Op::One(_) => Need::Never,
            Op::Two(_) => Need::Must,
            Op::Divide(_) => Need::Must,
            Op::Shift(_) => Need::Must,
            Op::Rotate(_) => Need::Must,
            Op::Compare(_) => Need::Must,
            Op::Bool(_) => Need::Must,
        }
    }

    pub fn has_side_effects(self) -> bool
        ensures { result ≡ side_effects self }
    {
        match self.output_need() {
            Need::Never => true,
            Need::May => true,
            Need::Must => false,
        }
    }

    // What its sizes have to meet.
    pub fn size_rule(self) -> SizeRule
        ensures { result ≡ size_rule self }
    {
        match self {
            Op::Trap(_) => SizeRule::Any,
            Op::InstructionMarker => SizeRule::Any,
            Op::PcodeLabel(_) => SizeRule::Any,
            Op::PcodeBranch(_) => SizeRule::Any,
            Op::Branch(_) => SizeRule::Any,
            Op::Load(_) => SizeRule::Any,
            Op::Store(_) => SizeRule::Any,
            Op::Call(_, _) => SizeRule::Any,
            Op::Select(_) => SizeRule::Any,
            Op::Subpiece(n) => SizeRule::AtMostFirst(n),
            Op::Opaque(_) => SizeRule::Any,
            Op::Float(_) => SizeRule::Any,
            Op::One(k) => k.size_rule(),
            Op::Two(_) => SizeRule::AllSame,
            Op::Divide(_) => SizeRule::AllSame,
            Op::Shift(_) => SizeRule::FirstIsOutput,
            Op::Rotate(_) => SizeRule::FirstIsOutput,
            Op::Compare(_) => SizeRule::OperandsSame,
            Op::Bool(_) => SizeRule::Any,
        }
    }
}
