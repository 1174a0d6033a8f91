// The operations' names in the text form, by code.
ghost use Rattle.std.specs.Prelude.{◌≡◌};
ghost use Rattle.pcode.specs.Names.{takes_number, name_of};

const NAMES: [&[u8]; 72] = [
    b"Copy",
    b"ZeroExtend",
    b"SignExtend",
    b"IntNot",
    b"IntNegate",
    b"IntCountOnes",
    b"IntCountLeadingZeroes",
    b"BoolNot",
    b"IntAdd",
    b"IntSub",
    b"IntXor",
    b"IntOr",
    b"IntAnd",
    b"IntMul",
    b"IntDiv",
    b"IntSignedDiv",
    b"IntRem",
    b"IntSignedRem",
    b"IntLeft",
    b"IntRight",
    b"IntSignedRight",
    b"IntRotateLeft",
    b"IntRotateRight",
    b"IntEqual",
    b"IntNotEqual",
    b"IntLess",
    b"IntSignedLess",
    b"IntLessEqual",
    b"IntSignedLessEqual",
    b"IntCarry",
    b"IntSignedCarry",
    b"IntSignedBorrow",
    b"BoolAnd",
    b"BoolOr",
    b"BoolXor",
    b"FloatAdd",
    b"FloatSub",
    b"FloatMul",
    b"FloatDiv",
    b"FloatNegate",
    b"FloatAbs",
    b"FloatSqrt",
    b"FloatCeil",
    b"FloatFloor",
    b"FloatRound",
    b"FloatIsNan",
    b"FloatEqual",
    b"FloatNotEqual",
    b"FloatLess",
    b"FloatLessEqual",
    b"IntToFloat",
    b"UintToFloat",
    b"FloatToFloat",
    b"FloatToInt",
    b"MultiEqual",
    b"Indirect",
    b"Invalid",
    b"Exception",
    b"InstructionMarker",
    b"Subpiece",
    b"Select",
    b"Load",
    b"Store",
    b"Branch",
    b"PcodeBranch",
    b"PcodeLabel",
    b"Arg",
    b"PcodeOp",
    b"Hook",
    b"HookIf",
    b"TracerLoad",
    b"TracerStore",
];

// Whether the operation with that code has a number.
pub fn takes_number(code: usize) -> bool
    ensures { result ≡ takes_number code }
{
    59 <= code
}

// The name with that code; none past the last.
pub fn name(code: usize) -> &'static [u8]
    ensures { result.now ≡ name_of code }
{
    if code < 72 { NAMES[code] } else { b"" }
}
