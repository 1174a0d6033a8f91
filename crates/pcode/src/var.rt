// Ids, parts of variables, operands and outputs.
ghost use Rattle.std.specs.Prelude.{◌≡◌, true, false, ℕ, ℤ, pos, negsuc};
ghost use Rattle.pcode.specs.Var.{zero_id, same_id, less_id, least_id, below_id, same_label, cut, size_of, size_out, as_operand};

// A variable's id: not a label's number, not an expression's.
#[derive(Clone, Copy, PartialEq, Eq, PartialOrd, Ord)]
pub struct VarId(pub i16);

// A label's number.
#[derive(Clone, Copy, PartialEq, Eq)]
pub struct PcodeLabel(pub u16);

// An expression's id, given in the order in which expressions are made.
#[derive(Clone, Copy, PartialEq, Eq)]
pub struct OutputExprId(pub u32);

impl VarId {
    pub fn least(self, other: VarId) -> VarId
        ensures { result ≡ least_id self other }
    {
        self.min(other)
    }

    // One below; -32768, which has none below it, stays.
    pub fn below(self) -> VarId
        ensures { result ≡ below_id self }
    {
        if self == VarId(-32768) {
            return self;
        }
        VarId(self.0 - 1)
    }
}

// Bytes `offset` up to `offset + size` of the variable `id`.
#[derive(Clone, Copy)]
pub struct VarNode {
    pub id: VarId,
    pub offset: u8,
    pub size: u8,
}

// What a statement reads: nothing, a constant of `size` bytes, or a part of a variable.
#[derive(Clone, Copy)]
pub enum Operand {
    None,
    Const(u64, u8),
    Var(VarNode),
}

// What a statement writes: a part of a variable, or nothing.
pub type Output = Option<VarNode>;

impl Operand {
    pub const NONE: Operand = Operand::None;
    // The widest value, in bytes and in bits: a whole variable.
    pub const MAX_BYTES: u8 = 16;

    pub const MAX_BITS: u16 = 128;

    pub fn none() -> Operand
        ensures { result ≡ Operand.None }
    {
        Operand::NONE
    }

    pub fn var(id: VarId, offset: u8, size: u8) -> Operand
        ensures { result ≡ Operand.Var (record { id = id; offset = offset; size = size }) }
    {
        Operand::Var(VarNode { id, offset, size })
    }

    // A constant is cut to its size.
    #[tactic(auto, using(crate::proofs::Cut::whole))]
    pub fn constant(value: u64, size: u8) -> Operand
        ensures { result ≡ Operand.Const (cut value size) size }
    {
        if size < 8 {
            let bits = 8 * (size as u64);
            Operand::Const(value % (1 << bits), size)
        } else {
            Operand::Const(value, size)
        }
    }

    // How many bytes the operand names; none for no operand.
    pub fn size(self) -> u8
        ensures { result ≡ size_of self }
    {
        match self {
            Operand::None => 0,
            Operand::Const(_, n) => n,
            Operand::Var(v) => v.size,
        }
    }
}

impl From<Output> for Operand {
    ghost from_gives = { λ o a. a ≡ as_operand o };

    // The same part of a variable as an operand.
    fn from(o: Output) -> Operand {
        match o {
            None => Operand::None,
            Some(v) => Operand::Var(v),
        }
    }
}

// How many bytes an output names; none for no output.
pub fn output_size(o: Output) -> u8
    ensures { result ≡ size_out o }
{
    match o {
        None => 0,
        Some(v) => v.size,
    }
}
