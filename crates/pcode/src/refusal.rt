// Why a block is refused, and where: 01's number and place of each refusal.
ghost use Rattle.std.specs.Prelude.{◌≡◌, ℕ};
ghost use Rattle.pcode.specs.Refusals.{refusal_number, refusal_place};

// Each holds its place: a line from 1 for a bad line, a statement from 0 for the others.
#[derive(Clone, Copy)]
pub enum Refusal {
    BadLine(usize),
    TooManyStatements(usize),
    BadVariable(usize),
    BadOperand(usize),
    BadSizes(usize),
    BadLabel(usize),
    TooManyVariables(usize),
    RotateTooFar(usize),
    NoTemporary(usize),
    NotRunnable(usize),
}

impl Refusal {
    pub fn number(self) -> u8
        ensures { result ≡ refusal_number self }
    {
        match self {
            Refusal::BadLine(_) => 1,
            Refusal::TooManyStatements(_) => 2,
            Refusal::BadVariable(_) => 3,
            Refusal::BadOperand(_) => 4,
            Refusal::BadSizes(_) => 5,
            Refusal::BadLabel(_) => 6,
            Refusal::TooManyVariables(_) => 7,
            Refusal::RotateTooFar(_) => 8,
            Refusal::NoTemporary(_) => 9,
            Refusal::NotRunnable(_) => 16,
        }
    }

    pub fn place(self) -> usize
        ensures { result ≡ refusal_place self }
    {
        match self {
            Refusal::BadLine(p) => p,
            Refusal::TooManyStatements(p) => p,
            Refusal::BadVariable(p) => p,
            Refusal::BadOperand(p) => p,
            Refusal::BadSizes(p) => p,
            Refusal::BadLabel(p) => p,
            Refusal::TooManyVariables(p) => p,
            Refusal::RotateTooFar(p) => p,
            Refusal::NoTemporary(p) => p,
            Refusal::NotRunnable(p) => p,
        }
    }
}
