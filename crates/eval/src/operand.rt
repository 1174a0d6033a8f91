// Where an operand's bits stand: a part of the variable store or of the row that holds constants.
ghost use Rattle.std.specs.Prelude.{◌≡◌, ◌+◌, ◌*◌, length, take, drop};
ghost use Rattle.eval.specs.Operand.{bits_of};

// An operand's place, by the cases of pcode's `Operand`: none, the lowest bytes of the constant row, or bytes of a variable's row of the store.
#[derive(Clone, Copy)]
pub enum Slot {
    None,
    Const { bytes: u8 },
    Var { row: u16, offset: u8, bytes: u8 },
}

// The part of `s` from `from` on, `n` long, as far as `s` goes.
fn part(s: &[u64], from: usize, n: usize) -> &[u64]
    ensures { result.now ≡ take n (drop from s.now) }
{
    let start = from.min(s.len());
    let end = start + n.min(s.len() - start);
    &s[start..end]
}

fn const_bits(consts: &[u64], bytes: u8) -> &[u64]
    ensures { result.now ≡ take (8 * bytes) consts.now }
{
    part(consts, 0, 8 * (bytes as usize))
}

fn var_bits(vars: &[u64], row: u16, offset: u8, bytes: u8) -> &[u64]
    ensures { result.now ≡ take (8 * bytes) (drop (128 * row + 8 * offset) vars.now) }
{
    part(
        vars,
        128 * (row as usize) + 8 * (offset as usize),
        8 * (bytes as usize),
    )
}

// An operand's bits: a part of the variable store, 128 bits a row, or of the row that holds constants.
pub fn operand_bits<'a>(vars: &'a [u64], consts: &'a [u64], slot: Slot) -> &'a [u64]
    ensures { result.now ≡ bits_of vars.now consts.now slot }
{
    match slot {
        Slot::None => const_bits(consts, 0),
        Slot::Const { bytes } => const_bits(consts, bytes),
        Slot::Var { row, offset, bytes } => var_bits(vars, row, offset, bytes),
    }
}
