// Unknown output bits become expressions; evaluating leaves them unknown.
ghost use Rattle.std.specs.Prelude.{◌≡◌, ℕ};
ghost use Rattle.eval.specs.Name.{name_b, name_from};
ghost use Rattle.bit_vec.specs.Lists.{bits, codes};

use bit::{Bit, Expr};
use pcode::var::OutputExprId;

// An unknown bit at place i becomes the expression (id, i); an offset has 8 bits.
fn name_bit(b: Bit, id: OutputExprId, i: usize) -> Bit
    ensures { result ≡ name_b id i b }
{
    match b {
        Bit::Unknown => Bit::Expr(Expr {
            id,
            offset: (i % 256) as u8,
            invert: false,
        }),
        _ => b,
    }
}

// Each unknown bit becomes the expression of its place.
pub fn name(out: &mut [u64], id: OutputExprId)
    ensures { out.new ≡ codes (name_from id 0 (bits out.old)) }
{
    for (i, x) in out.iter_mut().enumerate() {
        let y = name_bit(Bit::decode(*x), id, i);
        *x = y.encode();
    }
}
