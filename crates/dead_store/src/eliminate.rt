// The block without its dead statements.
ghost use Rattle.std.specs.Prelude.{◌≡◌, ◌≤◌, length};
ghost use Rattle.pcode.specs.Block.{held};
ghost use Rattle.dead_store.specs.Stays.{Ready, block_of, without, eliminated};

use crate::detector;
use pcode::block::{Block, Limits, Marks, Stmt};

// The statements that are not dead, and blanks.
fn squeeze(stmts: &[Stmt], dead: &[bool; 129]) -> Block
    requires { length stmts.now ≤ 129 }
    ensures { result ≡ block_of (without dead.now stmts.now) }
{
    let mut out = Block::new();
    for (i, s) in stmts.iter().enumerate() {
        if dead[i] {
            continue;
        }
        out.stmts[out.count] = *s;
        out.count += 1;
    }
    out
}

// The second pass on a block that its checks accept.
pub fn remove_dead_code(b: &Block, marks: Marks) -> Block
    requires { Ready b.now }
    ensures { result ≡ block_of (eliminated marks (held b.now)) }
{
    let stmts = b.held();
    let named = vars::named(stmts, Limits::SECOND.vars);
    let dead = detector::get_dead_code(stmts, &named.vars, marks);
    squeeze(stmts, &dead)
}
