// The first pass, with its checks: a treated block, or the refusal; the block lent stays as it is.
ghost use Rattle.std.specs.Prelude.{◌≡◌};
ghost use Rattle.optimizer.specs.First.{first_of};

use pcode::block::{Block, Limits, Marks};
use pcode::refusal::Refusal;

// The block with its constants propagated.
pub fn const_prop(block: &Block, marks: Marks) -> Result<Block, Refusal>
    ensures { result ≡ first_of block.now marks }
{
    let limits = Limits::FIRST;
    checks::check::check(block, limits)?;
    let stmts = block.held();
    let vars = vars::named(stmts, limits.vars).vars;
    const_prop::const_prop(stmts, &vars, marks)
}
