// The second pass, with its checks: a treated block, or the refusal; the block lent stays as it is.
ghost use Rattle.std.specs.Prelude.{◌≡◌};
ghost use Rattle.optimizer.specs.Second.{second_of};

use dead_store::eliminate::remove_dead_code;
use pcode::block::{Block, Limits, Marks};
use pcode::refusal::Refusal;

// The block without its dead stores.
pub fn dead_store_elimination(block: &Block, marks: Marks) -> Result<Block, Refusal>
    ensures { result ≡ second_of block.now marks }
{
    checks::check::check(block, Limits::SECOND)?;
    Ok(remove_dead_code(block, marks))
}
