// Both passes: the second on what the first leaves.
ghost use Rattle.std.specs.Prelude.{◌≡◌};
ghost use Rattle.optimizer.specs.Both.{both_of};

use crate::first::const_prop;
use crate::second::dead_store_elimination;
use pcode::block::{Block, Marks};
use pcode::refusal::Refusal;

// A treated block, or the refusal of either pass.
pub fn both(block: &Block, marks: Marks) -> Result<Block, Refusal>
    ensures { result ≡ both_of block.now marks }
{
    let between = const_prop(block, marks)?;
    dead_store_elimination(&between, marks)
}
