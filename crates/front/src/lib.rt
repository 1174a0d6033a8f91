// The front door: bytes in, a treated block's text or one refusal's line out.
#![tactic(auto)]

ghost use Rattle.std.specs.Prelude.{◌≡◌};
ghost use Rattle.print.specs.Printing.{Print};
ghost use Rattle.front.specs.Front.{limit_of, treat_of, end_of, answer_of};

use optimizer::both::both;
use optimizer::first::const_prop;
use optimizer::second::dead_store_elimination;
use pcode::block::{Block, Marks};
use pcode::refusal::Refusal;
use print::print::{print, refusal};
use text::read::read;

// Which passes a block goes through.
#[derive(Clone, Copy)]
pub enum Pass {
    First,
    Second,
    Both,
}

// How many statements are read.
pub fn limit(pass: Pass) -> usize
    ensures { result ≡ limit_of pass }
{
    match pass {
        Pass::First => 64,
        Pass::Second => 129,
        Pass::Both => 64,
    }
}

// The passes that are asked for.
pub fn treat_block(pass: Pass, block: &Block, marks: Marks) -> Result<Block, Refusal>
    ensures { result ≡ treat_of pass block.now marks }
{
    match pass {
        Pass::First => const_prop(block, marks),
        Pass::Second => dead_store_elimination(block, marks),
        Pass::Both => both(block, marks),
    }
}

// A refusal of a file, and the block that was read: the empty one, where reading was refused.
#[derive(Clone, Copy)]
pub struct Refused {
    pub why: Refusal,
    pub block: Block,
}

// What becomes of any bytes: a treated block, or one refusal of 01 with its place.
#[tactic(auto, unfolding(crate::specs::Front::end_of))]
pub fn treat_bytes(pass: Pass, input: &[u8]) -> Result<Block, Refused>
    ensures { result ≡ end_of pass input.now }
{
    let r = match read(input, limit(pass)) {
        Ok(r) => r,
        Err(why) => return Err(Refused {
            why,
            block: Block::new(),
        }),
    };
    match treat_block(pass, &r.block, r.marks) {
        Ok(block) => Ok(block),
        Err(why) => Err(Refused {
            why,
            block: r.block,
        }),
    }
}

// Any bytes: the treated block, or one refusal of 01 with its place; nothing else is written.
pub fn treat(pass: Pass, input: &[u8], out: &mut [u8]) -> Option<usize>
    ensures { Print (answer_of pass input.now).room (answer_of pass input.now).text out.old out.new result }
{
    match treat_bytes(pass, input) {
        Ok(block) => print(&block, out),
        Err(refused) => refusal(refused.why, out),
    }
}
