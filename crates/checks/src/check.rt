// The checks in 01's order: 2, then 3, 4, 5 statement by statement, then 7 over the block, then 6.
ghost use Rattle.std.specs.Prelude.{◌≡◌};
ghost use Rattle.checks.specs.Checks.{variables, check_of};

use crate::label::labels;
use crate::stmt::statements;
use pcode::block::{Block, Limits, Stmt};
use pcode::refusal::Refusal;
use text::read::room;

// 7: the statement that names a variable beyond the limit.
#[tactic(auto, unfolding(crate::specs::Checks::variables))]
fn distinct(stmts: &[Stmt], most: usize) -> Result<(), Refusal>
    ensures { result ≡ variables most stmts.now }
{
    let at = vars::named(stmts, most).place;
    if at < stmts.len() {
        return Err(Refusal::TooManyVariables(at));
    }
    Ok(())
}

// Whether a block may be treated within these limits.
#[tactic(auto, unfolding(crate::specs::Checks::check_of))]
pub fn check(block: &Block, limits: Limits) -> Result<(), Refusal>
    ensures { result ≡ check_of limits block.now }
{
    let most = room(limits.stmts);
    if most < block.count {
        return Err(Refusal::TooManyStatements(most));
    }
    let stmts = block.held();
    statements(stmts)?;
    distinct(stmts, limits.vars)?;
    labels(stmts)
}
