// How a run ends before its first step: the refusals, and the room for its trace.
ghost use Rattle.std.specs.Prelude.{◌≡◌};
ghost use Rattle.run.specs.Promise.{class_outcome, outcome_of};

use checks::check::check;
use machine::class::{Class, first_outside};
use pcode::block::{Block, Limits, Stmt};
use pcode::refusal::Refusal;

// Why a run makes no step.
#[derive(Clone, Copy)]
pub enum Stop {
    NoRoom,
    Refused(Refusal),
}

// The words that the largest trace takes.
pub const TRACE: usize = 29900;

// After the checks: refusal 16, then the room for the trace.
#[tactic(auto, unfolding(crate::specs::Promise::class_outcome))]
fn class_outcome(class: Class, stmts: &[Stmt], words: usize) -> Result<(), Stop>
    ensures { result ≡ class_outcome class stmts.now words }
{
    let at = first_outside(class, stmts);
    if at < stmts.len() {
        return Err(Stop::Refused(Refusal::NotRunnable(at)));
    }
    if words < TRACE {
        return Err(Stop::NoRoom);
    }
    Ok(())
}

// How a run of the block ends, with that many words for its trace.
pub fn outcome_of(class: Class, block: &Block, words: usize) -> Result<(), Stop>
    ensures { result ≡ outcome_of class block.now words }
{
    check(block, Limits::SECOND).map_err(Stop::Refused)?;
    class_outcome(class, block.held(), words)
}
