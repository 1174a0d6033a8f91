// The public entry: a block's run, or the refusal and everything lent as it was.
ghost use Rattle.std.specs.Prelude.{◌≡◌, ◌≤◌, length};
ghost use Rattle.vars.specs.Vars.{vars_of};
ghost use Rattle.machine.specs.Class.{own_class};
ghost use Rattle.print.specs.Texts.{written};
ghost use Rattle.step.specs.Events.{end_rows};
ghost use Rattle.trace.specs.Words.{trace_words, trace_room};
ghost use Rattle.run.specs.Run.{run_of, Runnable};
ghost use Rattle.run.specs.Promise.{Promise};

use crate::forward::forward;
use crate::outcome::{Stop, outcome_of};
use machine::class::Class;
use pcode::block::{Block, Limits, Marks, Stmt};
use state::State;

// The run of checked statements, over the table of their variables.
fn named_run(
    stmts: &[Stmt],
    marks: Marks,
    state: State,
    answers: &[u64],
    trace: &mut [u64],
) -> State
    requires { (length stmts.now ≤ 129) × (length (vars_of stmts.now) ≤ 112) × Runnable (vars_of stmts.now) stmts.now × (trace_room ≤ length trace.old) }
    ensures { (result ≡ end_rows (run_of answers.now stmts.now state)) × (trace.new ≡ written trace.old 0 (trace_words marks (vars_of stmts.now) (run_of answers.now stmts.now state))) }
{
    let named = vars::named(stmts, Limits::SECOND.vars);
    forward(stmts, &named.vars, marks, state, answers, trace)
}

// A run of the class.
pub fn run_class(
    class: Class,
    block: &Block,
    marks: Marks,
    state: State,
    answers: &[u64],
    trace: &mut [u64],
) -> Result<State, Stop>
    ensures { Promise class block.now marks state answers.now trace.old trace.new result }
{
    outcome_of(class, block, trace.len())?;
    Ok(named_run(block.held(), marks, state, answers, trace))
}

// A run of 01's class: the rows at its end, with its events in `trace`; or why it makes no step.
pub fn run(
    block: &Block,
    marks: Marks,
    state: State,
    answers: &[u64],
    trace: &mut [u64],
) -> Result<State, Stop>
    ensures { Promise own_class block.now marks state answers.now trace.old trace.new result }
{
    run_class(Class::own(), block, marks, state, answers, trace)
}
