// A statement without side effects: its result, and the state after it.
ghost use Rattle.std.specs.Prelude.{◌≡◌};
ghost use Rattle.wide.specs.Value.{value_of};
ghost use Rattle.vars.specs.Vars.{held_ids};
ghost use Rattle.machine.specs.Values.{result_in, plain_step, Ready, ReadyOut};

use crate::values::{value, write};
use pcode::block::Stmt;
use pcode::var::output_size;
use state::State;
use vars::Vars;
use wide::Wide;

// What the operation gives; both operands are read here, before anything is written.
#[tactic(auto, unfolding(crate::specs::Values::result_in))]
fn result(vars: &Vars, state: State, s: Stmt) -> Wide
    requires { Ready (held_ids vars.now) state s }
    ensures { value_of result ≡ result_in (held_ids vars.now) state s }
{
    let a = value(vars, state, s.first);
    let b = value(vars, state, s.second);
    let w = 8 * u64::from(s.first.size());
    let o = 8 * u64::from(output_size(s.output));
    concrete::apply::apply(s.op, w, o, a, b)
}

// The state after the statement: part of one row changes.
#[tactic(auto, unfolding(crate::specs::Values::plain_step))]
pub fn plain(vars: &Vars, state: State, s: Stmt) -> State
    requires { ReadyOut (held_ids vars.now) state s }
    ensures { result ≡ plain_step (held_ids vars.now) state s }
{
    let x = result(vars, state, s);
    write(vars, state, s.output, x)
}
