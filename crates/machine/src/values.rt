// What a statement reads and writes: values of operands, and the state after an output.
ghost use Rattle.std.specs.Prelude.{◌≡◌};
ghost use Rattle.wide.specs.Value.{value_of};
ghost use Rattle.pcode.specs.Var.{cut};
ghost use Rattle.vars.specs.Vars.{held_ids, row_of};
ghost use Rattle.state.specs.Bytes.{read_of, write_of};
ghost use Rattle.machine.specs.Values.{value_in, written, Held, HeldOperand, HeldOutput};

use pcode::var::{Operand, Output, VarNode};
use state::State;
use vars::Vars;
use wide::Wide;

#[tactic(auto, unfolding(wide::specs::Value::value_of))]
fn constant(value: u64, size: u8) -> Wide
    ensures { value_of result ≡ cut value size }
{
    Wide { lo: value, hi: 0 }.cut(8 * u64::from(size))
}

// The number in a part of a variable.
fn read_node(vars: &Vars, state: State, v: VarNode) -> Wide
    requires { Held (held_ids vars.now) v }
    ensures { value_of result ≡ read_of state (row_of (held_ids vars.now) v.id) v.offset v.size }
{
    let row = vars.row(v.id);
    state::read(state, row, usize::from(v.offset), usize::from(v.size))
}

// An operand's value.
#[tactic(auto, unfolding(wide::specs::Value::value_of))]
pub fn value(vars: &Vars, state: State, operand: Operand) -> Wide
    requires { HeldOperand (held_ids vars.now) operand }
    ensures { value_of result ≡ value_in (held_ids vars.now) state operand }
{
    match operand {
        Operand::None => Wide::ZERO,
        Operand::Const(v, n) => constant(v, n),
        Operand::Var(v) => read_node(vars, state, v),
    }
}

fn write_node(vars: &Vars, state: State, v: VarNode, x: Wide) -> State
    requires { Held (held_ids vars.now) v }
    ensures { result ≡ write_of state (row_of (held_ids vars.now) v.id) v.offset v.size (value_of x) }
{
    let row = vars.row(v.id);
    state::write(state, row, usize::from(v.offset), usize::from(v.size), x)
}

// The state after an output.
pub fn write(vars: &Vars, state: State, output: Output, x: Wide) -> State
    requires { HeldOutput (held_ids vars.now) output }
    ensures { result ≡ written (held_ids vars.now) state output (value_of x) }
{
    match output {
        None => state,
        Some(v) => write_node(vars, state, v, x),
    }
}
