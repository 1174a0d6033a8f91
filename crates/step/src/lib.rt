// One statement of a run: what it does, the state after it, and where the run goes on.
#![tactic(auto)]

ghost use Rattle.std.specs.Prelude.{◌≡◌, ◌≤◌, get_or};
ghost use Rattle.wide.specs.Value.{value_of};
ghost use Rattle.vars.specs.Vars.{held_ids};
ghost use Rattle.machine.specs.Values.{HeldOutput, ReadyOut};
ghost use Rattle.step.specs.Steps.{act_of, answer_at, loaded_rows, rows_after, loads_after, flow_of};

use machine::plain::plain;
use machine::values::write;
use pcode::block::Stmt;
use pcode::op::Op;
use pcode::var::{Output, PcodeLabel, output_size};
use state::State;
use vars::Vars;
use wide::Wide;

// What an operation does in a run.
#[derive(Clone, Copy)]
pub enum Act {
    Nothing,
    Marks,
    Jumps(PcodeLabel),
    Exits(u16),
    Loads(u16),
    Stores(u16),
    Computes,
}

pub fn act_of(op: Op) -> Act
    ensures { result ≡ act_of op }
{
    match op {
        Op::Trap(_) | Op::PcodeLabel(_) | Op::Call(_, _) => Act::Nothing,
        Op::InstructionMarker => Act::Marks,
        Op::PcodeBranch(l) => Act::Jumps(l),
        Op::Branch(n) => Act::Exits(n),
        Op::Load(n) => Act::Loads(n),
        Op::Store(n) => Act::Stores(n),
        _ => Act::Computes,
    }
}

// A word of a list; 0 past its end.
fn word_at(words: &[u64], i: usize) -> u64
    ensures { result ≡ get_or words.now i 0 }
{
    words.get(i).copied().unwrap_or(0)
}

// The n-th answer.
#[tactic(auto, unfolding(wide::specs::Value::value_of, crate::specs::Steps::answer_at))]
fn answer_at(answers: &[u64], n: usize) -> Wide
    requires { n ≤ 129 }
    ensures { value_of result ≡ answer_at answers.now n }
{
    Wide {
        lo: word_at(answers, 2 * n),
        hi: word_at(answers, 2 * n + 1),
    }
}

// The state after a load that takes the n-th answer.
#[tactic(auto, unfolding(crate::specs::Steps::loaded_rows))]
fn load(vars: &Vars, state: State, output: Output, answers: &[u64], n: usize) -> State
    requires { (n ≤ 129) × HeldOutput (held_ids vars.now) output }
    ensures { result ≡ loaded_rows (held_ids vars.now) answers.now n state output }
{
    let whole = answer_at(answers, n);
    let x = whole.cut(8 * u64::from(output_size(output)));
    write(vars, state, output, x)
}

// The state after a statement, of a run that has taken `n` load answers.
pub fn after(vars: &Vars, state: State, s: Stmt, act: Act, answers: &[u64], n: usize) -> State
    requires { (n ≤ 129) × ReadyOut (held_ids vars.now) state s }
    ensures { result ≡ rows_after (held_ids vars.now) answers.now n state s act }
{
    match act {
        Act::Loads(_) => load(vars, state, s.output, answers, n),
        Act::Computes => plain(vars, state, s),
        _ => state,
    }
}

// How many load answers are taken after it.
pub fn loads_after(n: usize, act: Act) -> usize
    requires { n ≤ 129 }
    ensures { result ≡ loads_after n act }
{
    match act {
        Act::Loads(_) => n + 1,
        _ => n,
    }
}

// Where the run goes on after a statement with that first operand: at a label, or at the next statement.
#[tactic(auto, unfolding(wide::specs::Value::value_of))]
pub fn flow_of(act: Act, a: Wide) -> Option<PcodeLabel>
    ensures { result ≡ flow_of act (value_of a) }
{
    match act {
        Act::Jumps(l) if !a.same(Wide::ZERO) => Some(l),
        _ => None,
    }
}
