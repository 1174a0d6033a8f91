// Recording a run's events as words at a place of a lent buffer; each function answers the place after them.
// The buffer and its place are two parameters, as in print: of a struct that lends the buffer each clause would name the fields before and after.
#![tactic(auto)]

ghost use Rattle.std.specs.Prelude.{[], ◌∷◌, ◌+◌, ◌*◌, ◌<◌, ◌≤◌, length, take};
ghost use Rattle.pcode.specs.Var.{pick};
ghost use Rattle.wide.specs.Value.{value_of};
ghost use Rattle.vars.specs.Vars.{held_ids};
ghost use Rattle.state.specs.Bytes.{num_of};
ghost use Rattle.print.specs.Texts.{Wrote};
ghost use Rattle.trace.specs.Words.{halves, lasting_words, access_words, state_words, trace_words};
ghost use Rattle.step.specs.Steps.{events_of};

use pcode::block::Marks;
use state::{Row, State};
use step::Act;
use vars::Vars;
use wide::Wide;

fn word(trace: &mut [u64], at: usize, x: u64) -> usize
    requires { at + 1 ≤ length trace.old }
    ensures { Wrote 1 trace.old at (x ∷ []) trace.new result }
{
    trace[at] = x;
    at + 1
}

// The low half, then the high half.
fn pair(trace: &mut [u64], at: usize, x: Wide) -> usize
    requires { at + 2 ≤ length trace.old }
    ensures { Wrote 2 trace.old at (halves (value_of x)) trace.new result }
{
    let p = word(trace, at, x.lo);
    word(trace, p, x.hi)
}

// The bytes of a row, where its variable is lasting.
fn row(trace: &mut [u64], at: usize, lasting: bool, bytes: Row) -> usize
    requires { at + 2 ≤ length trace.old }
    ensures { Wrote 2 trace.old at (pick lasting (halves (num_of (take 16 bytes))) []) trace.new result }
{
    if lasting {
        return pair(trace, at, state::number(bytes, 0, 16));
    }
    at
}

// The lasting variables.
fn lasting(trace: &mut [u64], at: usize, marks: Marks, vars: &Vars, state: State) -> usize
    requires { (vars.now.count ≤ 112) × (at + 224 ≤ length trace.old) }
    ensures { Wrote 224 trace.old at (lasting_words marks state 0 (held_ids vars.now)) trace.new result }
{
    let mut p = at;
    for (i, id) in vars.held().iter().enumerate() {
        p = row(trace, p, marks.lasting(*id), state[i]);
    }
    p
}

// A load, a store or an exit, without its rows.
fn access(trace: &mut [u64], at: usize, kind: u64, n: u16, a: Wide, b: Wide) -> usize
    requires { at + 6 ≤ length trace.old }
    ensures { Wrote 6 trace.old at (access_words kind n (value_of a) (value_of b)) trace.new result }
{
    let p = word(trace, at, kind);
    let q = word(trace, p, u64::from(n));
    let x = pair(trace, q, a);
    pair(trace, x, b)
}

// A marker or the end.
pub fn shown(
    trace: &mut [u64],
    at: usize,
    kind: u64,
    marks: Marks,
    vars: &Vars,
    state: State,
) -> usize
    requires { (vars.now.count ≤ 112) × (at + 226 ≤ length trace.old) }
    ensures { Wrote 226 trace.old at (state_words kind marks (held_ids vars.now) state) trace.new result }
{
    let p = word(trace, at, kind);
    let q = word(trace, p, 0);
    lasting(trace, q, marks, vars, state)
}

// An exit, where it is taken.
fn exit(
    trace: &mut [u64],
    at: usize,
    marks: Marks,
    vars: &Vars,
    state: State,
    n: u16,
    a: Wide,
    b: Wide,
) -> usize
    requires { (vars.now.count ≤ 112) × (at + 230 ≤ length trace.old) }
    ensures { Wrote 230 trace.old at (trace_words marks (held_ids vars.now) (events_of state (Act.Exits n) (value_of a) (value_of b))) trace.new result }
{
    if a.same(Wide::ZERO) {
        return at;
    }
    let p = access(trace, at, 3, n, a, b);
    lasting(trace, p, marks, vars, state)
}

// The event of a statement, if it has one.
pub fn event(
    trace: &mut [u64],
    at: usize,
    marks: Marks,
    vars: &Vars,
    state: State,
    act: Act,
    a: Wide,
    b: Wide,
) -> usize
    requires { (vars.now.count ≤ 112) × (at + 230 ≤ length trace.old) }
    ensures { Wrote 230 trace.old at (trace_words marks (held_ids vars.now) (events_of state act (value_of a) (value_of b))) trace.new result }
{
    match act {
        Act::Nothing => at,
        Act::Marks => shown(trace, at, 4, marks, vars, state),
        Act::Jumps(_) => at,
        Act::Exits(n) => exit(trace, at, marks, vars, state, n, a, b),
        Act::Loads(n) => access(trace, at, 1, n, a, b),
        Act::Stores(n) => access(trace, at, 2, n, a, b),
        Act::Computes => at,
    }
}
