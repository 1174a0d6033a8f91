// The run over a block's statements, once its checks are met.
ghost use Rattle.std.specs.Prelude.{◌≡◌, ◌≤◌, None, length};
ghost use Rattle.vars.specs.Vars.{held_ids};
ghost use Rattle.print.specs.Texts.{written};
ghost use Rattle.step.specs.Events.{end_rows};
ghost use Rattle.trace.specs.Words.{trace_words, trace_room};
ghost use Rattle.run.specs.Run.{arrived, run_from, start_of, Runnable};

use checks::label::is_label;
use machine::values::value;
use pcode::block::{Marks, Stmt};
use pcode::op::Op;
use pcode::var::PcodeLabel;
use state::State;
use vars::Vars;

// Where a jump to a label goes on after an operation: it ends where its label stands.
fn arrive(l: PcodeLabel, op: Op) -> Option<PcodeLabel>
    ensures { result ≡ arrived l op }
{
    if is_label(op, l) { None } else { Some(l) }
}

// The rows at the end of the statements' run; its events go to the trace.
pub fn forward(
    stmts: &[Stmt],
    vars: &Vars,
    marks: Marks,
    start: State,
    answers: &[u64],
    trace: &mut [u64],
) -> State
    requires { (length stmts.now ≤ 129) × (vars.now.count ≤ 112) × Runnable (held_ids vars.now) stmts.now × (trace_room ≤ length trace.old) }
    ensures { (result ≡ end_rows (run_from (held_ids vars.now) answers.now stmts.now None (start_of start))) × (trace.new ≡ written trace.old 0 (trace_words marks (held_ids vars.now) (run_from (held_ids vars.now) answers.now stmts.now None (start_of start)))) }
{
    let mut state = start;
    let mut loads = 0;
    let mut at = 0;
    let mut flow = None;
    for s in stmts {
        if let Some(l) = flow {
            flow = arrive(l, s.op);
            continue;
        }
        let act = step::act_of(s.op);
        let next = step::after(vars, state, *s, act, answers, loads);
        // `state` is still the one before the output is written
        let a = value(vars, state, s.first);
        let b = value(vars, state, s.second);
        at = trace::event(trace, at, marks, vars, state, act, a, b);
        flow = step::flow_of(act, a);
        loads = step::loads_after(loads, act);
        state = next;
    }
    trace::shown(trace, at, 5, marks, vars, state);
    state
}
