// One statement of the walk.
ghost use Rattle.std.specs.Prelude.{◌≡◌, ℕ, ◌+◌, ◌<◌, ◌≤◌, Result, Ok, length};
ghost use Rattle.const_eval.specs.State.{known_of, Keeps};
ghost use Rattle.widen.specs.Turn.{turn_of};
ghost use Rattle.simplify.specs.Simplify.{Apt, Rows};
ghost use Rattle.const_step.specs.Labels.{reached_by};
ghost use Rattle.const_step.specs.Steps.{stepped_of, at_label, at_other, step_by};

use crate::label::{label, reached};
use const_eval::known::ConstEval;
use pcode::block::Stmt;
use pcode::var::{PcodeLabel, VarId};
use simplify::simplify;
use vars::Vars;
use widen::turn::{Turn, turn_of};
use widen::widen::{Made, Why, widen};

// A label; a kept one clears all knowledge.
fn at_label(
    known: &mut ConstEval,
    below: &[u64],
    jumps: &[u64],
    skip: Option<PcodeLabel>,
    l: PcodeLabel,
) -> Made
    ensures kept { Keeps known.old known.new }
    ensures result_after { stepped_of (known_of known.new) (Ok result) ≡ at_label (reached_by below.now jumps.now l) skip l (known_of known.old) }
{
    let kept = reached(below, jumps, l);
    if kept {
        known.clear();
    }
    label(skip, l, kept)
}

// A statement other than a label; a skip passes over it.
fn at_other(
    known: &mut ConstEval,
    ca: &mut [u64],
    cb: &mut [u64],
    out: &mut [u64],
    skip: Option<PcodeLabel>,
    vars: &Vars,
    least: VarId,
    turn: Turn,
    s: Stmt,
) -> Result<Made, Why>
    requires { Apt vars.now s (known_of known.old) × Rows ca.old cb.old out.old }
    ensures kept { Keeps known.old known.new }
    ensures result_after { stepped_of (known_of known.new) result ≡ at_other vars.now least skip turn s (known_of known.old) }
    ensures rows { Rows ca.new cb.new out.new }
{
    match skip {
        Some(_) => Ok(Made::nothing(skip)),
        None => {
            let x = simplify(known, ca, cb, out, vars, turn, s);
            // Lent by a name of its own: the proof then knows what it holds afterwards.
            let store = &mut *known.store;
            widen(store, vars, x, least)
        }
    }
}

// A statement, by its operation's rule: what it gives, or why it is refused.
pub fn step(
    known: &mut ConstEval,
    ca: &mut [u64],
    cb: &mut [u64],
    out: &mut [u64],
    temp: &[u64],
    below: &[u64],
    jumps: &[u64],
    skip: Option<PcodeLabel>,
    vars: &Vars,
    least: VarId,
    s: Stmt,
) -> Result<Made, Why>
    requires { Apt vars.now s (known_of known.old) × Rows ca.old cb.old out.old × (length temp.now ≡ length known.old.used.now) }
    ensures kept { Keeps known.old known.new }
    ensures result_after { stepped_of (known_of known.new) result ≡ step_by vars.now temp.now below.now jumps.now least skip (turn_of s.op) s (known_of known.old) }
    ensures rows { Rows ca.new cb.new out.new }
{
    let turn = turn_of(s.op);
    match turn {
        Turn::Label(l) => Ok(at_label(known, below, jumps, skip, l)),
        Turn::Marker => {
            // A marker, also a skipped one, forgets before its own operands are replaced.
            known.forget(temp);
            at_other(known, ca, cb, out, skip, vars, least, turn, s)
        }
        Turn::Plain | Turn::Jump(_) | Turn::Exit | Turn::Hook => {
            at_other(known, ca, cb, out, skip, vars, least, turn, s)
        }
    }
}
