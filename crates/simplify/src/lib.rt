// A statement other than a label, without its widening.
#![tactic(auto)]

ghost use Rattle.std.specs.Prelude.{◌≡◌, ℕ, ◌+◌, ◌*◌, ◌<◌, ◌≤◌, Result, Ok, length};
ghost use Rattle.pcode.specs.Var.{pick};
ghost use Rattle.pcode.specs.Rules.{side_effects};
ghost use Rattle.bit_vec.specs.Lists.{bits};
ghost use Rattle.bit_vec.specs.Known.{const_of};
ghost use Rattle.eval.specs.Operand.{bits_of};
ghost use Rattle.const_eval.specs.Known.{Fit};
ghost use Rattle.const_eval.specs.State.{known_of, Able, Keeps};
ghost use Rattle.uses.specs.Operands.{place_of};
ghost use Rattle.simplify.specs.Simplify.{change_of, simple_by, write_of, plain_of, hook_of, simplify_of, InOutput, Apt, Prepares, Rows};

use bit_vec::known::get_const;
use const_eval::known::ConstEval;
use eval::EvalError;
use eval::operand::{Slot, operand_bits};
use pcode::block::Stmt;
use pcode::var::{Operand, VarNode};
use settle::{Outcome, settle};
use uses::{operand, place};
use vars::Vars;
use widen::simple::{Simple, exit, jump};
use widen::turn::Turn;

// A statement with side effects stays.
fn unless(effects: bool, s: Stmt, x: Simple) -> Simple
    ensures { result ≡ pick effects (Simple.Stays s) x }
{
    if effects { Simple::Stays(s) } else { x }
}

// By what was decided; `s` has its operands replaced.
fn outcome(d: Result<Outcome, EvalError>, o: VarNode, s: Stmt) -> Result<Simple, EvalError>
    ensures { result ≡ simple_by d (side_effects s.op) o s }
{
    let effects = s.op.has_side_effects();
    match d? {
        Outcome::Stays => Ok(Simple::Stays(s)),
        Outcome::Unchanged => Ok(unless(effects, s, Simple::Dropped)),
        Outcome::Constantly(k) => {
            let value = Operand::Const(k, o.size);
            Ok(unless(effects, s, Simple::Copies(o, value)))
        }
        Outcome::First => Ok(unless(effects, s, Simple::Copies(o, s.first))),
        Outcome::Second => Ok(unless(effects, s, Simple::Copies(o, s.second))),
    }
}

// A statement with an output: `s` has its operands replaced.
fn write(
    known: &mut ConstEval,
    ca: &[u64],
    cb: &[u64],
    out: &mut [u64],
    vars: &Vars,
    s: Stmt,
    o: VarNode,
    a: Slot,
    b: Slot,
) -> Result<Simple, EvalError>
    requires { Able 2 (known_of known.old) × Fit (length known.old.used.now) (place_of vars.now o) × (length out.old ≡ 128) }
    ensures kept { Keeps known.old known.new }
    ensures result_after { change_of (known_of known.new) result ≡ write_of vars.now (λ st. bits_of st ca.now a) (λ st. bits_of st cb.now b) o s (known_of known.old) }
    ensures out_len { length out.new ≡ 128 }
{
    let p = place(vars, o);
    known.first_use(p);
    let value = &mut out[..8 * p.size];
    let d = settle(known, ca, cb, value, s.op, p, a, b);
    outcome(d, o, s)
}

// A hook clears what is known; its output counts as used afterwards.
fn hook(known: &mut ConstEval, vars: &Vars, s: Stmt) -> Simple
    requires { Able 1 (known_of known.old) × InOutput (length known.old.used.now) vars.now s.output }
    ensures kept { Keeps known.old known.new }
    ensures result_after { change_of (known_of known.new) (Ok result) ≡ hook_of vars.now s.output s (known_of known.old) }
{
    known.clear();
    match s.output {
        None => {}
        Some(o) => known.first_use(place(vars, o)),
    }
    Simple::Stays(s)
}

// A statement without output stays; one with an output is evaluated.
fn plain(
    known: &mut ConstEval,
    ca: &[u64],
    cb: &[u64],
    out: &mut [u64],
    vars: &Vars,
    s: Stmt,
    a: Slot,
    b: Slot,
) -> Result<Simple, EvalError>
    requires { Able 2 (known_of known.old) × InOutput (length known.old.used.now) vars.now s.output × (length out.old ≡ 128) }
    ensures kept { Keeps known.old known.new }
    ensures result_after { change_of (known_of known.new) result ≡ plain_of vars.now (λ st. bits_of st ca.now a) (λ st. bits_of st cb.now b) s.output s (known_of known.old) }
    ensures out_len { length out.new ≡ 128 }
{
    match s.output {
        None => Ok(Simple::Stays(s)),
        Some(o) => write(known, ca, cb, out, vars, s, o, a, b),
    }
}

// The statement with what its operands become, and where their bits stand.
#[derive(Clone, Copy)]
struct Prepared {
    stmt: Stmt,
    first: Slot,
    second: Slot,
}

// Both operands' uses.
fn prepare(known: &mut ConstEval, ca: &mut [u64], cb: &mut [u64], vars: &Vars, s: Stmt) -> Prepared
    requires { Apt vars.now s (known_of known.old) × (length ca.old ≡ 128) × (length cb.old ≡ 128) }
    ensures kept { Keeps known.old known.new }
    ensures prepared { Prepares vars.now s (known_of known.old) ca.old cb.old result (known_of known.new) ca.new cb.new }
{
    let x = operand(known, ca, vars, s.first);
    let y = operand(known, cb, vars, s.second);
    Prepared {
        stmt: Stmt::new(s.op, s.output, x.value, y.value),
        first: x.slot,
        second: y.slot,
    }
}

// The known constant of an operand.
fn constant(known: &ConstEval, consts: &[u64], a: Slot) -> Option<u64>
    ensures { result ≡ const_of (bits (bits_of known.now.store.now consts.now a)) }
{
    get_const(operand_bits(known.store, consts, a))
}

// A statement other than a label, by its operation's rule: what it comes to, or the evaluator's refusal.
pub fn simplify(
    known: &mut ConstEval,
    ca: &mut [u64],
    cb: &mut [u64],
    out: &mut [u64],
    vars: &Vars,
    turn: Turn,
    s: Stmt,
) -> Result<Simple, EvalError>
    requires { Apt vars.now s (known_of known.old) × Rows ca.old cb.old out.old }
    ensures kept { Keeps known.old known.new }
    ensures result_after { change_of (known_of known.new) result ≡ simplify_of vars.now turn s (known_of known.old) }
    ensures rows { Rows ca.new cb.new out.new }
{
    let x = prepare(known, ca, cb, vars, s);
    let (r, a, b) = (x.stmt, x.first, x.second);
    match turn {
        Turn::Plain | Turn::Marker | Turn::Label(_) => plain(known, ca, cb, out, vars, r, a, b),
        Turn::Jump(l) => Ok(jump(constant(known, ca, a), l, r)),
        Turn::Exit => Ok(exit(constant(known, ca, a), r)),
        Turn::Hook => Ok(hook(known, vars, r)),
    }
}
