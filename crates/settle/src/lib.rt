// An output's new value, and what becomes of the statement.
#![tactic(auto)]

ghost use Rattle.std.specs.Prelude.{◌≡◌, ◌*◌, Result, Ok, length};
ghost use Rattle.eval.specs.Held.{coded};
ghost use Rattle.eval.specs.Eval.{outcome_of};
ghost use Rattle.eval.specs.Operand.{bits_of};
ghost use Rattle.const_eval.specs.Known.{Fit, Within, part_of};
ghost use Rattle.const_eval.specs.State.{known_of, Able, Keeps};
ghost use Rattle.settle.specs.Settle.{named, source_of, decide_of, valued, settled_of, settlement_of};

use bit_vec::known::get_const;
use bit_vec::moves::copy;
use const_eval::known::ConstEval;
use const_eval::place::{Place, holds, put};
use eval::name::name;
use eval::operand::{Slot, operand_bits};
use eval::{EvalError, eval};
use pcode::op::Op;
use pcode::var::OutputExprId;

// What becomes of a statement with an output.
#[derive(Clone, Copy)]
pub enum Outcome {
    // Nothing better is known.
    Stays,
    // The output holds that value already.
    Unchanged,
    // The value is a known constant, or an operand's.
    Constantly(u64),
    First,
    Second,
}

// The operation's value, with its unknown bits named; `out` has the output's length.
fn compute(
    known: &ConstEval,
    ca: &[u64],
    cb: &[u64],
    out: &mut [u64],
    op: Op,
    p: Place,
    a: Slot,
    b: Slot,
) -> Result<(), EvalError>
    requires { Within (length known.now.store.now) p × (length out.old ≡ 8 * p.size) }
    ensures value { result ≡ (outcome_of coded op (bits_of known.now.store.now ca.now a) (bits_of known.now.store.now cb.now b) (part_of p known.now.store.now)).answer }
    ensures out_after { out.new ≡ named known.now.tally.next (outcome_of coded op (bits_of known.now.store.now ca.now a) (bits_of known.now.store.now cb.now b) (part_of p known.now.store.now)).cells }
{
    copy(out, p.part(known.store));
    let r = eval(
        op,
        operand_bits(known.store, ca, a),
        operand_bits(known.store, cb, b),
        out,
    );
    name(out, OutputExprId(known.tally.next));
    r
}

// A copy of the first operand, of the second, tried in that order; else the statement stays.
fn source(store: &[u64], ca: &[u64], cb: &[u64], out: &[u64], a: Slot, b: Slot) -> Outcome
    ensures { result ≡ source_of out.now (bits_of store.now ca.now a) (bits_of store.now cb.now b) }
{
    if operand_bits(store, ca, a) == out {
        Outcome::First
    } else if operand_bits(store, cb, b) == out {
        Outcome::Second
    } else {
        Outcome::Stays
    }
}

// Unchanged; else a copy of a known constant, of the first operand, of the second, tried in that order.
fn decide(
    known: &ConstEval,
    ca: &[u64],
    cb: &[u64],
    out: &[u64],
    p: Place,
    a: Slot,
    b: Slot,
) -> Outcome
    requires { Within (length known.now.store.now) p }
    ensures { result ≡ decide_of (part_of p known.now.store.now) out.now (bits_of known.now.store.now ca.now a) (bits_of known.now.store.now cb.now b) }
{
    if holds(known.store, p, out) {
        return Outcome::Unchanged;
    }
    match get_const(out) {
        Some(k) => Outcome::Constantly(k),
        None => source(known.store, ca, cb, out, a, b),
    }
}

// The value is decided against the old store, then written and entered.
fn commit(
    known: &mut ConstEval,
    ca: &[u64],
    cb: &[u64],
    out: &[u64],
    p: Place,
    a: Slot,
    b: Slot,
) -> Outcome
    requires { Able 1 (known_of known.old) × Fit (length known.old.used.now) p × (length out.now ≡ 8 * p.size) }
    ensures kept { Keeps known.old known.new }
    ensures result_after { settlement_of (known_of known.new) (Ok result) ≡ valued out.now p (bits_of known.old.store.now ca.now a) (bits_of known.old.store.now cb.now b) (known_of known.old) }
{
    let outcome = decide(known, ca, cb, out, p, a, b);
    put(known.store, p, out);
    known.tally.next += 1;
    known.note(p);
    outcome
}

// A statement with an output, whose rows are in use: what becomes of it, or the evaluator's refusal.
pub fn settle(
    known: &mut ConstEval,
    ca: &[u64],
    cb: &[u64],
    out: &mut [u64],
    op: Op,
    p: Place,
    a: Slot,
    b: Slot,
) -> Result<Outcome, EvalError>
    requires { Able 1 (known_of known.old) × Fit (length known.old.used.now) p × (length out.old ≡ 8 * p.size) }
    ensures kept { Keeps known.old known.new }
    ensures result_after { settlement_of (known_of known.new) result ≡ settled_of op p (bits_of known.old.store.now ca.now a) (bits_of known.old.store.now cb.now b) (known_of known.old) }
    ensures out_len_unchanged { length out.new ≡ length out.old }
{
    compute(known, ca, cb, out, op, p, a, b)?;
    Ok(commit(known, ca, cb, out, p, a, b))
}
