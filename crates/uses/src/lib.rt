// An operand's use, and what it becomes.
#![tactic(auto)]

ghost use Rattle.std.specs.Prelude.{◌≡◌, ◌++◌, ℕ, ◌+◌, ◌*◌, ◌<◌, ◌≤◌, length, drop};
ghost use Rattle.bit_vec.specs.Lists.{bits, codes};
ghost use Rattle.bit_vec.specs.Moves.{digits};
ghost use Rattle.bit_vec.specs.Known.{const_of};
ghost use Rattle.const_eval.specs.Known.{Fit, Within, part_of};
ghost use Rattle.const_eval.specs.State.{known_of, Able, Keeps};
ghost use Rattle.uses.specs.Operands.{place_of, node_at, given_of, becomes_of, FoundFit, Looks, InOperand, VarUse, Uses};

use bit_vec::known::get_const;
use bit_vec::moves::set_const;
use const_eval::known::ConstEval;
use const_eval::place::Place;
use eval::operand::Slot;
use pcode::var::{Operand, VarNode};
use vars::Vars;

// Where an operand's bits stand once it was used, and what it becomes.
#[derive(Clone, Copy)]
pub struct Use {
    pub slot: Slot,
    pub value: Operand,
}

// Where a part of a variable stands in the store.
pub fn place(vars: &Vars, v: VarNode) -> Place
    ensures { result ≡ place_of vars.now v }
{
    Place {
        row: vars.row(v.id),
        offset: usize::from(v.offset),
        size: usize::from(v.size),
    }
}

// The part of a variable that stands there.
fn node(vars: &Vars, p: Place) -> VarNode
    requires { Fit 112 p }
    ensures { result ≡ node_at vars.now p }
{
    VarNode {
        id: vars.ids[p.row],
        offset: p.offset as u8,
        size: p.size as u8,
    }
}

// The variable that the value map gives, else the operand itself.
fn given(vars: &Vars, found: Option<Place>, a: Operand) -> Operand
    requires { FoundFit found }
    ensures { result ≡ given_of vars.now found a }
{
    match found {
        Some(p) => Operand::Var(node(vars, p)),
        None => a,
    }
}

// By its bits, an operand becomes its known constant, else the variable that the value map gives.
fn becomes(known: &ConstEval, key: &[u64], vars: &Vars, a: Operand) -> Operand
    requires { Looks (known_of known.now) }
    ensures { result ≡ becomes_of vars.now key.now (known_of known.now) a }
{
    match get_const(key) {
        Some(k) => Operand::Const(k, a.size()),
        None => given(vars, known.lookup(key), a),
    }
}

// A constant's bits go into the row lent for them.
fn constant(known: &ConstEval, consts: &mut [u64], vars: &Vars, value: u64, size: u8) -> Operand
    requires { Looks (known_of known.now) × (8 * size ≤ length consts.old) }
    ensures value { result ≡ becomes_of vars.now (codes (digits (8 * size) value)) (known_of known.now) (Operand.Const value size) }
    ensures consts_after { consts.new ≡ codes (digits (8 * size) value) ++ drop (8 * size) consts.old }
{
    let key = &mut consts[..8 * usize::from(size)];
    set_const(key, value);
    becomes(known, key, vars, Operand::Const(value, size))
}

// What a variable becomes, by its bits in the store.
fn stored(known: &ConstEval, p: Place, vars: &Vars, v: VarNode) -> Operand
    requires { Looks (known_of known.now) × Within (length known.now.store.now) p }
    ensures { result ≡ becomes_of vars.now (part_of p known.now.store.now) (known_of known.now) (Operand.Var v) }
{
    becomes(known, p.part(known.store), vars, Operand::Var(v))
}

// A variable's first use, and what it becomes.
fn variable(known: &mut ConstEval, vars: &Vars, v: VarNode) -> Use
    requires { Able 1 (known_of known.old) × Fit (length known.old.used.now) (place_of vars.now v) }
    ensures kept { Keeps known.old known.new }
    ensures used { VarUse vars.now v (known_of known.old) result (known_of known.new) }
{
    let p = place(vars, v);
    known.first_use(p);
    let value = stored(known, p, vars, v);
    Use {
        slot: Slot::Var {
            row: p.row as u16,
            offset: v.offset,
            bytes: v.size,
        },
        value,
    }
}

// An operand's use: a constant's bits go into the row lent for them.
pub fn operand(known: &mut ConstEval, consts: &mut [u64], vars: &Vars, a: Operand) -> Use
    requires { Able 1 (known_of known.old) × InOperand (length known.old.used.now) vars.now a × (length consts.old ≡ 128) }
    ensures kept { Keeps known.old known.new }
    ensures used { Uses vars.now a (known_of known.old) consts.old result (known_of known.new) consts.new }
{
    match a {
        Operand::None => Use {
            slot: Slot::None,
            value: Operand::None,
        },
        Operand::Const(v, n) => Use {
            slot: Slot::Const { bytes: n },
            value: constant(known, consts, vars, v, n),
        },
        Operand::Var(v) => variable(known, vars, v),
    }
}
