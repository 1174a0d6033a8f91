// The statements that go into the result, widened where 01 says so.
ghost use Rattle.std.specs.Prelude.{◌≡◌, ℕ, ◌+◌, ◌*◌, ◌<◌, ◌≤◌, length};
ghost use Rattle.const_eval.specs.Known.{Within};
ghost use Rattle.widen.specs.Widen.{refusal_of, why_of, nothing_m, one_m, two_m, zeros_above, is_power, widened_of, lowest, copied_of, kept_of, stays_of, made_of, InRows, InSimple};

use crate::simple::Simple;
use bit_vec::known::known_trailing_zeros;
use const_eval::place::Place;
use eval::EvalError;
use pcode::block::Stmt;
use pcode::op::{OneOp, Op};
use pcode::refusal::Refusal;
use pcode::var::{Operand, Output, PcodeLabel, VarId, VarNode};
use uses::place;
use vars::Vars;

// Why a statement is refused.
#[derive(Clone, Copy)]
pub enum Why {
    TooFar,
    BadSizes,
    NoTemporary,
}

impl Why {
    // The refusal of the statement at `place`: 8, 5 or 9.
    pub fn refusal(self, place: usize) -> Refusal
        ensures { result ≡ refusal_of self place }
    {
        match self {
            Why::TooFar => Refusal::RotateTooFar(place),
            Why::BadSizes => Refusal::BadSizes(place),
            Why::NoTemporary => Refusal::NoTemporary(place),
        }
    }
}

impl From<EvalError> for Why {
    ghost from_gives = { λ e w. w ≡ why_of e };

    fn from(e: EvalError) -> Why {
        match e {
            EvalError::RotateTooFar => Why::TooFar,
            EvalError::BadSizes => Why::BadSizes,
        }
    }
}

// What a statement gives: the first `count` of two statements, blank where there is none, and the label that a skip looks for.
// Two fields, and no list of two with its length: a step stores both after the result so far, and moves on by the count.
#[derive(Clone, Copy)]
pub struct Made {
    pub count: usize,
    pub first: Stmt,
    pub second: Stmt,
    pub skip: Option<PcodeLabel>,
}

impl Made {
    pub fn nothing(skip: Option<PcodeLabel>) -> Made
        ensures { result ≡ nothing_m skip }
    {
        Made {
            count: 0,
            first: Stmt::blank(),
            second: Stmt::blank(),
            skip,
        }
    }

    pub fn one(s: Stmt) -> Made
        ensures { result ≡ one_m s }
    {
        Made {
            count: 1,
            first: s,
            second: Stmt::blank(),
            skip: None,
        }
    }

    pub fn two(first: Stmt, second: Stmt) -> Made
        ensures { result ≡ two_m first second }
    {
        Made {
            count: 2,
            first,
            second,
            skip: None,
        }
    }
}

// How many whole zero bytes are known directly above a part.
fn zeros_above(store: &[u64], p: Place) -> usize
    requires { Within (length store.now) p }
    ensures { result ≡ zeros_above store.now p }
{
    let start = 128 * p.row + 8 * (p.offset + p.size);
    known_trailing_zeros(&store[start..128 * p.row + 128]) / 8
}

// The powers of two that a widened size can be.
fn is_power(n: usize) -> bool
    ensures { result ≡ is_power n }
{
    matches!(n, 2 | 4 | 8 | 16)
}

// The widened size, if there is one. z is the longest run of zero bytes, and no smaller one is tried.
fn widened(store: &[u64], p: Place) -> Option<u8>
    requires { Within (length store.now) p }
    ensures { result ≡ widened_of store.now p }
{
    let z = zeros_above(store, p);
    let w = p.size + z;
    if p.offset == 0 && z != 0 && is_power(w) {
        Some(w as u8)
    } else {
        None
    }
}

// The lowest `w` bytes of an output's variable.
fn lowest(o: VarNode, w: u8) -> Output
    ensures { result ≡ lowest o w }
{
    Some(VarNode {
        id: o.id,
        offset: 0,
        size: w,
    })
}

// A known value, written at its own size or widened.
fn copied(o: VarNode, w: Option<u8>, value: Operand) -> Stmt
    ensures { result ≡ copied_of w o value }
{
    let Some(w) = w else {
        return Stmt::new(Op::One(OneOp::Copy), Some(o), value, Operand::None);
    };
    let output = lowest(o, w);
    match value {
        Operand::Const(k, _) => Stmt::new(
            Op::One(OneOp::Copy),
            output,
            Operand::Const(k, w),
            Operand::None,
        ),
        _ => Stmt::new(Op::One(OneOp::ZeroExtend), output, value, Operand::None),
    }
}

// Another value: as it is, or to an added temporary and a `ZeroExtend`; the temporary is one below `least`.
fn kept(s: Stmt, o: VarNode, w: Option<u8>, least: VarId) -> Result<Made, Why>
    ensures { result ≡ kept_of w s o least }
{
    let Some(w) = w else {
        return Ok(Made::one(s));
    };
    let id = least.below();
    if id == least {
        return Err(Why::NoTemporary);
    }
    Ok(Made::two(
        Stmt::new(
            s.op,
            Some(VarNode {
                id,
                offset: 0,
                size: o.size,
            }),
            s.first,
            s.second,
        ),
        Stmt::new(
            Op::One(OneOp::ZeroExtend),
            lowest(o, w),
            Operand::var(id, 0, o.size),
            Operand::None,
        ),
    ))
}

// A statement that stays.
fn stays(store: &[u64], vars: &Vars, s: Stmt, least: VarId) -> Result<Made, Why>
    requires { InRows (length store.now) vars.now s.output }
    ensures { result ≡ stays_of store.now vars.now s.output s least }
{
    match s.output {
        None => Ok(Made::one(s)),
        Some(o) => kept(s, o, widened(store, place(vars, o)), least),
    }
}

// What a statement gives to the result, by what it comes to.
pub fn widen(
    store: &[u64],
    vars: &Vars,
    x: Result<Simple, EvalError>,
    least: VarId,
) -> Result<Made, Why>
    requires { InSimple (length store.now) vars.now x }
    ensures { result ≡ made_of store.now vars.now x least }
{
    match x? {
        Simple::Dropped => Ok(Made::nothing(None)),
        Simple::Skips(l) => Ok(Made::nothing(Some(l))),
        Simple::Copies(o, value) => {
            Ok(Made::one(copied(o, widened(store, place(vars, o)), value)))
        }
        Simple::Stays(s) => stays(store, vars, s, least),
    }
}
