// The first pass over a block: a statement at a time, from the first to the last.
#![tactic(auto)]

ghost use Rattle.std.specs.Prelude.{◌≡◌, ◌+◌, ◌<◌, ◌≤◌, length, take, drop, set};
ghost use Rattle.pcode.specs.Block.{blank_stmt};
ghost use Rattle.vars.specs.Vars.{ids_in, ids_of};
ghost use Rattle.const_eval.specs.State.{known_of, Keeps};
ghost use Rattle.widen.specs.Turn.{turn_of};
ghost use Rattle.simplify.specs.Simplify.{Apt, Rows};
ghost use Rattle.const_step.specs.Labels.{target_of};
ghost use Rattle.const_step.specs.Steps.{stepped_of, step_by};
ghost use Rattle.const_prop.specs.Pass.{least_from, all_ids, zero_var, temporary_flag, temporary_flags, added_to, walk_from, start_walk, Begins, zeros, propagated_of, Stands};

use const_eval::known::{ConstEval, Tally};
use const_step::label::{end, target, targets};
use const_step::step::step;
use pcode::block::{Block, Marks, Stmt};
use pcode::refusal::Refusal;
use pcode::var::{Operand, PcodeLabel, VarId};
use vars::Vars;
use widen::widen::{Made, Why};

// The least of an id and an operand's.
fn least_operand(least: VarId, a: Operand) -> VarId
    ensures { result ≡ least_from least (ids_in a) }
{
    match a {
        Operand::None | Operand::Const(_, _) => least,
        Operand::Var(v) => least.least(v.id),
    }
}

// The least of an id and a statement's ids.
fn least_stmt(least: VarId, s: Stmt) -> VarId
    ensures { result ≡ least_from least (ids_of s) }
{
    let x = least_operand(least, Operand::from(s.output));
    let y = least_operand(x, s.first);
    least_operand(y, s.second)
}

// The least of 0 and the ids of some statements.
fn least_id(stmts: &[Stmt]) -> VarId
    ensures { result ≡ least_from zero_var (all_ids stmts.now) }
{
    let mut least = VarId(0);
    for s in stmts {
        least = least_stmt(least, *s);
    }
    least
}

// 1 for a temporary's row, 0 for a lasting variable's.
fn temporary(marks: Marks, id: VarId) -> u64
    ensures { result ≡ temporary_flag marks id }
{
    if marks.lasting(id) { 0 } else { 1 }
}

// Which rows are temporaries'.
fn temporaries(ids: &[VarId], marks: Marks, temp: &mut [u64])
    requires { length temp.old ≤ length ids.now }
    ensures { temp.new ≡ temporary_flags marks (take (length temp.old) ids.now) }
{
    for (i, t) in temp.iter_mut().enumerate() {
        *t = temporary(marks, ids[i]);
    }
}

// One statement, with the targets of the statements below it and of the result so far.
fn advance(
    known: &mut ConstEval,
    ca: &mut [u64],
    cb: &mut [u64],
    out: &mut [u64],
    temp: &[u64],
    below: &[u64],
    jumps: &[u64],
    skip: Option<PcodeLabel>,
    vars: &Vars,
    least: VarId,
    s: Stmt,
    i: usize,
    k: usize,
) -> Result<Made, Why>
    requires apt { Apt vars.now s (known_of known.old) × Rows ca.old cb.old out.old × (length temp.now ≡ length known.old.used.now) }
    requires in_range { (i < length below.now) × (k ≤ length jumps.now) }
    ensures kept { Keeps known.old known.new }
    ensures result_after { stepped_of (known_of known.new) result ≡ step_by vars.now temp.now (drop (i + 1) below.now) (take k jumps.now) least skip (turn_of s.op) s (known_of known.old) }
    ensures rows { Rows ca.new cb.new out.new }
{
    step(
        known,
        ca,
        cb,
        out,
        temp,
        &below[i + 1..],
        &jumps[..k],
        skip,
        vars,
        least,
        s,
    )
}

// What a step gives stands after the result so far, and its targets after the result's.
fn add(b: &mut Block, jumps: &mut [u64], m: Made)
    requires room { (b.old.count + 2 ≤ 129) × (b.old.count + 2 ≤ length jumps.old) }
    requires small { m.count ≤ 2 }
    ensures result_after { b.new ≡ added_to b.old m }
    ensures jumps_after { jumps.new ≡ set (set jumps.old b.old.count (target_of m.first)) (b.old.count + 1) (target_of m.second) }
{
    let k = b.count;
    jumps[k] = target(m.first);
    jumps[k + 1] = target(m.second);
    b.stmts[k] = m.first;
    b.stmts[k + 1] = m.second;
    b.count = k + m.count;
}

// A statement at a time, from the first to the last.
fn walk(
    known: &mut ConstEval,
    ca: &mut [u64],
    cb: &mut [u64],
    out: &mut [u64],
    temp: &[u64],
    below: &[u64],
    jumps: &mut [u64],
    stmts: &[Stmt],
    vars: &Vars,
) -> Result<Block, Refusal>
    requires { Begins (known_of known.old) ca.old cb.old out.old temp.now below.now jumps.old stmts.now vars.now }
    ensures { result ≡ walk_from (record { vars = vars.now; temp = temp.now; block = stmts.now }) 0 start_walk stmts.now }
{
    let mut result = Block::new();
    let mut least = least_id(stmts);
    let mut skip = None;
    for (i, s) in stmts.iter().enumerate() {
        let k = result.count;
        let x = advance(
            known, ca, cb, out, temp, below, jumps, skip, vars, least, *s, i, k,
        );
        let made = match x {
            Ok(made) => made,
            Err(why) => return Err(why.refusal(i)),
        };
        add(&mut result, jumps, made);
        least = least_stmt(least_stmt(least, made.first), made.second);
        skip = made.skip;
    }
    let last = end(skip);
    let k = result.count;
    result.stmts[k] = last.first;
    result.count = k + last.count;
    Ok(result)
}

// A row of zeros.
fn zeros<const N: usize>() -> [u64; N]
    ensures { result ≡ zeros N }
{
    [0; N]
}

// The first pass on a block that its checks accept: the walk, with its rooms.
pub fn const_prop(stmts: &[Stmt], vars: &Vars, marks: Marks) -> Result<Block, Refusal>
    requires { Stands stmts.now vars.now }
    ensures { result ≡ propagated_of vars.now marks stmts.now }
{
    let mut store = zeros::<6144>();
    let mut map = zeros::<33536>();
    let mut used = zeros::<48>();
    let mut temp = zeros::<48>();
    let mut ca = zeros::<128>();
    let mut cb = zeros::<128>();
    let mut out = zeros::<128>();
    let mut below = zeros::<128>();
    let mut jumps = zeros::<128>();
    temporaries(&vars.ids, marks, &mut temp);
    targets(stmts, &mut below);
    let mut known = ConstEval {
        store: &mut store,
        used: &mut used,
        map: &mut map,
        tally: Tally { count: 0, next: 0 },
    };
    walk(
        &mut known,
        &mut ca,
        &mut cb,
        &mut out,
        &temp,
        &below[..stmts.len()],
        &mut jumps,
        stmts,
        vars,
    )
}
