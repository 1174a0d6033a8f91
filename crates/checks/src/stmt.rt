// Refusals 3, 4 and 5: one statement's variables, operands and sizes.
ghost use Rattle.std.specs.Prelude.{◌≡◌};
ghost use Rattle.checks.specs.Statements.{good_size, good_node, good_operand, there, good_parts, met_needs, good_sizes, stmt_check, checks_from};

use pcode::block::Stmt;
use pcode::refusal::Refusal;
use pcode::var::{Operand, VarId, VarNode, output_size};

// A size from 1 to 16.
#[tactic(auto, unfolding(crate::specs::Statements::good_size))]
fn good_size(n: u8) -> bool
    ensures { result ≡ good_size n }
{
    0 < n && n <= Operand::MAX_BYTES
}

// A part of a variable: an id other than 0, a good size, and no byte past the 16th.
#[tactic(auto, unfolding(crate::specs::Statements::good_node))]
fn good_node(v: VarNode) -> bool
    ensures { result ≡ good_node v }
{
    if v.id == VarId(0) {
        return false;
    }
    if !good_size(v.size) {
        return false;
    }
    v.offset as u16 + v.size as u16 <= Operand::MAX_BYTES as u16
}

fn good_operand(a: Operand) -> bool
    ensures { result ≡ good_operand a }
{
    match a {
        Operand::None => true,
        Operand::Const(_, n) => good_size(n),
        Operand::Var(v) => good_node(v),
    }
}

fn is_there(a: Operand) -> bool
    ensures { result ≡ there a }
{
    match a {
        Operand::None => false,
        Operand::Const(_, _) => true,
        Operand::Var(_) => true,
    }
}

// 3: its variables and constants are in range.
#[tactic(auto, unfolding(crate::specs::Statements::good_parts))]
fn good_parts(s: Stmt) -> bool
    ensures { result ≡ good_parts s }
{
    good_operand(Operand::from(s.output)) && good_operand(s.first) && good_operand(s.second)
}

// 4: no operand or output is missing or not allowed.
#[tactic(auto, unfolding(crate::specs::Statements::met_needs))]
fn met_needs(s: Stmt) -> bool
    ensures { result ≡ met_needs s }
{
    let op = s.op;
    op.output_need().met(is_there(Operand::from(s.output)))
        && op.first_need().met(is_there(s.first))
        && op.second_need().met(is_there(s.second))
}

// 5: its size rule is met.
#[tactic(auto, unfolding(crate::specs::Statements::good_sizes))]
fn good_sizes(s: Stmt) -> bool
    ensures { result ≡ good_sizes s }
{
    s.op.size_rule()
        .met(s.first.size(), s.second.size(), output_size(s.output))
}

// All three on one statement, which stands at `i`.
#[tactic(auto, unfolding(crate::specs::Statements::stmt_check))]
fn statement(i: usize, s: Stmt) -> Result<(), Refusal>
    ensures { result ≡ stmt_check i s }
{
    if !good_parts(s) {
        return Err(Refusal::BadVariable(i));
    }
    if !met_needs(s) {
        return Err(Refusal::BadOperand(i));
    }
    if !good_sizes(s) {
        return Err(Refusal::BadSizes(i));
    }
    Ok(())
}

// The statements, one after the other.
pub fn statements(stmts: &[Stmt]) -> Result<(), Refusal>
    ensures { result ≡ checks_from 0 stmts.now }
{
    for (i, s) in stmts.iter().enumerate() {
        statement(i, *s)?;
    }
    Ok(())
}
