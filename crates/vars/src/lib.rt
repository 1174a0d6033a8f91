// The table of a block's variables, in the order of first naming: output, first operand, second operand.
#![tactic(auto)]

ghost use Rattle.std.specs.Prelude.{◌≡◌, [], ◌<◌, ◌≤◌, length, take, drop};
ghost use Rattle.vars.specs.Vars.{ids_in, ids_of, row_of, held_ids, join_id, join_ids, table_of, cap_of, named_of, Sits, if_fits, told};

use pcode::block::Stmt;
use pcode::var::{Operand, VarId};

// The first `count` of `ids` are held; the others are 0, which names no variable.
#[derive(Clone, Copy)]
pub struct Vars {
    pub ids: [VarId; 112],
    pub count: usize,
}

impl Vars {
    // The table without variables.
    fn none() -> Vars
        ensures { result ≡ table_of [] }
    {
        Vars {
            ids: [VarId(0); 112],
            count: 0,
        }
    }

    // The ids that it holds.
    pub fn held(&self) -> &[VarId]
        ensures { result.now ≡ held_ids self.now }
    {
        let n = self.count;
        if n < 112 { &self.ids[..n] } else { &self.ids }
    }

    // The row of an id; how many ids are held where it is not among them.
    pub fn row(&self, id: VarId) -> usize
        ensures { result ≡ row_of (held_ids self.now) id }
    {
        let ids = self.held();
        for (i, x) in ids.iter().enumerate() {
            if *x == id {
                return i;
            }
        }
        ids.len()
    }

    // One id more, unless it is held; whether there was room for it.
    fn join(&mut self, most: usize, id: VarId) -> bool
        requires { Sits most self.old }
        ensures { told result self.new ≡ if_fits most (join_id (held_ids self.old) id) }
    {
        let n = self.count;
        if self.row(id) < n {
            return true;
        }
        if most <= n {
            return false;
        }
        self.ids[n] = id;
        self.count = n + 1;
        true
    }

    // An operand's id.
    fn join_operand(&mut self, most: usize, a: Operand) -> bool
        requires { Sits most self.old }
        ensures { told result self.new ≡ if_fits most (join_ids (held_ids self.old) (ids_in a)) }
    {
        match a {
            Operand::None => true,
            Operand::Const(_, _) => true,
            Operand::Var(v) => self.join(most, v.id),
        }
    }

    // The ids of a statement.
    fn join_stmt(&mut self, most: usize, s: Stmt) -> bool
        requires { Sits most self.old }
        ensures { told result self.new ≡ if_fits most (join_ids (held_ids self.old) (ids_of s)) }
    {
        if !self.join_operand(most, Operand::from(s.output)) {
            return false;
        }
        if !self.join_operand(most, s.first) {
            return false;
        }
        self.join_operand(most, s.second)
    }
}

// The variables of the statements before `place`, the first statement that names one beyond the limit.
#[derive(Clone, Copy)]
pub struct Naming {
    pub vars: Vars,
    pub place: usize,
}

// The variables of a list of statements, at most `most` and at most 112.
pub fn named(stmts: &[Stmt], most: usize) -> Naming
    ensures { result ≡ named_of (cap_of most) stmts.now }
{
    let cap = most.min(112);
    let mut vars = Vars::none();
    for (i, s) in stmts.iter().enumerate() {
        let before = vars;
        if !vars.join_stmt(cap, *s) {
            return Naming {
                vars: before,
                place: i,
            };
        }
    }
    Naming {
        vars,
        place: stmts.len(),
    }
}
