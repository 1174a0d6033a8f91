// Which statements are dead: a walk from the back over three tables.
ghost use Rattle.std.specs.Prelude.{◌≡◌, ◌++◌, ◌≤◌, length, drop};
ghost use Rattle.vars.specs.Vars.{held_ids, vars_of};
ghost use Rattle.dead_store.specs.Walks.{Walks, none_dead};
ghost use Rattle.dead_store.specs.Stays.{dead_of, judge, persists};

use crate::live_tmps;
use live_tables::rows::{Rows, block_rows};
use live_tables::tables::Tables;
use pcode::block::{Marks, Stmt};
use vars::Vars;

fn walk(stmts: &[Stmt], rows: &[Rows; 129], persists: &[bool; 112]) -> [bool; 129]
    requires { length stmts.now ≤ 129 }
    ensures { Walks stmts.now rows.now persists.now result }
{
    let mut tables = Tables::new();
    let mut dead = [false; 129];
    for i in (0..stmts.len()).rev() {
        dead[i] = !tables.step(persists, stmts[i], rows[i]);
    }
    dead
}

// Which of the statements are dead.
pub fn get_dead_code(stmts: &[Stmt], vars: &Vars, marks: Marks) -> [bool; 129]
    requires { (length stmts.now ≤ 129) × (held_ids vars.now ≡ vars_of stmts.now) × (length (vars_of stmts.now) ≤ 112) }
    ensures { result ≡ dead_of (judge (persists marks stmts.now) stmts.now) ++ drop (length stmts.now) none_dead }
{
    let rows = block_rows(stmts, vars);
    let keep = live_tmps::persists(stmts, &rows, vars, marks);
    walk(stmts, &rows, &keep)
}
