// The variables that outlive their stretch: lasting ones, and those read before any write since the last label.
ghost use Rattle.std.specs.Prelude.{◌≡◌, not, ◌&&◌, ◌≤◌, false, length, get_or};
ghost use Rattle.live_tables.specs.Tables.{FlagsAre};
ghost use Rattle.dead_store.specs.Walks.{first_reads, ReadFirst, Persisting};

use live_tables::rows::{Rows, edge_of, is_var};
use live_tables::tables::{no_flags, note};
use pcode::block::{Marks, Stmt};
use pcode::var::Operand;
use vars::Vars;

// Whether a variable that is there was not written yet.
fn unwritten(written: &[bool; 112], row: usize, there: bool) -> bool
    ensures { result ≡ (there && not (get_or written.now row false)) }
{
    there && (112 <= row || !written[row])
}

// A statement's operands that were not written yet.
fn note_reads(live: &mut [bool; 112], written: &[bool; 112], s: Stmt, r: Rows)
    ensures { FlagsAre live.new (first_reads s r written.now live.old) }
{
    let first = unwritten(written, r.first, is_var(s.first));
    note(live, r.first, first);
    let second = unwritten(written, r.second, is_var(s.second));
    note(live, r.second, second);
}

// The ids read before any write since the last label.
fn live_tmps(stmts: &[Stmt], rows: &[Rows; 129]) -> [bool; 112]
    requires { length stmts.now ≤ 129 }
    ensures { ReadFirst stmts.now rows.now result }
{
    let mut live = no_flags();
    let mut written = no_flags();
    for (i, s) in stmts.iter().enumerate() {
        if edge_of(s.op).is_label() {
            written = no_flags();
            continue;
        }
        note_reads(&mut live, &written, *s, rows[i]);
        note(
            &mut written,
            rows[i].output,
            is_var(Operand::from(s.output)),
        );
    }
    live
}

// Which variables are kept where nothing overwrites them before their stretch ends.
pub fn persists(stmts: &[Stmt], rows: &[Rows; 129], vars: &Vars, marks: Marks) -> [bool; 112]
    requires { length stmts.now ≤ 129 }
    ensures { Persisting marks vars.now stmts.now rows.now result }
{
    let live = live_tmps(stmts, rows);
    let mut out = no_flags();
    for (i, id) in vars.ids.iter().enumerate() {
        out[i] = marks.lasting(*id) || live[i];
    }
    out
}
