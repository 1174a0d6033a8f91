// One step of the walk from the back: the tables before a statement, from those after it.
ghost use Rattle.std.specs.Prelude.{◌≡◌, Bool, not, ◌&&◌, ◌||◌, ℕ};
ghost use Rattle.live_tables.specs.Rows.{part_of};
ghost use Rattle.live_tables.specs.Tables.{TableIs, at, view, Bounded, Stepped, stays_at};

use crate::rows::{self, Edge, Rows};
use crate::tables::{Tables, add_to, subtract_from};
use live_bytes::LiveBytes;
use pcode::block::Stmt;
use pcode::var::{Operand, VarNode};

// A kept statement's write meets what is read below it.
fn meet(live: bool, reads: &mut [LiveBytes; 112], row: usize, var: VarNode)
    ensures { TableIs reads.new (λ i k. not (live && at row var i k) && view reads.old i k) }
{
    if live {
        subtract_from(reads, row, var);
    }
}

// A kept statement's operand wants a write above.
fn mark_as_read(live: bool, reads: &mut [LiveBytes; 112], row: usize, a: Operand)
    ensures { TableIs reads.new (λ i k. (live && at row (part_of a) i k) || view reads.old i k) }
{
    if live {
        add_to(reads, row, rows::part(a));
    }
}

impl Tables {
    // What stands behind the end of a stretch or of an instruction.
    fn boundary(&mut self, edge: Edge)
        ensures { Bounded edge self.old self.new }
    {
        match edge {
            Edge::Inside => {}
            Edge::Branch | Edge::Label => self.end_stretch(false),
            Edge::Marker => self.end_stretch(true),
        }
    }

    // Whether a statement stays, by the tables after its edge.
    fn stays(&self, persists: &[bool; 112], s: Stmt, row: usize) -> bool
        ensures { result ≡ stays_at persists.now self.now s row }
    {
        s.op.has_side_effects() || self.live_at(persists, row, rows::part(Operand::from(s.output)))
    }

    // The tables before a statement, from those after it; whether it is live.
    pub fn step(&mut self, persists: &[bool; 112], s: Stmt, r: Rows) -> bool
        ensures { Stepped persists.now s r self.old self.new result }
    {
        self.boundary(rows::edge_of(s.op));
        let live = self.stays(persists, s, r.output);
        let v = rows::part(Operand::from(s.output));
        add_to(&mut self.last, r.output, v);
        meet(live, &mut self.reads, r.output, v);
        mark_as_read(live, &mut self.reads, r.first, s.first);
        mark_as_read(live, &mut self.reads, r.second, s.second);
        live
    }
}
