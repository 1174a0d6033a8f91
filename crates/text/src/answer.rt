// What was read so far, and how one record more is accepted.
ghost use Rattle.std.specs.Prelude.{◌≡◌, ℕ, OnErr};
ghost use Rattle.text.specs.Reading.{empty_read, read_after, accepted_mark, accepted_stmt, accepted};

use pcode::block::{Block, Marks, Stmt};
use pcode::refusal::Refusal;
use pcode::var::VarId;
use record::record::Record;

// The statements and marks of the lines read so far.
#[derive(Clone, Copy)]
pub struct Read {
    pub block: Block,
    pub marks: Marks,
}

impl Read {
    // Nothing yet.
    pub fn new() -> Read
        ensures { result ≡ empty_read }
    {
        Read {
            block: Block::new(),
            marks: Marks::none(),
        }
    }

    // One mark more; a 17th, or one after a statement, is bad.
    fn mark(&mut self, id: VarId, line: usize) -> Result<(), Refusal>
        ensures after { read_after result self.new ≡ accepted_mark line self.old id }
        ensures unchanged { OnErr result (self.new ≡ self.old) }
    {
        let at = self.marks.count;
        if 0 < self.block.count || 16 <= at {
            return Err(Refusal::BadLine(line));
        }
        self.marks.ids[at] = id;
        self.marks.count = at + 1;
        Ok(())
    }

    // One statement more, up to `limit`; in place, so that no block is copied for a line.
    fn statement(&mut self, s: Stmt, limit: usize) -> Result<(), Refusal>
        ensures after { read_after result self.new ≡ accepted_stmt limit self.old s }
        ensures unchanged { OnErr result (self.new ≡ self.old) }
    {
        let n = self.block.count;
        if limit <= n {
            return Err(Refusal::TooManyStatements(n));
        }
        self.block.add(s);
        Ok(())
    }

    // One record more, which stands in that line.
    pub fn accept(&mut self, r: Option<Record>, line: usize, limit: usize) -> Result<(), Refusal>
        ensures after { read_after result self.new ≡ accepted limit line self.old r }
        ensures unchanged { OnErr result (self.new ≡ self.old) }
    {
        match r {
            None => Err(Refusal::BadLine(line)),
            Some(Record::Mark(id)) => self.mark(id, line),
            Some(Record::Statement(s)) => self.statement(s, limit),
        }
    }
}
