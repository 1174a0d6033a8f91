// Operations by their names.
ghost use Rattle.std.specs.Prelude.{◌≡◌};
ghost use Rattle.record.specs.Names.{code_read};

use pcode::name::name;

// The code of the operation with that name, where one has it.
pub fn code(s: &[u8]) -> Option<usize>
    ensures { result ≡ code_read s.now }
{
    for k in 0..72 {
        if name(k) == s {
            return Some(k);
        }
    }
    None
}
