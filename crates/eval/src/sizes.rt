// 01's size rules, on counts of bits.
ghost use Rattle.std.specs.Prelude.{◌≡◌};
ghost use Rattle.eval.specs.Sizes.{fits_bits};

use pcode::op::SizeRule;

// Whether operands of `a` and `b` bits and an output of `o` bits meet a rule.
// `SizeRule::met` is this for counts of bytes, which are u8: one generic function would take the type, the unit and a conversion of k.
pub fn fits(rule: SizeRule, a: usize, b: usize, o: usize) -> bool
    ensures { result ≡ fits_bits rule a b o }
{
    match rule {
        SizeRule::Any => true,
        SizeRule::FirstIsOutput => a == o,
        SizeRule::FirstFitsOutput => a <= o,
        SizeRule::AllSame => a == o && b == o,
        SizeRule::OperandsSame => a == b,
        SizeRule::AtMostFirst(k) => 8 * (k as usize) <= a,
    }
}
