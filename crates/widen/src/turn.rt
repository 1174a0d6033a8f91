// Which of the first pass's rules an operation falls under.
ghost use Rattle.std.specs.Prelude.{◌≡◌};
ghost use Rattle.widen.specs.Turn.{turn_of, turn_call};

use pcode::op::{CallOp, Op};
use pcode::var::PcodeLabel;

// A label and a branch come with their label; plain operations have no rule of their own.
#[derive(Clone, Copy)]
pub enum Turn {
    Plain,
    Marker,
    Label(PcodeLabel),
    Jump(PcodeLabel),
    Exit,
    Hook,
}

// `Hook` and `HookIf` are hooks.
fn turn_call(op: CallOp) -> Turn
    ensures { result ≡ turn_call op }
{
    match op {
        CallOp::Hook | CallOp::HookIf => Turn::Hook,
        CallOp::Arg | CallOp::PcodeOp | CallOp::TracerLoad | CallOp::TracerStore => Turn::Plain,
    }
}

// Markers, labels, the two kinds of branches and hooks have rules of their own.
pub fn turn_of(op: Op) -> Turn
    ensures { result ≡ turn_of op }
{
    match op {
        Op::InstructionMarker => Turn::Marker,
        Op::PcodeLabel(l) => Turn::Label(l),
        Op::PcodeBranch(l) => Turn::Jump(l),
        Op::Branch(_) => Turn::Exit,
        Op::Call(k, _) => turn_call(k),
        _ => Turn::Plain,
    }
}
