//! An answer: the machine takes it, or one of the families on records.

ghost use Rattle.std.specs.Prelude.{[], ◌∷◌, OnOk, OnErr};
ghost use Rattle.client_output.specs.Written.{IsUnchanged};
ghost use Rattle.client_machine.specs.AnswerClass.{IsOfAnswerClass, KeepsAnswer};
ghost use Rattle.client_machine.specs.Step.{KeepsRun, IsAwaiting};
ghost use Rattle.client_machine.specs.declared.answers.AnswerClass.{AnswerClass};

use client_machine::answers::{AnswerClass, answer_class};
use client_machine::machine::Machine;
use client_machine::mode::{Completion, Mode, OnAnswer};
use database_protocol::{Answer, Op};
use std::alloc::AllocError;
use std::mem;

/// Takes the answer to the operation that the machine awaits.
pub fn take_answer(machine: &mut Machine, answer: Answer) -> Result<(), AllocError>
    ensures ok { OnOk result (IsAwaiting machine.old.mode → KeepsRun (answer ∷ []) machine.old machine.new) }
    ensures err { OnErr result (IsUnchanged machine.old.output machine.new.output) }
{
    match mem::replace(&mut machine.mode, Mode::Unwind(Completion::Normal)) {
        Mode::Await { op, on_answer } => answered(machine, op, on_answer, answer),
        Mode::Execute(_) => Err(AllocError),
        Mode::Unwind(_) => Err(AllocError),
    }
}

/// Takes the answer to this one.
fn answered(
    machine: &mut Machine,
    op: Op,
    on_answer: OnAnswer,
    answer: Answer,
) -> Result<(), AllocError>
    ensures ok { OnOk result (KeepsAnswer op on_answer answer machine.old machine.new) }
    ensures err { OnErr result (IsUnchanged machine.old.output machine.new.output) }
{
    match answer_class(&answer) {
        AnswerClass::Done => take_done(machine, op, on_answer, answer),
        _ => machine.answered(op, on_answer, answer),
    }
}

/// The same where the answer neither stops the client nor is Blocked.
fn take_done(
    machine: &mut Machine,
    op: Op,
    on_answer: OnAnswer,
    answer: Answer,
) -> Result<(), AllocError>
    requires done { IsOfAnswerClass AnswerClass.Done answer }
    ensures ok { OnOk result (KeepsAnswer op on_answer answer machine.old machine.new) }
    ensures err { OnErr result (IsUnchanged machine.old.output machine.new.output) }
{
    match on_answer {
        OnAnswer::WasEntered {
            place,
            turn,
            retry,
            left,
        } => machine.on_entered(op, answer, place, turn, retry, left),
        OnAnswer::WasBack(depth) => machine.on_back(op, answer, depth),
        OnAnswer::WasLeft => machine.on_left(op, answer),
        OnAnswer::End(on_answer) => client_ends::answer(machine, op, on_answer, answer),
        OnAnswer::Read(on_answer) => client_finds::answer(machine, op, on_answer, answer),
        OnAnswer::Change(on_answer) => client_records::answer(machine, op, on_answer, answer),
    }
}
