//! What follows an answer.

ghost use Rattle.std.specs.Prelude.{None, OnOk, OnErr};
ghost use Rattle.database_protocol.specs.declared.answer.Answer.{Answer};
ghost use Rattle.database_protocol.specs.declared.operation.Op.{Op};
ghost use Rattle.flat_machine.specs.Flat as flat;
ghost use Rattle.block_meaning.specs.State.{Copy, Done};
ghost use Rattle.client_output.specs.Written.{IsUnchanged};
ghost use Rattle.client_machine.specs.AnswerClass.{IsOfAnswerClass, KeepsAnswer};
ghost use Rattle.client_machine.specs.declared.answers.AnswerClass.{AnswerClass};
ghost use Rattle.client_machine.specs.declared.mode.OnAnswer.{OnAnswer};
ghost use Rattle.client_machine.specs.declared.mode.Mode.{Mode};
ghost use Rattle.client_machine.specs.declared.mode.Task.{Task};
ghost use Rattle.client_machine.specs.declared.mode.Completion.{Completion};

use crate::machine::Machine;
use crate::mode::ends::{BufferList, EndTask};
use crate::mode::{Completion, Mode, OnAnswer, Task, TurnData};
use abl_base::Value;
use database_protocol::{Answer, Op, StopWhy};
use std::alloc::{AllocError, Global};

/// How a client treats an answer.
#[derive(Clone, Copy, Debug)]
pub enum AnswerClass {
    Blocked,
    Stops(StopWhy),
    NoMemory,
    Done,
}

/// How a client treats an answer.
pub fn answer_class(answer: &Answer) -> AnswerClass
    ensures { IsOfAnswerClass result answer.now }
{
    match answer {
        Answer::Blocked { .. } => AnswerClass::Blocked,
        Answer::NoMemory => AnswerClass::NoMemory,
        Answer::Closed => AnswerClass::Stops(StopWhy::Closed),
        Answer::Deadlock { .. } => AnswerClass::Stops(StopWhy::Deadlock),
        Answer::TxFull => AnswerClass::Stops(StopWhy::TxFull),
        Answer::TraceFull => AnswerClass::Stops(StopWhy::TraceFull),
        Answer::Refused => AnswerClass::Done,
        Answer::Gone => AnswerClass::Done,
        Answer::KeyTooLong { .. } => AnswerClass::Done,
        Answer::Busy { .. } => AnswerClass::Done,
        Answer::Duplicate { .. } => AnswerClass::Done,
        Answer::Full => AnswerClass::Done,
        Answer::SequenceEnd => AnswerClass::Done,
        Answer::AtEnd => AnswerClass::Done,
        Answer::Done => AnswerClass::Done,
        Answer::Committed { .. } => AnswerClass::Done,
        Answer::Found { .. } => AnswerClass::Done,
        Answer::Row(_) => AnswerClass::Done,
        Answer::Granted => AnswerClass::Done,
        Answer::Inserted { .. } => AnswerClass::Done,
        Answer::Value(_) => AnswerClass::Done,
    }
}

impl Machine {
    /// Takes the answer to this one.
    pub fn answered(
        &mut self,
        op: Op,
        on_answer: OnAnswer,
        answer: Answer,
    ) -> Result<(), AllocError>
        ensures ok { OnOk result (KeepsAnswer op on_answer answer self.old self.new) }
        ensures err { OnErr result (IsUnchanged self.old.output self.new.output) }
    {
        match answer_class(&answer) {
            AnswerClass::NoMemory => Err(AllocError),
            AnswerClass::Blocked => self.await_again(op, on_answer, answer),
            AnswerClass::Stops(why) => self.stop(op, on_answer, answer, why),
            AnswerClass::Done => match on_answer {
                OnAnswer::WasEntered {
                    place,
                    turn,
                    retry,
                    left,
                } => self.on_entered(op, answer, place, turn, retry, left),
                OnAnswer::WasBack(depth) => self.on_back(op, answer, depth),
                OnAnswer::WasLeft => self.on_left(op, answer),
                OnAnswer::End(_) => Err(AllocError),
                OnAnswer::Read(_) => Err(AllocError),
                OnAnswer::Change(_) => Err(AllocError),
            },
        }
    }

    /// Blocked: asks for the same operation again.
    pub fn await_again(
        &mut self,
        op: Op,
        on_answer: OnAnswer,
        answer: Answer,
    ) -> Result<(), AllocError>
        requires { IsOfAnswerClass AnswerClass.Blocked answer }
        ensures ok { OnOk result (KeepsAnswer op on_answer answer self.old self.new) }
        ensures err { OnErr result (IsUnchanged self.old.output self.new.output) }
    {
        let _ = answer;
        self.set_mode(Mode::Await { op, on_answer });
        Ok(())
    }

    /// The client stops.
    pub fn stop(
        &mut self,
        op: Op,
        on_answer: OnAnswer,
        answer: Answer,
        why: StopWhy,
    ) -> Result<(), AllocError>
        requires { IsOfAnswerClass (AnswerClass.Stops why) answer }
        ensures ok { OnOk result (KeepsAnswer op on_answer answer self.old self.new) }
        ensures err { OnErr result (IsUnchanged self.old.output self.new.output) }
    {
        let _ = (op, on_answer, answer);
        self.set_mode(Mode::Unwind(Completion::Stops(why)));
        Ok(())
    }

    /// After Enter: the level begins.
    pub fn on_entered(
        &mut self,
        op: Op,
        answer: Answer,
        place: usize,
        turn: TurnData,
        retry: bool,
        left: u32,
    ) -> Result<(), AllocError>
        requires { IsOfAnswerClass AnswerClass.Done answer }
        ensures ok { OnOk result (KeepsAnswer op (OnAnswer.WasEntered place turn retry left) answer self.old self.new) }
        ensures err { OnErr result (IsUnchanged self.old.output self.new.output) }
    {
        let _ = (op, answer);
        self.entered(place, turn, retry, left)
    }

    /// After Back: restores the copy of the level, and leaves the level next.
    pub fn on_back(&mut self, op: Op, answer: Answer, depth: u32) -> Result<(), AllocError>
        requires { IsOfAnswerClass AnswerClass.Done answer }
        ensures ok { OnOk result (KeepsAnswer op (OnAnswer.WasBack depth) answer self.old self.new) }
        ensures err { OnErr result (IsUnchanged self.old.output self.new.output) }
    {
        let _ = (op, answer);
        if self.memory.has_buffers() {
            self.set_mode(Mode::Execute(Task::End(EndTask::AfterBack {
                depth,
                but: BufferList::None,
            })));
            return Ok(());
        }
        self.memory.leave_to(depth);
        self.memory.back()?;
        self.set_mode(Mode::Execute(Task::LeavesNow));
        Ok(())
    }

    /// After Leave: the level is left.
    pub fn on_left(&mut self, op: Op, answer: Answer) -> Result<(), AllocError>
        requires { IsOfAnswerClass AnswerClass.Done answer }
        ensures ok { OnOk result (KeepsAnswer op OnAnswer.WasLeft answer self.old self.new) }
        ensures err { OnErr result (IsUnchanged self.old.output self.new.output) }
    {
        let _ = (op, answer);
        self.was_left();
        Ok(())
    }
}
