//! ERROR and ENDKEY arrive at an iteration (OpenEdge ABL Reference, ON ERROR phrase and ON ENDKEY
//! phrase).

ghost use Rattle.std.specs.Prelude.{Option, ◌≡◌, List, None, Some, OnOk, OnErr, MatchOption, length};
ghost use Rattle.block_code.specs.declared.code.Instr.{Instr};
ghost use Rattle.client_output.specs.Written.{IsUnchanged};
ghost use Rattle.bound_tree.specs.Bound.{action_of};
ghost use Rattle.block_meaning.specs.Blocks.{is_endkey_block};
ghost use Rattle.client_machine.specs.Actions.{value_in, returned_in, error_phrase, endkey_phrase};
ghost use Rattle.client_machine.specs.Undone.{phrase_of};
ghost use Rattle.client_machine.specs.declared.mode.TurnData.{TurnData};
ghost use Rattle.client_machine.specs.Config.{instr_at, header_at};
ghost use Rattle.client_machine.specs.Step.{KeepsTask};
ghost use Rattle.client_machine.specs.declared.mode.Task.{Task};
ghost use Rattle.client_machine.specs.declared.mode.Completion.{Completion};

use crate::actions::{OnCondition, after_undo_at};
use crate::machine::Machine;
use crate::mode::{AfterUndo, Completion, IterationData, Mode, PassedLevels, ReturnSource, Task};
use block_code::Instr;
use bound_tree::{BlockKind, OnPhrase};
use std::alloc::AllocError;

impl Machine {
    /// ERROR arrives at an iteration: a block with the undo property does what its ON ERROR says,
    /// else UNDO, RETRY; any other block is passed.
    pub fn error_comes(
        &mut self,
        place: usize,
        iteration: IterationData,
        passed: PassedLevels,
    ) -> Result<(), AllocError>
        ensures ok { OnOk result (KeepsTask (Task.EndsWith place iteration (Completion.Raises passed)) self.old self.new) }
        ensures err { OnErr result (IsUnchanged self.old.output self.new.output) }
    {
        if self.can_undo(place) {
            let on = self.on_error_at(place);
            let retry = iteration.turn.retry;
            self.set_mode(Mode::Execute(Task::UndoComes {
                place,
                iteration,
                block: on.block,
                after_undo: on.after_undo,
                retry,
                passed,
            }));
            return Ok(());
        }
        if self.memory.depth() == 0 {
            return self.ends_passed(place, Completion::Raises(passed));
        }
        let passed = self.passed_with(place, iteration.depth, passed)?;
        self.set_mode(Mode::Unwind(Completion::Raises(passed)));
        Ok(())
    }

    /// ENDKEY arrives at an iteration: a block with ON ENDKEY does what that says; a FOR, a REPEAT
    /// and the block of a procedure else UNDO, LEAVE; any other block is passed.
    pub fn endkey_comes(
        &mut self,
        place: usize,
        iteration: IterationData,
        passed: PassedLevels,
    ) -> Result<(), AllocError>
        ensures ok { OnOk result (KeepsTask (Task.EndsWith place iteration (Completion.EndKeys passed)) self.old self.new) }
        ensures err { OnErr result (IsUnchanged self.old.output self.new.output) }
    {
        match self.on_endkey_at(place) {
            Some(on) => {
                let retry = iteration.turn.retry;
                self.set_mode(Mode::Execute(Task::UndoComes {
                    place,
                    iteration,
                    block: on.block,
                    after_undo: on.after_undo,
                    retry,
                    passed,
                }));
                Ok(())
            }
            None => self.endkey_passes(place, iteration.depth, passed),
        }
    }

    /// ENDKEY passes an iteration of the block at the place, of this level.
    fn endkey_passes(
        &mut self,
        place: usize,
        depth: Option<u32>,
        passed: PassedLevels,
    ) -> Result<(), AllocError>
        requires passes { endkey_phrase (header_at self.old.code.instrs.items place) (header_at self.old.code.instrs.items place).on_endkey ≡ None }
        ensures ok { OnOk result ((turn : TurnData) → KeepsTask (Task.EndsWith place (record { depth = depth; turn = turn }) (Completion.EndKeys passed)) self.old self.new) }
        ensures err { OnErr result (IsUnchanged self.old.output self.new.output) }
    {
        if self.memory.depth() == 0 {
            return self.ends_passed(place, Completion::EndKeys(passed));
        }
        let passed = self.passed_with(place, depth, passed)?;
        self.set_mode(Mode::Unwind(Completion::EndKeys(passed)));
        Ok(())
    }

    /// What ERROR does at the block, which has the undo property.
    fn on_error_at(&self, place: usize) -> OnCondition
        ensures { phrase_of self.now.code.instrs.items result ≡ error_phrase (header_at self.now.code.instrs.items place) (header_at self.now.code.instrs.items place).on_error }
    {
        match self.code.instrs.get(place) {
            Some(Instr::Block { header, .. }) => match &header.on_error {
                Some(on) => on_condition(on, place, ReturnSource::OnError),
                None => OnCondition {
                    block: header.number,
                    after_undo: AfterUndo::Retry,
                },
            },
            _ => OnCondition {
                block: 0,
                after_undo: AfterUndo::Retry,
            },
        }
    }

    /// What ENDKEY does at the block, unless it passes.
    fn on_endkey_at(&self, place: usize) -> Option<OnCondition>
        ensures { MatchOption result (endkey_phrase (header_at self.now.code.instrs.items place) (header_at self.now.code.instrs.items place).on_endkey ≡ None)
            (λ on. endkey_phrase (header_at self.now.code.instrs.items place) (header_at self.now.code.instrs.items place).on_endkey ≡ Some (phrase_of self.now.code.instrs.items on)) }
    {
        match self.code.instrs.get(place) {
            Some(Instr::Block { header, .. }) => match &header.on_endkey {
                Some(on) => Some(on_condition(on, place, ReturnSource::OnEndKey)),
                None => {
                    if handles_endkey(header.kind) {
                        Some(OnCondition {
                            block: header.number,
                            after_undo: AfterUndo::Leave(header.number),
                        })
                    } else {
                        None
                    }
                }
            },
            _ => Some(OnCondition {
                block: 0,
                after_undo: AfterUndo::Leave(0),
            }),
        }
    }
}

/// What an ON phrase says.
fn on_condition(on: &OnPhrase, place: usize, source: ReturnSource) -> OnCondition
    ensures { (code : List Instr) → returned_in source (instr_at code place) ≡ value_in (action_of on.now.action) → phrase_of code result ≡ record { target = on.now.target; action = action_of on.now.action } }
{
    OnCondition {
        block: on.target,
        after_undo: after_undo_at(&on.action, place, source),
    }
}

/// Whether a block of this kind undoes and leaves at ENDKEY where it has no ON ENDKEY.
fn handles_endkey(kind: BlockKind) -> bool
    ensures { result ≡ is_endkey_block kind }
{
    matches!(
        kind,
        BlockKind::Procedure | BlockKind::Repeat | BlockKind::For
    )
}
