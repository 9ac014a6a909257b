//! Laws of the meaning, for every program and every list of answers. Each law is the contract of a
//! function with an empty body.

ghost use Rattle.std.specs.Prelude.{◌≡◌, ◌<◌, ◌≤◌, ℕ, List, ◌++◌, Bool, false, Some, length};
ghost use Rattle.abl_base.specs.declared.value.Value.{Value};
ghost use Rattle.database_protocol.specs.declared.answer.Answer.{Answer};
ghost use Rattle.database_protocol.specs.declared.operation.Op.{Op};
ghost use Rattle.bound_tree.specs.Tree.{Stmt};
ghost use Rattle.database_protocol.specs.declared.ends.ClientEnd.{ClientEnd};
ghost use Rattle.block_meaning.specs.Program.{Program};
ghost use Rattle.block_meaning.specs.State.{State, Completion, Normal, Done, Copy, Pending};
ghost use Rattle.block_meaning.specs.Buffers.{Place, frame_out, is_left_out};
ghost use Rattle.block_meaning.specs.Blocks.{goes_back};
ghost use Rattle.block_meaning.specs.Meaning.{run, asked, meaning, context_at};
ghost use Rattle.block_meaning.specs.GivesUp.{Begins, units_used};
ghost use Rattle.block_meaning.specs.Levels.{CanAskAll, asked_once};
ghost use Rattle.block_meaning.specs.Undone.{undoable_of, saved_variables, saved_content, content_in, IsOlder, LeftAlone};

use database_protocol::NextStep;

/// With more answers, a client has written the same pieces and then more.
pub fn written_only_grows()
    ensures { (p : Program) (units : ℕ) (ans more : List Answer) → Begins (run p units ans).written (run p units (ans ++ more)).written }
{}

/// With more answers, a client has asked for the same operations and then more.
pub fn asked_only_grows()
    ensures { (p : Program) (units : ℕ) (ans more : List Answer) → asked (run p units) (ans ++ more) ≡ asked (run p units) ans ++ asked (λ rest. run p units (ans ++ rest)) more }
{}

/// A client that has ended neither writes nor asks for anything more.
pub fn an_end_is_final()
    ensures { (p : Program) (units : ℕ) (ans more : List Answer) (end : ClientEnd) → (run p units ans).wants ≡ NextStep.Ended end → run p units (ans ++ more) ≡ run p units ans }
{}

/// Each operation costs a unit, once: when it is asked again after Blocked it costs nothing.
pub fn operations_cost_units()
    ensures { (p : Program) (units : ℕ) (ans : List Answer) (op : Op) → (run p units ans).wants ≡ NextStep.Ask op → units_used ans ≤ units }
{}

/// No statement increases the units that are left.
pub fn units_never_grow()
    ensures { (p : Program) (depth : ℕ) (retry : Bool) (t : Stmt) (s after : State) (ans left : List Answer) (completion : Completion) → meaning t (context_at p depth retry) s ans ≡ Done completion after left → after.units ≤ s.units }
{}

/// A client asks for Leave only while a level is open that its own Enter opened, and for Back only to
/// such a level. An operation that is asked again after Blocked counts once.
pub fn leave_and_back_need_a_level()
    ensures { (p : Program) (units : ℕ) (ans : List Answer) → CanAskAll 0 (asked_once (run p units) ans) }
{}

/// An UNDO with a level restores exactly the undoable variables of the copy, provided that the copy
/// has one entry for each open procedure, which holds for each open level. It changes no NO-UNDO
/// variable, no place in a stream or input, and nothing that was written. In every buffer but those
/// scoped inside, a record that was pending in the copy is pending again, and no record is left that
/// was created later.
pub fn undo_restores_the_copy()
    ensures variables { (copy : Copy) (but : List ℕ) (s after : State) (ans left : List Answer) → length copy.frames ≡ length s.frames → goes_back (Some copy) but s ans ≡ Done Normal after left → undoable_of after ≡ saved_variables copy }
    ensures alone { (copy : Copy) (but : List ℕ) (s after : State) (ans left : List Answer) → goes_back (Some copy) but s ans ≡ Done Normal after left → LeftAlone s after }
    ensures pending { (copy : Copy) (but : List ℕ) (at : Place) (values : List Value) (since : List ℕ) (made : ℕ) (s after : State) (ans left : List Answer) → saved_content at copy ≡ Pending values since made → made ≤ copy.made → at.number < length (frame_out at.out s).buffers → is_left_out but at ≡ false → goes_back (Some copy) but s ans ≡ Done Normal after left → content_in at after ≡ Pending values since made }
    ensures older { (copy : Copy) (but : List ℕ) (at : Place) (s after : State) (ans left : List Answer) → at.number < length (frame_out at.out s).buffers → is_left_out but at ≡ false → goes_back (Some copy) but s ans ≡ Done Normal after left → IsOlder copy.made (content_in at after) }
{}
