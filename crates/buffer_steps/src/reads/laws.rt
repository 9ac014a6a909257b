//! Steps of a search taken at once, for every source and all answers. Each law is what its function
//! ensures.

ghost use Rattle.std.specs.Prelude.{◌≡◌, Bool, true, false, ℕ, List, ◌∷◌};
ghost use Rattle.abl_base.specs.declared.value.Value.{Value};
ghost use Rattle.database_protocol.specs.declared.answer.Answer.{Answer};
ghost use Rattle.database_protocol.specs.declared.row_order.Cursor.{Cursor};
ghost use Rattle.bound_tree.specs.declared.block.LockWanted.{LockWanted};
ghost use Rattle.bound_tree.specs.Tree.{Body, Reading};
ghost use Rattle.block_meaning.specs.Program.{Program};
ghost use Rattle.block_meaning.specs.State.{State, Found};
ghost use Rattle.flat_machine.specs.Config.{Completes, Execute, OrDo, Seconds, StackEntry, Takes, TakesAs, Task, ThenDo, Unwind};
ghost use Rattle.flat_machine.specs.Means.{means};
ghost use Rattle.flat_machine.specs.Steps.{config};
ghost use Rattle.buffer_steps.specs.reads.Steps.{search_with};

use bound_tree::LockWanted;

/// A record that passed WHERE is taken at once. Where it need not be the only one it is locked, and
/// without a lock it is found; so its values need not be kept beside the buffer. Where it must be
/// the only one, a second match is searched first.
pub fn matches_are_taken_at_once()
    ensures found { (tree : ℕ → Body) (p : Program) (r : Reading) (forward wait retry : Bool) (prefix : List Value) (c : Cursor) (values : List Value) (again : Task) (ks : List StackEntry) (s : State) (ans : List Answer) → r.lock ≡ LockWanted.NoLock →
        means tree p (config (Execute (Takes (search_with r forward false wait retry prefix) c values)) (OrDo again ∷ ks) s) ans ≡ means tree p (config (Unwind (Found c)) ks s) ans }
    ensures locked { (tree : ℕ → Body) (p : Program) (r : Reading) (forward wait retry : Bool) (prefix : List Value) (c : Cursor) (values : List Value) (ks : List StackEntry) (s : State) (ans : List Answer) →
        means tree p (config (Execute (Takes (search_with r forward false wait retry prefix) c values)) ks s) ans ≡ means tree p (config (Execute (TakesAs r wait retry c.row)) (ThenDo (Completes (Found c)) ∷ ks) s) ans }
    ensures only { (tree : ℕ → Body) (p : Program) (r : Reading) (forward wait retry : Bool) (prefix : List Value) (c : Cursor) (values : List Value) (ks : List StackEntry) (s : State) (ans : List Answer) →
        means tree p (config (Execute (Takes (search_with r forward true wait retry prefix) c values)) ks s) ans ≡ means tree p (config (Execute (Seconds s.units (search_with r forward true wait retry prefix) c values c)) (ThenDo (TakesAs r wait retry c.row) ∷ ThenDo (Completes (Found c)) ∷ ks) s) ans }
{}
