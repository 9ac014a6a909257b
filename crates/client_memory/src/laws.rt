//! What old values and savepoints denote: each savepoint denotes a whole copy, which stays the same
//! until the client goes back to an outer level. And what the calls of a memory do to the states
//! that have its variables and buffers.

ghost use Rattle.std.specs.Prelude.{◌≡◌, ℕ, ◌≤◌, ◌<◌, ◌+◌, Bool, Option, Some, List, [], ◌∷◌, ◌++◌, length, map, reverse};
ghost use Rattle.abl_base.specs.declared.value.Value.{Value};
ghost use Rattle.block_meaning.specs.State.{State, CallFrame, Content, Copy, Spot};
ghost use Rattle.block_meaning.specs.Frames.{saved_of, copy_of, frames_restored, put_back};
ghost use Rattle.block_meaning.specs.Frames as meant;
ghost use Rattle.block_meaning.specs.Buffers.{Place, own, all_places, buffer_in, holding_in, keep_of};
ghost use Rattle.block_meaning.specs.Buffers as levels;
ghost use Rattle.client_memory.specs.Buffers.{places_in, rows_kept};
ghost use Rattle.client_memory.specs.Memory.{Remembered, buffer_at, holding, marked_locked, with_spot, copy_now, left, last_copy, restored, IsWhole};
ghost use Rattle.client_memory.specs.Frames.{state_with, state_at, AreEven};
ghost use Rattle.client_memory.specs.Undo.{OldValue, Savepoint, Values, with_value, value_at, restored_to, old_values_before, saved_of_all, copy_at, savepoint_now, undoables, all_restored};

/// The savepoint of an Enter denotes the copy that is made with it.
pub fn a_savepoint_denotes_the_copy()
    ensures { (old_values : List OldValue) (fs : List CallFrame) (level made : ℕ) → record { depth = level + 1; made = made; frames = map saved_of (reverse fs) } ≡ copy_at old_values (undoables fs) (savepoint_now old_values fs level made) }
{}

/// An assignment whose old value is stored changes no copy.
pub fn assignments_change_no_copy()
    ensures { (m : Savepoint) (old_values : List OldValue) (vss : Values) (k n : ℕ) (v : Value) → m.old_values ≤ length old_values → copy_at (record { frame = k; number = n; value = value_at k n vss } ∷ old_values) (with_value k n v vss) m ≡ copy_at old_values vss m }
{}

/// A procedure that begins, or ends, changes no copy made before it began.
pub fn procedures_change_no_copy()
    ensures { (m : Savepoint) (old_values : List OldValue) (vss : Values) (vs : List Value) → length m.pending ≤ length vss → copy_at old_values (vss ++ vs ∷ []) m ≡ copy_at old_values vss m }
{}

/// Restoring a level changes no copy of an outer level.
pub fn restoring_changes_no_copy()
    ensures { (m : Savepoint) (at : ℕ) (old_values : List OldValue) (vss : Values) → m.old_values ≤ at → copy_at (old_values_before at old_values) (restored_to at old_values vss) m ≡ copy_at old_values vss m }
{}

/// What is restored is the copy.
pub fn what_is_restored_is_the_copy()
    ensures { (vss : Values) (css : List (List Content)) (fs : List CallFrame) → length vss ≡ length fs → length css ≡ length fs → reverse (all_restored vss css fs) ≡ frames_restored (reverse (saved_of_all vss css)) (reverse fs) }
{}

/// The buffer at a place is that of the state.
pub fn a_place_has_the_buffer()
    ensures at { (rest : State) (ns : List ℕ) (m : Remembered) (at : Place) → AreEven ns m → buffer_in at (state_with rest ns m) ≡ buffer_at at m }
    ensures own { (rest : State) (ns : List ℕ) (m : Remembered) (b : ℕ) → AreEven ns m → meant.buffer_at b (state_with rest ns m) ≡ buffer_at (own b) m }
{}

/// A content that is set is set in the state.
pub fn a_content_is_held()
    ensures at { (rest : State) (ns : List ℕ) (m : Remembered) (at : Place) (c : Content) → AreEven ns m → state_with rest ns (holding at c m) ≡ holding_in at c (state_with rest ns m) }
    ensures own { (rest : State) (ns : List ℕ) (m : Remembered) (b : ℕ) (c : Content) → AreEven ns m → state_with rest ns (holding (own b) c m) ≡ meant.holding b c (state_with rest ns m) }
{}

/// LOCKED and the place in an index of a buffer of the running procedure are set in the state.
pub fn marks_are_set()
    ensures locked { (rest : State) (ns : List ℕ) (m : Remembered) (b : ℕ) (is : Bool) → AreEven ns m → state_with rest ns (marked_locked (own b) is m) ≡ meant.marked_locked b is (state_with rest ns m) }
    ensures spot { (rest : State) (ns : List ℕ) (m : Remembered) (b : ℕ) (spot : Option Spot) → AreEven ns m → state_with rest ns (with_spot (own b) spot m) ≡ meant.with_spot b spot (state_with rest ns m) }
{}

/// The places are those of the state, and so are the rows that remain locked.
pub fn all_buffers_are_those_of_the_state()
    ensures places { (rest : State) (ns : List ℕ) (m : Remembered) → AreEven ns m → all_places (state_with rest ns m) ≡ places_in m.buffers }
    ensures rows { (rest : State) (ns : List ℕ) (m : Remembered) (but : List ℕ) → AreEven ns m → keep_of but (state_with rest ns m) ≡ rows_kept but m.buffers }
{}

/// The copy of a level that begins is that of the state.
pub fn a_level_begins_with_the_copy()
    ensures { (rest : State) (ns : List ℕ) (m : Remembered) (made : ℕ) → AreEven ns m → rest.made ≡ made → copy_now made m ≡ copy_of (state_at rest ns m) }
{}

/// The innermost level is left as in the state.
pub fn a_level_is_left()
    ensures { (rest : State) (ns : List ℕ) (m : Remembered) → 0 < length m.copies → state_at rest ns (left m) ≡ levels.left (state_at rest ns m) }
{}

/// The innermost copy is put back as in the state.
pub fn a_level_is_restored()
    ensures { (rest : State) (ns : List ℕ) (m : Remembered) (c : Copy) → AreEven ns m → IsWhole m → last_copy m.copies ≡ Some c → c.depth ≡ length m.copies → state_at rest ns (restored m) ≡ put_back c (state_at rest ns m) }
{}
