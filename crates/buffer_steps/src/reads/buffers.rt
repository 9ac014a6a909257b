//! Buffers, as the reading of a record needs them.

ghost use Rattle.std.specs.Prelude.{◌≡◌, IfOk};

use abl_base::{Row, RowId};
use bound_tree::{Expr, LockWanted, Reading};
use database_protocol::Cursor;
use evaluator::EvalFault;
use std::alloc::{AllocError, Global};

/// What a buffer holds, for FIND CURRENT.
#[derive(Clone, Copy)]
pub enum Current {
    Empty,
    /// A record that is not inserted yet.
    Pending,
    /// A row of the database; `made` is the number of the CREATE of this buffer that made it, if
    /// one did.
    Record { row: RowId, made: Option<u64> },
}

/// The buffers of the running procedure, and the values of its expressions. A buffer is named by
/// its number in the procedure.
pub trait RecordBuffers {
    ghost use Rattle.std.specs.Prelude.{◌≡◌, Bool, Option, None, List, ℕ};
    ghost use Rattle.abl_base.specs.declared.row.RowId.{RowId};
    ghost use Rattle.abl_base.specs.declared.value.Value.{Value};
    ghost use Rattle.bound_tree.specs.Bound.{maybe_expr_of, reading_of};
    ghost use Rattle.block_meaning.specs.Program.{Program};
    ghost use Rattle.block_meaning.specs.State.{State, Held, NoLock, Record};
    ghost use Rattle.block_meaning.specs.Frames.{content_of, emptied, holding, marked_locked, table_of, with_spot};
    ghost use Rattle.block_meaning.specs.Reads.{cursor_of, held_as, shows, spot_at};
    ghost use Rattle.record_rules.specs.readings.Reading.{Brackets, Tests};
    ghost use Rattle.buffer_steps.specs.reads.Current.{IsCurrent};
    ghost use Rattle.buffer_steps.specs.reads.Fixed.{Fixed};

    /// They are those of the program, where the state has these other fields.
    ghost fits: { Program → State → Self → Type 0 };

    /// The state that has them, and the other fields of another state.
    ghost state: { State → Self → State };

    /// The open procedures, the copies of the open levels, and the reference to the memory: no call
    /// changes them.
    ghost fixed: { Self → Fixed };

    /// The number of the buffer's table.
    fn table(&self, buffer: u32) -> u16
        ensures { (p : Program) (rest : State) → fits p rest self.now → result ≡ table_of buffer (state rest self.now) };

    /// The cursor of the buffer's place in the index of the reading. Out of memory is the only
    /// error.
    fn place(&self, reading: &Reading) -> Result<Option<Cursor>, AllocError>
        ensures { IfOk result (λ cursor. (p : Program) (rest : State) → fits p rest self.now → cursor ≡ cursor_of (reading_of reading.now) (state rest self.now)) };

    /// What the buffer holds.
    fn current(&self, buffer: u32) -> Current
        ensures { (p : Program) (rest : State) → fits p rest self.now → IsCurrent result (content_of buffer (state rest self.now)) };

    /// Whether WHERE holds of what the buffers hold; yes where there is none.
    fn passes(&self, alloc: Global, test: &Option<Expr>, retry: bool) -> Result<bool, EvalFault>
        ensures { (p : Program) (rest : State) → fits p rest self.now → Tests result p (maybe_expr_of test.now) retry (state rest self.now) };

    /// The values by which a search of the reading is bracketed.
    fn bracket(&self, alloc: Global, reading: &Reading, retry: bool) -> Result<Row, EvalFault>
        ensures { (p : Program) (rest : State) → fits p rest self.now → Brackets result p (reading_of reading.now) retry (state rest self.now) };

    /// The buffer shows a row, without a lock so far.
    fn show(&mut self, buffer: u32, row: RowId, values: Row)
        ensures fits { (p : Program) (rest : State) → fits p rest self.old → fits p rest self.new }
        ensures fixed { fixed self.new ≡ fixed self.old }
        ensures state { (p : Program) (rest : State) → fits p rest self.old → state rest self.new ≡ shows buffer row values (state rest self.old) };

    /// The buffer holds a row under this lock.
    fn hold(&mut self, buffer: u32, row: RowId, values: Row, lock: LockWanted, made: Option<u64>)
        ensures fits { (p : Program) (rest : State) → fits p rest self.old → fits p rest self.new }
        ensures fixed { fixed self.new ≡ fixed self.old }
        ensures state { (p : Program) (rest : State) → fits p rest self.old → state rest self.new ≡ holding buffer (Record row values (held_as lock) made) (state rest self.old) };

    /// The row that the buffer shows is held under this lock. Its values stay.
    fn lock(&mut self, buffer: u32, lock: LockWanted)
        ensures fits { (p : Program) (rest : State) → fits p rest self.old → fits p rest self.new }
        ensures fixed { fixed self.new ≡ fixed self.old }
        ensures state { (p : Program) (rest before : State) (row : RowId) (values : List Value) → fits p rest self.old → state rest self.old ≡ shows buffer row values before → state rest self.new ≡ holding buffer (Record row values (held_as lock) None) (state rest self.old) };

    /// The buffer becomes empty.
    fn empty(&mut self, buffer: u32)
        ensures fits { (p : Program) (rest : State) → fits p rest self.old → fits p rest self.new }
        ensures fixed { fixed self.new ≡ fixed self.old }
        ensures state { (p : Program) (rest : State) → fits p rest self.old → state rest self.new ≡ emptied buffer (state rest self.old) };

    /// Sets LOCKED of the buffer.
    fn set_locked(&mut self, buffer: u32, locked: bool)
        ensures fits { (p : Program) (rest : State) → fits p rest self.old → fits p rest self.new }
        ensures fixed { fixed self.new ≡ fixed self.old }
        ensures state { (p : Program) (rest : State) → fits p rest self.old → state rest self.new ≡ marked_locked buffer locked (state rest self.old) };

    /// The buffer's place is this cursor in the index of the reading.
    fn set_place(&mut self, reading: &Reading, cursor: Cursor)
        ensures fits { (p : Program) (rest : State) → fits p rest self.old → fits p rest self.new }
        ensures fixed { fixed self.new ≡ fixed self.old }
        ensures state { (p : Program) (rest : State) → fits p rest self.old → state rest self.new ≡ with_spot (reading_of reading.now).buffer (spot_at (reading_of reading.now) cursor) (state rest self.old) };

    /// The buffer has no place in an index.
    fn clear_place(&mut self, buffer: u32)
        ensures fits { (p : Program) (rest : State) → fits p rest self.old → fits p rest self.new }
        ensures fixed { fixed self.new ≡ fixed self.old }
        ensures state { (p : Program) (rest : State) → fits p rest self.old → state rest self.new ≡ with_spot buffer None (state rest self.old) };
}
