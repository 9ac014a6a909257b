//! What holds of the definitions alone. Each law is what its function ensures.

ghost use Rattle.std.specs.Prelude.{◌≡◌, ◌<◌, ℕ, List};
ghost use Rattle.abl_base.specs.declared.value.Value.{Value};
ghost use Rattle.temp_meaning.specs.Rows.{AscendAbove, TempRow, row_of, with_row, without_row};
ghost use Rattle.temp_meaning.specs.Undo.{rows_back};
ghost use Rattle.temp_meaning.specs.Calls.{RestoresEachTable, StayKept};

/// Each change of a row is taken back by what the row had: the rows are those before it.
pub fn undoing_restores()
    ensures put { (n : ℕ) (values : List Value) (rs : List TempRow) (low : ℕ) → AscendAbove low rs → low < n → rows_back n (row_of rs n) (with_row n values rs) ≡ rs }
    ensures delete { (n : ℕ) (rs : List TempRow) (low : ℕ) → AscendAbove low rs → low < n → rows_back n (row_of rs n) (without_row n rs) ≡ rs }
{}

/// Over every list of calls, going back to a mark gives each table without NO-UNDO the rows that it
/// had there, and with them its orders; each other table stays as it was before the call, and so do
/// the numbers that were given.
pub fn back_restores_each_table()
    ensures tables { RestoresEachTable }
    ensures kept { StayKept }
{}
