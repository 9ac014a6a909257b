//! What holds of the definitions alone. Each law is what its function ensures.

ghost use Rattle.std.specs.Prelude.{◌≡◌, ◌≢◌, ◌≤◌, ◌<◌, ◌+◌, ◌*◌, ◌+ℤ◌, ◌-ℤ◌, ◌*ℤ◌, ◌↔◌, ℕ, ℤ, pos, IsTrue, List, Option, Ok, Some};
ghost use Rattle.std.specs.Cmp.{IsTotalOrder};
ghost use Rattle.std.specs.Cmp.Lexicographic.{slice_cmp};
ghost use Rattle.std.specs.Ordering.{nat_cmp};
ghost use Rattle.std.specs.declared.cmp.Ordering.TheVariants.{Equal};
ghost use Rattle.abl_values.specs.declared.schema.KeyPart.{KeyPart};
ghost use Rattle.abl_base.specs.declared.value.Kind.{Kind};
ghost use Rattle.abl_base.specs.declared.value.Value.{Value};
ghost use Rattle.abl_values.specs.Arithmetic.{difference_of, IsNumber, IsWhole, product_of, quotient_of, rounded, rounded_quotient, rounded_whole, sum_of};
ghost use Rattle.abl_values.specs.Dates.{CivilDate, HasDate, date_of_day, day_number, is_civil, is_day};
ghost use Rattle.abl_values.specs.Keys.{AreBytes, HaveBytes, key_bytes, key_order};
ghost use Rattle.abl_values.specs.Order.{rank_of, scaled, value_order};
ghost use Rattle.abl_values.specs.Rows.{bytes_of_row, FitsFields, fragments_of, row_in};

/// The index order is total and transitive.
pub fn value_order_is_total()
    ensures { IsTotalOrder value_order }
{}

/// The bytes of a row are read back to the row, and bytes that are read to a row are that row's.
pub fn rows_are_read_back()
    ensures read_back { (kinds : List (Option Kind)) (row : List Value) → FitsFields kinds row
        → row_in kinds (bytes_of_row row) ≡ Some row }
    ensures no_other { (kinds : List (Option Kind)) (bytes : List ℕ) (row : List Value) → AreBytes bytes
        → row_in kinds bytes ≡ Some row → (bytes_of_row row ≡ bytes) × FitsFields kinds row }
{}

/// The key bytes of two rows are the same exactly where their keys are level, and their order as
/// bytes is the order of the keys, in descending components too.
pub fn key_bytes_order_as_keys()
    ensures same { (kinds : List (Option Kind)) (parts : List KeyPart) (a b : List Value)
        → FitsFields kinds a → FitsFields kinds b → HaveBytes a → HaveBytes b
        → (key_bytes parts a ≡ key_bytes parts b) ↔ (key_order parts a b ≡ Equal) }
    ensures order { (kinds : List (Option Kind)) (parts : List KeyPart) (a b : List Value)
        → FitsFields kinds a → FitsFields kinds b → HaveBytes a → HaveBytes b
        → slice_cmp nat_cmp (key_bytes parts a) (key_bytes parts b) ≡ key_order parts a b }
{}

/// Sums and differences of numbers are those of the integers where they do not overflow, and so is
/// what is stored of them: decimals are counted in units of 10^-10.
pub fn sums_are_those_of_integers()
    ensures sum { (a b v : Value) → IsNumber a → IsNumber b → sum_of a b ≡ Ok v
        → rank_of v ≡ rank_of a +ℤ rank_of b }
    ensures difference { (a b v : Value) → IsNumber a → IsNumber b → difference_of a b ≡ Ok v
        → rank_of v ≡ rank_of a -ℤ rank_of b }
{}

/// Products and quotients of numbers are those of the integers where they do not overflow, rounded
/// once to ten decimals. Whole numbers multiply exactly.
pub fn products_are_those_of_integers()
    ensures product { (a b v : Value) → IsNumber a → IsNumber b → product_of a b ≡ Ok v
        → rank_of v ≡ rounded_whole (rank_of a *ℤ rank_of b) }
    ensures whole { (a b v : Value) → IsWhole a → IsWhole b → product_of a b ≡ Ok v
        → scaled (rank_of v) ≡ rank_of a *ℤ rank_of b }
    ensures quotient { (a b v : Value) → IsNumber a → IsNumber b → rank_of b ≢ pos 0 → quotient_of a b ≡ Ok v
        → rank_of v ≡ rounded_quotient (scaled (rank_of a)) (rank_of b) }
{}

/// The day number of a date leads back to the date, so no two dates have one number; and each day of
/// the years 1 to 9999 has a date, whose number it is.
pub fn dates_are_read_back()
    ensures date { (d : CivilDate) → IsTrue (is_civil d) → date_of_day (day_number d) ≡ d }
    ensures day { (day : ℤ) → IsTrue (is_day day) → HasDate day }
{}

/// A rounded quotient is the nearest natural number, and a half goes up.
pub fn quotients_are_the_nearest()
    ensures low { (n d : ℕ) → 0 < d → 2 * (rounded n d * d) ≤ 2 * n + d }
    ensures high { (n d : ℕ) → 0 < d → 2 * n < 2 * (rounded n d * d) + d }
{}

/// The fragments of a row hold it, there is at least one, and no smaller number holds it.
pub fn fragments_are_the_fewest()
    ensures one { (bytes : ℕ) → 1 ≤ fragments_of bytes }
    ensures hold { (bytes : ℕ) → bytes ≤ 240 * fragments_of bytes }
    ensures fewest { (bytes other : ℕ) → 1 ≤ other → bytes ≤ 240 * other → fragments_of bytes ≤ other }
{}
