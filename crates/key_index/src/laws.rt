//! What the definitions say by themselves.

ghost use Rattle.std.specs.Prelude.{◌≡◌, ℕ, Bool, List, None};
ghost use Rattle.key_index.specs.Index.{Forgets, IsSame, Keys, Puts, keeper_of, place_at};

/// A `forget` with the keeper from before an `enter` at an empty place makes everything as it was
/// before that `enter`.
pub fn forget_undoes_enter()
    ensures { (before entered after : Keys) (client row : ℕ) (key : List ℕ) (unique : Bool) →
        place_at before key row ≡ None →
        Puts before client key row unique None entered →
        Forgets entered key row (keeper_of before key) after →
        IsSame before after }
{}
