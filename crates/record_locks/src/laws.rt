//! What holds of any use of the locks.

ghost use Rattle.std.specs.Prelude.{◌≡◌, ◌≢◌, ℕ, Bool, List, Option, Some, None};
ghost use Rattle.std.specs.List.{Any};
ghost use Rattle.std.specs.FinMap as map;
ghost use Rattle.abl_base.specs.declared.row.RowId.{RowId as Row};
ghost use Rattle.database_meaning.specs.Waiting.{Chain, HasNoCycle, ListsAll};
ghost use Rattle.record_locks.specs.declared.locks.BlockedLock.{BlockedLock as Wait};
ghost use Rattle.record_locks.specs.declared.locks.Client.{Client as Held};
ghost use Rattle.record_locks.specs.declared.locks.KeyWait.{KeyWait as Wanted};
ghost use Rattle.record_locks.specs.Table.{client_of, lock_of, no_client, AreApart, ConflictsOnLock, OnlyChanges, Settles, Waits, WaitsAgainst};
ghost use Rattle.record_locks.specs.Requests.{HasConflict, granted};

/// No two clients hold a row where one of them holds it exclusively: so it is where no client holds
/// a row, and each call preserves this.
pub fn locks_stay_apart()
    ensures at_first { (table : List Held) → ((c : ℕ) → client_of table c ≡ no_client) → AreApart table }
    ensures grant { (old new : List Held) (c row : ℕ) (exclusive : Bool) → AreApart old → ¬ HasConflict old c row exclusive →
        OnlyChanges old c (record { held = map.insert (client_of old c).held row (granted (lock_of old c row) exclusive); blocked = None }) new → AreApart new }
    ensures block { (old new : List Held) (c : ℕ) (blocked : Option Wait) → AreApart old →
        OnlyChanges old c (record { held = (client_of old c).held; blocked = blocked }) new → AreApart new }
    ensures release { (old new : List Held) (c row : ℕ) →
        AreApart old → OnlyChanges old c (record (client_of old c) { held = map.remove (client_of old c).held row }) new → AreApart new }
    ensures end_transaction { (old new : List Held) (c : ℕ) (keep : List Row) → AreApart old → Settles old c keep new → AreApart new }
    ensures end { (old new : List Held) (c : ℕ) → AreApart old → OnlyChanges old c no_client new → AreApart new }
{}

/// Where there is no cycle of waiting clients, a client that `block` lets wait makes none, if `would_cycle`
/// found none against the clients that `against` lists. The waits for keys that it was given are those
/// of other clients.
pub fn blocked_closes_no_cycle()
    ensures { (old new : List Held) (key_waits : List Wanted) (c : ℕ) (row : Row) (exclusive : Bool) (against : List ℕ) →
        ¬ Any (λ blocked. blocked.client ≡ c) key_waits →
        HasNoCycle (Waits old key_waits) →
        ListsAll against (ConflictsOnLock old c row.0 exclusive) →
        ((others : List ℕ) → ¬ Chain (WaitsAgainst old key_waits c against) c others c) →
        OnlyChanges old c (record { held = (client_of old c).held; blocked = Some (record { row = row; exclusive = exclusive }) }) new →
        HasNoCycle (Waits new key_waits) }
{}
