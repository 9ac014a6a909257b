//! Which statements are themselves updates of the database.

ghost use Rattle.std.specs.Prelude.{◌≡◌, map};
ghost use Rattle.bound_tree.specs.Bound.{assignment_of, fetch_of, stmt_of};
ghost use Rattle.txn_infer.specs.Updates.{assigns_field, fetches_exclusively, is_exclusive, is_field, is_read_field, is_update, reads_field};

use bound_tree::{Assignment, Fetch, LockWanted, Stmt, Target};

/// Whether the statement is itself an update: CREATE, DELETE, an assignment or IMPORT to a field, or
/// FIND with EXCLUSIVE-LOCK.
pub fn is_update(stmt: &Stmt) -> bool
    ensures { result ≡ is_update (stmt_of stmt.now) }
{
    match stmt {
        Stmt::Assign { pairs, .. } => assigns_field(pairs),
        Stmt::Find { reading, .. } => is_exclusive(reading.lock),
        Stmt::FindCurrent { reading, .. } => is_exclusive(reading.lock),
        Stmt::Create { .. } => true,
        Stmt::Delete { .. } => true,
        Stmt::Import { targets, .. } => reads_field(targets),
        _ => false,
    }
}

/// Whether a FOR with this record phrase has EXCLUSIVE-LOCK.
pub fn fetches_exclusively(fetch: &Option<Fetch>) -> bool
    ensures { result ≡ fetches_exclusively (fetch_of fetch.now) }
{
    match fetch {
        Some(fetch) => is_exclusive(fetch.reading.lock),
        None => false,
    }
}

/// Whether one of the targets is a field.
fn assigns_field(pairs: &[Assignment]) -> bool
    ensures { result ≡ assigns_field (map assignment_of pairs.now) }
{
    for pair in pairs {
        if is_field(&pair.target) {
            return true;
        }
    }
    false
}

/// Whether one of the elements is read into a field.
fn reads_field(targets: &[Option<Target>]) -> bool
    ensures { result ≡ reads_field targets.now }
{
    targets.iter().any(is_read_field)
}

/// Whether an element is read into a field; None is an element that is skipped.
fn is_read_field(target: &Option<Target>) -> bool
    ensures { result ≡ is_read_field target.now }
{
    match target {
        Some(target) => is_field(target),
        None => false,
    }
}

/// Whether the target is a field of the database.
fn is_field(target: &Target) -> bool
    ensures { result ≡ is_field target.now }
{
    match target {
        Target::Variable(_) => false,
        Target::Field { .. } => true,
    }
}

/// Whether the lock is EXCLUSIVE-LOCK.
fn is_exclusive(lock: LockWanted) -> bool
    ensures { result ≡ is_exclusive lock }
{
    matches!(lock, LockWanted::Exclusive)
}
