//! What undoes a change of a row.

ghost use Rattle.std.specs.Prelude.{◌≡◌, ◌≤◌, length};
ghost use Rattle.slot_rows.specs.Counted.{after_all, before_all};
ghost use Rattle.slot_rows.specs.Stored.{mark_or};

use database_meaning::StoredRow;

/// A change of a row that can be undone: the row's value before it, how many writes of slots the
/// transaction had then, and the fragments of the row before the change and after it, 125 at most.
#[derive(Drop)]
pub struct Undone {
    pub row: u32,
    pub old: Option<StoredRow>,
    pub mark: usize,
    pub before: u32,
    pub after: u32,
}

/// How many writes of slots came before the change with this number; `all` where there is none.
pub fn mark_at(log: &[Undone], number: usize, all: usize) -> usize
    ensures { result ≡ mark_or log.now number all }
{
    match log.get(number) {
        None => all,
        Some(change) => change.mark,
    }
}

/// The fragments of the rows of a log, each before its change.
pub fn before_all(log: &[Undone]) -> u64
    requires { length log.now ≤ 7989 }
    ensures { result ≡ before_all log.now }
{
    let mut total = 0u64;
    for change in log {
        total += u64::from(change.before);
    }
    total
}

/// The fragments of the rows of a log, each after its change.
pub fn after_all(log: &[Undone]) -> u64
    requires { length log.now ≤ 7989 }
    ensures { result ≡ after_all log.now }
{
    let mut total = 0u64;
    for change in log {
        total += u64::from(change.after);
    }
    total
}
