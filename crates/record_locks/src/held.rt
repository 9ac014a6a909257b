//! The rows that one client holds.

ghost use Rattle.std.specs.Prelude.{◌≡◌, ◌↔◌, ℕ, Bool, not, ◌||◌, ◌==◌, List, IsTrue, IsSome, is_some, OnOk, OnErr};
ghost use Rattle.std.specs.List.{list_any};
ghost use Rattle.std.specs.FinMap as map;
ghost use Rattle.record_locks.specs.Settled.{IsFreed, has_row, settled};

use abl_base::RowId;
use std::alloc::{AllocError, Global};
use std::collections::BTreeMap;
use std::marker::Model;

/// The rows that a client holds, each with true where it holds it exclusively.
#[derive(Drop)]
pub struct Held {
    rows: BTreeMap<u32, bool>,
}

impl Model for Held {
    ghost use Rattle.std.specs.Prelude.{Bool};
    ghost use Rattle.std.specs.Ordering.{nat_cmp};
    ghost use Rattle.std.specs.Coded.{coded_ℕ, coded_bool};
    ghost use Rattle.std.specs.FinMap as map;

    ghost Value = { map.FinMap nat_cmp Bool };

    ghost coded = { map.code coded_ℕ coded_bool };

    ghost view = { λ held. map.from_entries held.rows.entries };
}

impl Held {
    /// No row.
    pub fn new(alloc: Global) -> Held
        ensures { result ≡ map.empty }
    {
        Held {
            rows: BTreeMap::new(alloc),
        }
    }

    /// The lock on the row: None, or true where it is exclusive.
    pub fn lock(&self, row: u32) -> Option<bool>
        ensures { result ≡ map.get self.now row }
    {
        self.rows.get(&row).copied()
    }

    /// Sets the lock on the row. An error means out of memory; nothing is then changed.
    pub fn set(&mut self, row: u32, exclusive: bool) -> Result<(), AllocError>
        ensures ok { OnOk result (self.new ≡ map.insert self.old row exclusive) }
        ensures err { OnErr result (self.new ≡ self.old) }
    {
        self.rows.insert(row, exclusive)?;
        Ok(())
    }

    /// Removes the lock on the row, and returns whether there was one.
    pub fn free(&mut self, row: u32) -> bool
        ensures freed { result ≡ is_some (map.get self.old row) }
        ensures left { self.new ≡ map.remove self.old row }
    {
        self.rows.remove(&row).is_some()
    }

    /// Removes all locks, and returns whether there was one.
    pub fn free_all(&mut self) -> bool
        ensures freed { IsTrue result ↔ ((row : ℕ) × IsSome (map.get self.old row)) }
        ensures left { self.new ≡ map.empty }
    {
        let any = !self.rows.is_empty();
        self.rows.clear();
        any
    }

    /// Removes the locks on other rows than these, and makes those on these rows share locks.
    /// Returns whether that freed a lock.
    pub fn settle(&mut self, keep: &[RowId]) -> bool
        ensures freed { IsTrue result ↔ ((row : ℕ) × IsFreed (has_row keep.now row) (map.get self.old row)) }
        ensures left { (row : ℕ) → map.get self.new row ≡ settled (has_row keep.now row) (map.get self.old row) }
    {
        let freed = frees(&self.rows, keep);
        self.rows.retain(|row, exclusive| {
            *exclusive = false;
            has_row(keep, *row)
        });
        freed
    }
}

/// Whether some row is held exclusively, or is not one of those to keep.
fn frees(rows: &BTreeMap<u32, bool>, keep: &[RowId]) -> bool
    ensures { result ≡ list_any (λ lock. lock.1 || not (has_row keep.now lock.0)) rows.now.entries }
{
    rows.iter()
        .any(|(row, exclusive)| *exclusive || !has_row(keep, *row))
}

/// Whether the row is one of these.
fn has_row(rows: &[RowId], row: u32) -> bool
    ensures { result ≡ has_row rows.now row }
{
    rows.iter().any(|kept| kept.0 == row)
}
