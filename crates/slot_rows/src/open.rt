//! The data that is stored for a client's transaction.

ghost use Rattle.std.specs.Prelude.{◌≡◌, ◌≤◌, ◌<◌, ◌*◌, length, take, OnOk};
ghost use Rattle.std.specs.Vec.{vec_capacity};

use crate::log::Undone;
use std::alloc::{AllocError, Global};

/// A client's transaction. Without one all is empty. A transaction has at most 7,989 changes, since
/// each writes a slot, and each draws and writes at most 125 fragments.
#[derive(Drop)]
pub struct Open {
    /// The changes that can be undone, the oldest first.
    pub log: Vec<Undone>,
    /// The rows that it changed, undone changes included.
    pub touched: Vec<u32>,
    /// The number of fragments that it drew, and that it wrote, undone changes included.
    pub drawn: u64,
    pub written: u64,
    ghost most: { length touched.items ≤ 7989 },
    ghost logged: { length log.items ≤ length touched.items },
    ghost few: { drawn ≤ 125 * length touched.items },
    ghost writes: { written ≤ 125 * length touched.items },
}

impl Open {
    ghost use Rattle.slot_rows.specs.Opens.{no_open, view_of, with_change};

    /// A client without a transaction. It takes no memory.
    pub fn idle(alloc: Global) -> Open
        ensures { view_of result ≡ no_open }
    {
        Open {
            log: Vec::new(alloc),
            touched: Vec::new(alloc),
            drawn: 0,
            written: 0,
        }
    }

    /// Reserves the memory for one more change. It also fails where the transaction has 7,989 changes.
    /// After an error nothing has changed.
    pub fn reserve(&mut self) -> Result<(), AllocError>
        ensures same { view_of self.new ≡ view_of self.old }
        ensures few { OnOk result (length self.new.touched.items < 7989) }
        ensures log { OnOk result (length self.new.log.items < vec_capacity self.new.log) }
        ensures touched { OnOk result (length self.new.touched.items < vec_capacity self.new.touched) }
    {
        if self.touched.len() >= 7_989 {
            return Err(AllocError);
        }
        self.log.reserve(1)?;
        self.touched.reserve(1)?;
        Ok(())
    }

    /// Notes a change, for which there is memory.
    pub fn note(&mut self, change: Undone)
        requires few { length self.old.touched.items < 7989 }
        requires log { length self.old.log.items < vec_capacity self.old.log }
        requires touched { length self.old.touched.items < vec_capacity self.old.touched }
        requires before { change.before ≤ 125 }
        requires after { change.after ≤ 125 }
        ensures { view_of self.new ≡ with_change (view_of self.old) change }
    {
        let row = change.row;
        let drawn = change.after.saturating_sub(change.before);
        let written = change.after.max(change.before);
        self.log.push(change).unwrap();
        self.touched.push(row).unwrap();
        self.drawn += u64::from(drawn);
        self.written += u64::from(written);
    }

    /// Forgets the changes from this number on, which were undone.
    pub fn cut(&mut self, number: usize)
        ensures { view_of self.new ≡ record { log = take number self.old.log.items; touched = self.old.touched.items; drawn = self.old.drawn; written = self.old.written } }
    {
        self.log.truncate(number);
    }

    /// Ends the transaction.
    pub fn end(&mut self)
        ensures { view_of self.new ≡ no_open }
    {
        self.log.clear();
        self.touched.clear();
        self.drawn = 0;
        self.written = 0;
    }
}
