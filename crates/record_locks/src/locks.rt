//! The locks of all clients, and what clients wait for.

ghost use Rattle.std.specs.Prelude.{◌≡◌, ◌≢◌, ◌↔◌, ◌<◌, ◌≤◌, ◌+◌, ℕ, Bool, List, length, true, false, IsTrue, IsSome, is_some, None, OnOk, OnErr, IfOk, MatchOption};
ghost use Rattle.std.specs.FinMap as map;
ghost use Rattle.database_meaning.specs.Waiting.{Chain, IsCycleFrom, ListsAll, WithAsked};
ghost use Rattle.std.specs.List.{Contains};
ghost use Rattle.record_locks.specs.Settled.{IsFreed, has_row, settled};
ghost use Rattle.record_locks.specs.Table.{client_of, lock_of, no_client, AreApart, IsSame, OnlyChanges, Settles, ConflictsOnLock, WaitsAgainst};
ghost use Rattle.record_locks.specs.Requests.{granted};

use crate::held::Held;
use crate::search::{Search, find_cycle, holders};
use abl_base::{Items, RowId};
use database_protocol::{ClientIds, RowIds};
use std::alloc::{AllocError, Global};
use std::marker::Model;

/// The lock that a client waits for.
#[derive(Clone, Copy, Debug, PartialEq, Eq)]
pub struct BlockedLock {
    pub row: RowId,
    pub exclusive: bool,
}

/// What one client holds, and what it waits for.
#[derive(Drop)]
pub struct Client {
    pub held: Held,
    pub blocked: Option<BlockedLock>,
}

/// The clients that have reserved the key that a client waits for, ascending.
#[derive(Drop)]
pub struct KeyWait {
    pub client: u16,
    pub holders: ClientIds,
}

/// What all other clients wait for by keys.
pub type KeyWaits = Items<KeyWait>;

/// The locks of all clients, and what clients wait for. Contracts see a record for each client
/// number, and beyond the last one clients that hold nothing and wait for nothing.
#[derive(Drop)]
pub struct Locks {
    clients: Vec<Client>,
}

impl Model for Locks {
    ghost use Rattle.std.specs.Prelude.{List, length, ◌≤◌};
    ghost use Rattle.record_locks.specs.declared.locks.Client.{Client};
    ghost use Rattle.std.specs.Coded.{coded_list};
    ghost use Rattle.record_locks.specs.contracts.locks.Client as client;

    ghost Value = { List Client };

    ghost coded = { coded_list client.the_row.coded };

    ghost view = { λ locks. locks.clients.items };

    ghost invariant = { λ locks. length locks.clients.items ≤ 65536 };
}

impl Locks {
    /// No lock. It takes no memory yet.
    pub fn new(alloc: Global) -> Locks
        ensures { (c : ℕ) → client_of result c ≡ no_client }
    {
        Locks {
            clients: Vec::new(alloc),
        }
    }

    /// The client's lock on the row: None, or true where it is exclusive.
    pub fn held(&self, client: u16, row: RowId) -> Option<bool>
        ensures { result ≡ lock_of self.now client row.0 }
    {
        match self.clients.get(usize::from(client)) {
            Some(client) => client.held.lock(row.0),
            None => None,
        }
    }

    /// Removes the client's lock on the row, and returns whether there was one.
    pub fn release(&mut self, client: u16, row: RowId) -> bool
        ensures freed { result ≡ is_some (lock_of self.old client row.0) }
        ensures left { OnlyChanges self.old client (record (client_of self.old client) { held = map.remove (client_of self.old client).held row.0 }) self.new }
    {
        let at = usize::from(client);
        if at >= self.clients.len() {
            return false;
        }
        self.clients[at].held.free(row.0)
    }

    /// Ends the client's transaction: its locks on rows outside `keep` go, and its exclusive locks
    /// on rows of `keep` become share locks. Returns whether that freed a lock; one that became a
    /// share lock counts as freed.
    pub fn end_transaction(&mut self, client: u16, keep: &RowIds) -> bool
        ensures freed { IsTrue result ↔ ((row : ℕ) × IsFreed (has_row keep.now row) (lock_of self.old client row)) }
        ensures left { Settles self.old client keep.now self.new }
    {
        let at = usize::from(client);
        if at >= self.clients.len() {
            return false;
        }
        self.clients[at].held.settle(keep.as_slice())
    }

    /// Removes all locks of the client and what it waits for. Returns whether that freed a lock.
    pub fn end(&mut self, client: u16) -> bool
        ensures freed { IsTrue result ↔ ((row : ℕ) × IsSome (lock_of self.old client row)) }
        ensures left { OnlyChanges self.old client no_client self.new }
    {
        let at = usize::from(client);
        if at >= self.clients.len() {
            return false;
        }
        let ended = &mut self.clients[at];
        ended.blocked = None;
        ended.held.free_all()
    }

    /// The client no longer waits.
    pub fn end_wait(&mut self, client: u16)
        ensures { OnlyChanges self.old client (record (client_of self.old client) { blocked = None }) self.new }
    {
        let at = usize::from(client);
        if at < self.clients.len() {
            self.clients[at].blocked = None;
        }
    }

    /// A cycle that would close if the client waited for these; None where there is none. It begins with
    /// the client, and its clients all differ. Each waits for the next, and the last for the first. An
    /// error means out of memory.
    pub fn would_cycle(
        &self,
        client: u16,
        holders: &ClientIds,
        key_waits: &KeyWaits,
    ) -> Result<Option<ClientIds>, AllocError>
        ensures { IfOk result (λ found. MatchOption found ((others : List ℕ) → ¬ Chain (WaitsAgainst self.now key_waits.now client holders.now) client others client)
            (IsCycleFrom (WaitsAgainst self.now key_waits.now client holders.now) client)) }
    {
        let search = Search {
            table: self.clients.as_slice(),
            key_waits: key_waits.as_slice(),
            client,
            against: holders.as_slice(),
        };
        match find_cycle(holders.allocator(), search)? {
            Some(cycle) => Ok(Some(Items::from_vec(cycle))),
            None => Ok(None),
        }
    }

    /// The clients whose locks conflict with the lock, ascending. It changes nothing; an error means
    /// out of memory.
    pub fn against(
        &self,
        alloc: Global,
        client: u16,
        row: RowId,
        exclusive: bool,
    ) -> Result<ClientIds, AllocError>
        ensures { IfOk result (λ against. ListsAll against (ConflictsOnLock self.now client row.0 exclusive)) }
    {
        let listed = holders(alloc, self.clients.as_slice(), client, row, exclusive)?;
        Ok(Items::from_vec(listed))
    }

    /// Grants the client the lock; it then waits for nothing. An error means out of memory; all clients
    /// are then as before. The caller has seen that `against` is empty.
    pub fn grant(
        &mut self,
        alloc: Global,
        client: u16,
        row: RowId,
        exclusive: bool,
    ) -> Result<(), AllocError>
        ensures ok { OnOk result (OnlyChanges self.old client (record { held = map.insert (client_of self.old client).held row.0 (granted (lock_of self.old client row.0) exclusive); blocked = None }) self.new) }
        ensures err { OnErr result (IsSame self.old self.new) }
    {
        self.make_room(alloc, client)?;
        let asked = &mut self.clients[usize::from(client)];
        let lock = granted(asked.held.lock(row.0), exclusive);
        asked.held.set(row.0, lock)?;
        asked.blocked = None;
        Ok(())
    }

    /// Lets the client wait for the lock. An error means out of memory; all clients are then as before.
    pub fn block(
        &mut self,
        alloc: Global,
        client: u16,
        blocked: BlockedLock,
    ) -> Result<(), AllocError>
        ensures ok { OnOk result (OnlyChanges self.old client (record { held = (client_of self.old client).held; blocked = Some blocked }) self.new) }
        ensures err { OnErr result (IsSame self.old self.new) }
    {
        self.make_room(alloc, client)?;
        self.clients[usize::from(client)].blocked = Some(blocked);
        Ok(())
    }

    /// Makes room for the client. An error means out of memory; each client stays as it was.
    fn make_room(&mut self, alloc: Global, client: u16) -> Result<(), AllocError>
        ensures same { IsSame self.old self.new }
        ensures room { OnOk result (client < length self.new) }
    {
        let end = usize::from(client) + 1;
        while self.clients.len() < end {
            self.clients.push(Client {
                held: Held::new(alloc),
                blocked: None,
            })?;
        }
        Ok(())
    }
}

/// The lock after a grant: exclusive if the request or the lock before it was exclusive.
fn granted(before: Option<bool>, exclusive: bool) -> bool
    ensures { result ≡ granted before exclusive }
{
    before.unwrap_or(false) || exclusive
}
