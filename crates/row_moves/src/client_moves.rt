//! The moves of a client's changes.

ghost use Rattle.std.specs.Prelude.{◌≡◌, ◌<◌, ◌++◌, ◌∷◌, ℕ, [], length, vec_capacity, IfOk, OnOk};
ghost use Rattle.row_moves.specs.Moved.{HasRoom, moved_in};

use row_indexes::Moved;
use std::alloc::{AllocError, Global};

/// The moves of the changes of one client's transaction that are not undone, the oldest first.
#[derive(Drop)]
pub struct ClientMoves {
    pub changes: Vec<Moved>,
}

impl ClientMoves {
    /// Adds a change, for which there is memory.
    pub(crate) fn add(&mut self, change: Moved)
        requires { length self.old.changes.items < vec_capacity self.old.changes }
        ensures { self.new.changes.items ≡ self.old.changes.items ++ change ∷ [] }
    {
        self.changes.push(change).unwrap();
    }
}

/// A client without a transaction. It takes no memory.
fn idle_client(alloc: Global) -> ClientMoves
    ensures { result.changes.items ≡ [] }
{
    ClientMoves {
        changes: Vec::new(alloc),
    }
}

/// Sixteen clients without a transaction.
pub fn idle_clients(alloc: Global) -> Result<Vec<ClientMoves>, AllocError>
    ensures sixteen { IfOk result (λ clients. length clients.items ≡ 16) }
    ensures idle { IfOk result (λ clients. (c : ℕ) → moved_in clients.items c ≡ []) }
{
    let mut clients = Vec::new(alloc);
    for _ in 0..16u32 {
        clients.push(idle_client(alloc))?;
    }
    Ok(clients)
}

/// Reserves the memory for one more change of the client. After an error nothing has changed.
pub fn reserve(clients: &mut Vec<ClientMoves>, client: u16) -> Result<(), AllocError>
    requires client { client < length clients.old.items }
    ensures room { OnOk result (HasRoom clients.new.items client) }
    ensures same { (c : ℕ) → moved_in clients.new.items c ≡ moved_in clients.old.items c }
    ensures count { length clients.new.items ≡ length clients.old.items }
{
    let own = &mut clients[client as usize];
    own.changes.reserve(1)?;
    Ok(())
}
