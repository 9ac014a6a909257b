//! Whether the writes of unfinished transactions can be carried.

ghost use Rattle.std.specs.Prelude.{◌≡◌, ◌<◌, ◌≤◌, ℕ, length, true};
ghost use Rattle.storage.specs.Slots.{wrote};
ghost use Rattle.open_transactions.specs.Clients.{list_in};

use open_transactions::Transactions;

/// The most writes of one client that are carried: 7,989 that count, and ten of low slots.
const MOST_WRITES: usize = 7_999;

/// Whether each write of the client is of a slot below `end`.
fn are_below(transactions: &Transactions, client: u16, end: u32) -> bool
    requires client { client < 16 }
    ensures below { result ≡ true → (slot : ℕ) → wrote (list_in transactions.now.clients.items client) slot ≡ true → slot < end }
{
    let count = transactions.len(client);
    let mut i = 0;
    'writes: while i < count {
        if transactions.write_at(client, i).slot >= end {
            return false;
        }
        i += 1;
    }
    true
}

/// Whether each client has few writes, and each is of a slot below `end`.
pub fn may_carry(transactions: &Transactions, end: u32) -> bool
    ensures below { result ≡ true → (client slot : ℕ) → client < 16 → wrote (list_in transactions.now.clients.items client) slot ≡ true → slot < end }
    ensures few { result ≡ true → (client : ℕ) → client < 16 → length (list_in transactions.now.clients.items client) ≤ 7999 }
{
    let mut client = 0u16;
    'clients: while client < 16 {
        if transactions.len(client) > MOST_WRITES {
            return false;
        }
        if !are_below(transactions, client, end) {
            return false;
        }
        client += 1;
    }
    true
}
