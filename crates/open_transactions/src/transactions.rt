//! The transactions of all clients.

ghost use Rattle.std.specs.Prelude.{◌≡◌, ◌≢◌, ◌<◌, ◌≤◌, ◌+◌, ◌-◌, ◌^◌, ◌==◌, ◌||◌, ◌++◌, ◌∷◌, [], ℕ, List, Some, None, if◌then◌else◌, length, take, drop, get_or, true, false, IsTrue, IfOk, IfSome, IfNone};
ghost use Rattle.storage.specs.declared.slots.Undo.{Undo as Write};
ghost use Rattle.storage.specs.Slots.{Becomes, is_low, put, undone, joined, wrote};
ghost use Rattle.open_transactions.specs.Clients.{idle, transaction_in, number_in, list_in, due_in, memory_in, lists, due, lists_but, NothingDue, AreApart, OthersStay, ListsStay};

use crate::client::{Client, has_low_number};
use std::alloc::{AllocError, Global};
use storage::Undo;

/// The transactions of the clients 0 to 15.
#[derive(Drop)]
pub struct Transactions {
    pub clients: Vec<Client>,
    ghost sixteen: { length clients.items ≡ 16 },
    ghost apart: { AreApart clients.items },
}

/// Sixteen clients without a transaction.
fn idle_clients(alloc: Global) -> Result<Vec<Client>, AllocError>
    ensures sixteen { IfOk result (λ clients. length clients.items ≡ 16) }
    ensures idle { IfOk result (λ clients. (k : ℕ) → transaction_in clients.items k ≡ idle) }
    ensures none { IfOk result (λ clients. (k : ℕ) → list_in clients.items k ≡ []) }
    ensures numbers { IfOk result (λ clients. (k : ℕ) → number_in clients.items k ≡ None) }
{
    let mut clients = Vec::new(alloc);
    for _ in 0..16u32 {
        clients.push(Client::new(alloc))?;
    }
    Ok(clients)
}

impl Transactions {
    /// Sixteen clients without a transaction. Out of memory is the only refusal.
    pub fn new(alloc: Global) -> Result<Transactions, AllocError>
        ensures idle { IfOk result (λ t. (k : ℕ) → transaction_in t.clients.items k ≡ idle) }
        ensures none { IfOk result (λ t. (k : ℕ) → list_in t.clients.items k ≡ []) }
        ensures numbers { IfOk result (λ t. (k : ℕ) → number_in t.clients.items k ≡ None) }
    {
        Ok(Transactions {
            clients: idle_clients(alloc)?,
        })
    }

    /// The number under which the log may have writes of the client's last transaction.
    pub fn number(&self, client: u16) -> Option<u64>
        requires client { client < 16 }
        ensures { result ≡ number_in self.now.clients.items client }
    {
        self.clients[client as usize].number
    }

    /// How many writes of the transaction count.
    pub fn counted(&self, client: u16) -> u32
        requires client { client < 16 }
        ensures { result ≡ (transaction_in self.now.clients.items client).counted }
    {
        self.clients[client as usize].counted
    }

    /// How many writes of the transaction stand.
    pub fn standing(&self, client: u16) -> usize
        requires client { client < 16 }
        ensures { result ≡ length (transaction_in self.now.clients.items client).undo }
    {
        self.clients[client as usize].standing
    }

    /// How many writes of the client the slots still have.
    pub fn len(&self, client: u16) -> usize
        requires client { client < 16 }
        ensures { result ≡ length (list_in self.now.clients.items client) }
    {
        self.clients[client as usize].undo.len()
    }

    /// The write at this place of the client's list.
    pub fn write_at(&self, client: u16, place: usize) -> Undo
        requires client { client < 16 }
        requires place { place < length (list_in self.now.clients.items client) }
        ensures value { result ≡ get_or (list_in self.now.clients.items client) place result }
        ensures small { result.slot < 2 ^ 20 }
    {
        self.clients[client as usize].undo[place]
    }

    /// The first client with a write that is due.
    pub fn first_due(&self) -> Option<u16>
        ensures some { IfSome result (λ client. (client < 16) × (length (transaction_in self.now.clients.items client).undo < length (list_in self.now.clients.items client))) }
        ensures none { IfNone result (NothingDue self.now.clients.items) }
    {
        let mut client = 0u16;
        'clients: while client < 16 {
            if self.standing(client) < self.len(client) {
                return Some(client);
            }
            client += 1;
        }
        None
    }

    /// Begins a transaction of this number, with memory for ten writes of low slots. It returns
    /// whether there was memory.
    pub fn begin(&mut self, client: u16, number: u64) -> bool
        requires client { client < 16 }
        requires idle { (transaction_in self.old.clients.items client).begun ≡ false }
        requires none { list_in self.old.clients.items client ≡ [] }
        ensures yes { result ≡ true → Becomes client (transaction_in self.old.clients.items) (transaction_in self.new.clients.items) true [] (λ k. false) 0 0 0 }
        ensures number { result ≡ true → number_in self.new.clients.items client ≡ Some number }
        ensures no { result ≡ false → (transaction_in self.new.clients.items ≡ transaction_in self.old.clients.items) × (number_in self.new.clients.items ≡ number_in self.old.clients.items) }
        ensures others { OthersStay client self.old.clients.items self.new.clients.items }
        ensures lists { (list_in self.new.clients.items ≡ list_in self.old.clients.items) × (lists self.new.clients.items ≡ lists self.old.clients.items) }
        ensures due { due self.new.clients.items ≡ due self.old.clients.items }
        ensures none_due { NothingDue self.old.clients.items → NothingDue self.new.clients.items }
    {
        let client = &mut self.clients[client as usize];
        client.begin(number)
    }

    /// Takes memory for `writes` writes of the client. It returns whether there was memory.
    pub fn make_room(&mut self, client: u16, writes: u32) -> bool
        requires client { client < 16 }
        requires few { writes ≤ 7989 }
        ensures yes { result ≡ true → (let t = transaction_in self.old.clients.items client in Becomes client (transaction_in self.old.clients.items) (transaction_in self.new.clients.items) t.begun t.undo t.written t.counted t.low writes) }
        ensures no { result ≡ false → transaction_in self.new.clients.items ≡ transaction_in self.old.clients.items }
        ensures lists { ListsStay self.old.clients.items self.new.clients.items }
        ensures due { due self.new.clients.items ≡ due self.old.clients.items }
    {
        let client = &mut self.clients[client as usize];
        client.make_room(writes)
    }

    /// Takes memory for one write of the client where there is none. It returns whether there is
    /// some.
    pub fn reserve(&mut self, client: u16) -> bool
        requires client { client < 16 }
        ensures transactions { transaction_in self.new.clients.items ≡ transaction_in self.old.clients.items }
        ensures yes { result ≡ true → 0 < memory_in self.new.clients.items client }
        ensures promised { 0 < (transaction_in self.old.clients.items client).room → result ≡ true }
        ensures lists { ListsStay self.old.clients.items self.new.clients.items }
        ensures due { (due self.new.clients.items ≡ due self.old.clients.items) × (due_in self.new.clients.items ≡ due_in self.old.clients.items) }
    {
        let client = &mut self.clients[client as usize];
        client.reserve()
    }

    /// Takes memory for a write of the slot where there is none: a low slot has it from the begin. It
    /// returns whether there is some.
    pub fn reserve_for(&mut self, client: u16, slot: u32) -> bool
        requires client { client < 16 }
        ensures transactions { transaction_in self.new.clients.items ≡ transaction_in self.old.clients.items }
        ensures yes { result ≡ true → is_low slot ≡ false → 0 < memory_in self.new.clients.items client }
        ensures low { is_low slot ≡ true → result ≡ true }
        ensures promised { 0 < (transaction_in self.old.clients.items client).room → result ≡ true }
        ensures lists { ListsStay self.old.clients.items self.new.clients.items }
        ensures due { (due self.new.clients.items ≡ due self.old.clients.items) × (due_in self.new.clients.items ≡ due_in self.old.clients.items) }
    {
        if has_low_number(slot) {
            return true;
        }
        self.reserve(client)
    }

    /// Adds a write, for which there is memory, of a slot that is in no other list, where nothing
    /// is due. With the slot written, undoing all writes gives what it gave before.
    pub fn add(&mut self, client: u16, slot: u32, old: &[u8; 256])
        requires client { client < 16 }
        requires slot { slot < 2 ^ 20 }
        requires begun { (transaction_in self.old.clients.items client).begun ≡ true }
        requires none_due { NothingDue self.old.clients.items }
        requires alone { (c : ℕ) → c ≢ client → wrote (list_in self.old.clients.items c) slot ≡ false }
        requires room { is_low slot ≡ false → 0 < memory_in self.old.clients.items client }
        requires counted { is_low slot ≡ false → (transaction_in self.old.clients.items client).counted < 7989 }
        requires low { is_low slot ≡ true → (transaction_in self.old.clients.items client).low < 10 }
        ensures becomes { let t = transaction_in self.old.clients.items client in Becomes client (transaction_in self.old.clients.items) (transaction_in self.new.clients.items) true (t.undo ++ record { slot = slot; old = old.now } ∷ []) (λ k. (k == slot) || t.written k) (if is_low slot then t.counted else t.counted + 1) (if is_low slot then t.low + 1 else t.low) (t.room - 1) }
        ensures others { OthersStay client self.old.clients.items self.new.clients.items }
        ensures number { number_in self.new.clients.items ≡ number_in self.old.clients.items }
        ensures none_due { NothingDue self.new.clients.items }
        ensures list { list_in self.new.clients.items client ≡ list_in self.old.clients.items client ++ record { slot = slot; old = old.now } ∷ [] }
        ensures undone { (slots : ℕ → List ℕ) (bytes : List ℕ) → slots slot ≡ old.now → (s : ℕ) → undone (lists self.new.clients.items) (put slots slot bytes) s ≡ undone (lists self.old.clients.items) slots s }
    {
        let client = &mut self.clients[client as usize];
        client.add(slot, old);
    }

    /// The last write of the client.
    pub fn last(&self, client: u16) -> Undo
        requires client { client < 16 }
        requires some { 0 < length (list_in self.now.clients.items client) }
        ensures last { (us : List Write) (u : Write) → list_in self.now.clients.items client ≡ us ++ u ∷ [] → result ≡ u }
        ensures small { result.slot < 2 ^ 20 }
    {
        let place = self.len(client) - 1;
        self.write_at(client, place)
    }

    /// Removes the last write of the client, which was due and is undone. With the slot as it was
    /// before that write, undoing all writes gives what it gave before, and so does undoing those
    /// that are due.
    pub fn pop(&mut self, client: u16) -> Undo
        requires client { client < 16 }
        requires due { length (transaction_in self.old.clients.items client).undo < length (list_in self.old.clients.items client) }
        ensures list { list_in self.old.clients.items client ≡ list_in self.new.clients.items client ++ result ∷ [] }
        ensures others { OthersStay client self.old.clients.items self.new.clients.items }
        ensures transactions { transaction_in self.new.clients.items ≡ transaction_in self.old.clients.items }
        ensures number { number_in self.new.clients.items ≡ number_in self.old.clients.items }
        ensures undone { (slots : ℕ → List ℕ) (s : ℕ) → undone (lists self.new.clients.items) (put slots result.slot result.old) s ≡ undone (lists self.old.clients.items) slots s }
        ensures due_undone { (slots : ℕ → List ℕ) (s : ℕ) → undone (due self.new.clients.items) (put slots result.slot result.old) s ≡ undone (due self.old.clients.items) slots s }
        ensures fewer { length (lists self.new.clients.items) < length (lists self.old.clients.items) }
    {
        let client = &mut self.clients[client as usize];
        client.pop()
    }

    /// Lets the writes from this place on be due.
    pub fn go_back(&mut self, client: u16, stand: usize)
        requires client { client < 16 }
        requires stand { stand ≤ length (transaction_in self.old.clients.items client).undo }
        ensures becomes { let t = transaction_in self.old.clients.items client in Becomes client (transaction_in self.old.clients.items) (transaction_in self.new.clients.items) t.begun (take stand t.undo) t.written t.counted t.low t.room }
        ensures lists { ListsStay self.old.clients.items self.new.clients.items }
        ensures due { (slots : ℕ → List ℕ) (s : ℕ) → undone (due self.new.clients.items) slots s ≡ undone (drop stand (transaction_in self.old.clients.items client).undo) (undone (due self.old.clients.items) slots) s }
    {
        let client = &mut self.clients[client as usize];
        client.go_back(stand);
    }

    /// Ends the transaction. Its writes are due from now on.
    pub fn abandon(&mut self, client: u16)
        requires client { client < 16 }
        ensures ended { Becomes client (transaction_in self.old.clients.items) (transaction_in self.new.clients.items) false [] (λ k. false) 0 0 0 }
        ensures lists { ListsStay self.old.clients.items self.new.clients.items }
        ensures due { (slots : ℕ → List ℕ) (s : ℕ) → undone (due self.new.clients.items) slots s ≡ undone (transaction_in self.old.clients.items client).undo (undone (due self.old.clients.items) slots) s }
    {
        let client = &mut self.clients[client as usize];
        client.abandon();
    }

    /// Ends the transaction and forgets its writes, which are committed. Undoing the writes that are
    /// left gives the client's slots as they read, and the others as undoing all gave them.
    pub fn commit(&mut self, client: u16)
        requires client { client < 16 }
        ensures ended { Becomes client (transaction_in self.old.clients.items) (transaction_in self.new.clients.items) false [] (λ k. false) 0 0 0 }
        ensures others { OthersStay client self.old.clients.items self.new.clients.items }
        ensures number { number_in self.new.clients.items client ≡ None }
        ensures list { list_in self.new.clients.items client ≡ [] }
        ensures lists { lists self.new.clients.items ≡ lists_but client self.old.clients.items }
        ensures none_due { NothingDue self.old.clients.items → NothingDue self.new.clients.items }
        ensures joined { (slots : ℕ → List ℕ) (s : ℕ) → undone (lists self.new.clients.items) slots s ≡ joined (list_in self.old.clients.items client) slots (undone (lists self.old.clients.items) slots) s }
    {
        let client = &mut self.clients[client as usize];
        client.commit();
    }
}
