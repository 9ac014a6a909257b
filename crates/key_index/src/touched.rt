//! The nodes of an index under their keys, and the list of the keys that were touched: those that a
//! client may keep, or under which it may have left rows.

ghost use Rattle.std.specs.Prelude.{◌≡◌, ◌≢◌, ◌↔◌, ℕ, false, if◌then◌else◌, List, IsTrue, IsSome, IsOk, OnErr, IfOk, IfSome, MatchOption, ◌∷◌, Some, None};
ghost use Rattle.std.specs.FinMap as map;
ghost use Rattle.key_index.specs.declared.touched.Keyed.{Keyed as KeyedOf};
ghost use Rattle.key_index.specs.Nodes.{IsBare, IsNodeForgotten, IsTouched, no_node, node_entered, node_left};
ghost use Rattle.key_index.specs.Touched.{AreKeysListed, EndsAt, IsKeyListed, ListsKey, keeper_at, keyed_at};

use crate::chain::{Chain, Links, Room};
use crate::index::Node;
use crate::rows::is_client;
use std::alloc::{AllocError, Global};
use std::collections::BTreeMap;
use std::mem;

/// A copy of a key, and room for it in the list of the keys that were touched.
#[derive(Drop)]
pub struct Spare {
    pub key: Vec<u8>,
    pub room: Room<Vec<u8>>,
}

/// The value of a key: its node, and what puts the key into the list, while that is unused.
#[derive(Drop)]
pub struct Keyed {
    pub node: Node,
    pub spare: Option<Spare>,
}

/// The keys with the value of each.
pub(crate) type Nodes = BTreeMap<Vec<u8>, Keyed>;

impl Keyed {
    /// A key with no row and no keeper.
    pub fn new(alloc: Global, key: &[u8]) -> Result<Keyed, AllocError>
        ensures node { IfOk result (λ keyed. keyed.node ≡ no_node) }
        ensures spare { IfOk result (λ keyed. IsSome keyed.spare) }
        ensures own { IfOk result (λ keyed. IfSome keyed.spare (λ spare. spare.key.items ≡ key.now)) }
    {
        let spare = Spare {
            key: Vec::from_slice(alloc, key)?,
            room: Room::new(alloc)?,
        };
        Ok(Keyed {
            node: Node::new(alloc),
            spare: Some(spare),
        })
    }

    /// Makes a row an entry, and the client the keeper of the key if it is unique. A unique key has to
    /// be listed then: returns what puts it into the list, if that is unused.
    pub fn enter(
        &mut self,
        alloc: Global,
        client: u16,
        row: u32,
        unique: bool,
    ) -> Result<Option<Spare>, AllocError>
        ensures node { IfOk result (λ _. self.new.node ≡ node_entered self.old.node client row unique) }
        ensures spare { IfOk result (λ _. self.new.spare ≡ (if unique then None else self.old.spare)) }
        ensures used { IfOk result (λ used. used ≡ (if unique then self.old.spare else None)) }
        ensures err { OnErr result (self.new ≡ self.old) }
        ensures known { IsSome (map.get self.old.node.rows row) → IsOk result }
    {
        self.node.enter(alloc, client, row, unique)?;
        if !unique {
            return Ok(None);
        }
        Ok(self.spare.take())
    }

    /// Makes a row that is here a placeholder of the client, and the client the keeper of the key if
    /// it is unique. Returns what puts the key into the list, if that is unused.
    pub fn leave(&mut self, client: u16, row: u32, unique: bool) -> Option<Spare>
        requires { IsSome (map.get self.old.node.rows row) }
        ensures node { self.new.node ≡ node_left self.old.node client row unique }
        ensures spare { self.new.spare ≡ None }
        ensures used { result ≡ self.old.spare }
    {
        self.node.leave(client, row, unique);
        self.spare.take()
    }

    /// Takes a row out, and has the key kept by this client or by none. Gives what puts the key into
    /// the list, if it is unused, so that an end looks at the key and takes it out where it is bare.
    pub fn forget(&mut self, row: u32, keeper: Option<u16>) -> Option<Spare>
        ensures node { IsNodeForgotten row keeper self.old.node self.new.node }
        ensures spare { self.new.spare ≡ None }
        ensures used { result ≡ self.old.spare }
    {
        self.node.forget(row, keeper);
        self.spare.take()
    }
}

/// Puts a key into the list, where there is one.
pub(crate) fn list(touched: &mut Chain<Vec<u8>>, spare: Option<Spare>)
    ensures { MatchOption spare (touched.new ≡ touched.old) (λ s. touched.new ≡ s.key ∷ touched.old) }
{
    let Some(Spare { key, room }) = spare else {
        return;
    };
    touched.add(key, room);
}

/// Takes the placeholders of a client away and frees the keys that it keeps. It goes over the list
/// alone.
pub(crate) fn end_keys(nodes: &mut Nodes, touched: &mut Chain<Vec<u8>>, client: u16)
    requires { AreKeysListed nodes.old touched.old }
    ensures listed { AreKeysListed nodes.new touched.new }
    ensures ended { (key : List ℕ) → EndsAt client (keyed_at nodes.old key) (keyed_at nodes.new key) }
{
    let mut rest = mem::replace(touched, Chain::new());
    while let Some((key, room)) = rest.take() {
        end_key(nodes, touched, key, room, client);
    }
}

/// Ends the client under one key. A key with nothing left goes; the list has the key again where it
/// is still touched, and else it gets what puts it into the list back.
fn end_key(
    nodes: &mut Nodes,
    touched: &mut Chain<Vec<u8>>,
    key: Vec<u8>,
    room: Room<Vec<u8>>,
    client: u16,
)
    requires { (keyed : KeyedOf) → keyed_at nodes.old key.items ≡ Some keyed → IfSome keyed.spare (λ spare. spare.key.items ≡ key.items) }
    ensures others { (other : List ℕ) → other ≢ key.items → keyed_at nodes.new other ≡ keyed_at nodes.old other }
    ensures ended { EndsAt client (keyed_at nodes.old key.items) (keyed_at nodes.new key.items) }
    ensures listed { (keyed : KeyedOf) → keyed_at nodes.new key.items ≡ Some keyed → IsKeyListed touched.new key.items keyed }
    ensures more { (other : List ℕ) → ListsKey touched.old other → ListsKey touched.new other }
    ensures left { (keyed : KeyedOf) → keyed_at nodes.new key.items ≡ Some keyed → ¬ IsBare keyed.node }
    ensures spare { (keyed : KeyedOf) → keyed_at nodes.new key.items ≡ Some keyed → ¬ IsTouched keyed.node → IsSome keyed.spare }
{
    let Some(keyed) = nodes.get_mut(key.as_slice()) else {
        return;
    };
    if !keyed.node.end(client) {
        let _ = nodes.remove(key.as_slice());
        return;
    }
    if keyed.node.is_touched() {
        touched.add(key, room);
        return;
    }
    keyed.spare = Some(Spare { key, room });
}

/// Whether the client keeps one of the keys of the list.
pub(crate) fn keeps_one(nodes: &Nodes, touched: &Chain<Vec<u8>>, client: u16) -> bool
    ensures found { IsTrue result → (key : List ℕ) × (keeper_at nodes.now key ≡ Some client) }
    ensures none { result ≡ false → (key : List ℕ) → ListsKey touched.now key → ¬ (keeper_at nodes.now key ≡ Some client) }
{
    let mut rest = &touched.links;
    while let Links::More(key, more) = rest {
        if keeps_key(nodes, key.as_slice(), client) {
            return true;
        }
        rest = more.as_ref();
    }
    false
}

/// Whether the client keeps the key.
fn keeps_key(nodes: &Nodes, key: &[u8], client: u16) -> bool
    ensures { IsTrue result ↔ (keeper_at nodes.now key.now ≡ Some client) }
{
    match nodes.get(key) {
        Some(keyed) => is_client(keyed.node.keeper, client),
        None => false,
    }
}
