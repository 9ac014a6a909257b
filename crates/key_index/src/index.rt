//! The index.

ghost use Rattle.std.specs.Prelude.{◌≡◌, ◌≤◌, ◌↔◌, ℕ, true, false, IsTrue, IsSome, IsOk, OnOk, OnErr, IfNone, IfOk, IfSome, MatchOption, Some, None};
ghost use Rattle.std.specs.FinMap as map;
ghost use Rattle.std.specs.Option.{option_copied};
ghost use Rattle.key_index.specs.Index.{Forgets, IsEnded, IsEntry, IsSame, KeepsSome, MayEnter, NoOtherKeeps, Puts, keeper_of, place_at};
ghost use Rattle.key_index.specs.Places.{IsAbove};
ghost use Rattle.key_index.specs.Search.{FindsNone, FindsNoneAmong, IsKeyBeyond, IsNext, IsNextAmong};

use crate::chain::Chain;
use crate::prefix::begins_with;
use crate::rows::{Rows, is_client};
use crate::seek::{first_entry, last_entry};
use crate::span::{span_after, span_before};
use crate::touched::{Keyed, Nodes, end_keys, keeps_one, list};
use abl_base::{Bytes, RowId};
use database_protocol::Cursor;
use std::alloc::{AllocError, Global};
use std::collections::BTreeMap;
use std::marker::Model;

/// The rows under one key, and the client that keeps the key.
#[derive(Drop)]
pub struct Node {
    pub rows: Rows,
    pub keeper: Option<u16>,
}

impl Node {
    ghost use Rattle.key_index.specs.Nodes.{no_node, node_entered, node_left, IsBare, IsNodeEnded, IsNodeForgotten, IsTouched};

    /// No row, and no keeper.
    pub(crate) fn new(alloc: Global) -> Node
        ensures { result ≡ no_node }
    {
        Node {
            rows: Rows::new(alloc),
            keeper: None,
        }
    }

    /// Makes a row an entry, and the client the keeper of the key if it is unique.
    pub(crate) fn enter(
        &mut self,
        alloc: Global,
        client: u16,
        row: u32,
        unique: bool,
    ) -> Result<(), AllocError>
        ensures ok { OnOk result (self.new ≡ node_entered self.old client row unique) }
        ensures err { OnErr result (self.new ≡ self.old) }
        ensures known { IsSome (map.get self.old.rows row) → IsOk result }
    {
        self.rows.enter(alloc, row)?;
        if unique {
            self.keeper = Some(client);
        }
        Ok(())
    }

    /// Makes a row that is here a placeholder of the client, and the client the keeper of the key if
    /// it is unique. It takes no memory.
    pub(crate) fn leave(&mut self, client: u16, row: u32, unique: bool)
        requires { IsSome (map.get self.old.rows row) }
        ensures { self.new ≡ node_left self.old client row unique }
    {
        self.rows.leave(row, client);
        if unique {
            self.keeper = Some(client);
        }
    }

    /// Takes a row out, and has the key kept by this client or by none. It takes no memory.
    pub(crate) fn forget(&mut self, row: u32, keeper: Option<u16>)
        ensures { IsNodeForgotten row keeper self.old self.new }
    {
        self.rows.forget(row);
        self.keeper = keeper;
    }

    /// Takes the placeholders of a client away, and frees the key if the client keeps it. Returns
    /// whether anything is left.
    pub(crate) fn end(&mut self, client: u16) -> bool
        ensures ended { IsNodeEnded client self.old self.new }
        ensures left { result ≡ false ↔ IsBare self.new }
    {
        self.rows.end(client);
        if self.keeper == Some(client) {
            self.keeper = None;
        }
        self.keeper.is_some() || !self.rows.is_empty()
    }

    /// Whether a client keeps the key, or left a row under it.
    pub(crate) fn is_touched(&self) -> bool
        ensures { IsTrue result ↔ IsTouched self.now }
    {
        self.keeper.is_some() || self.rows.has_left()
    }
}

/// What an index has at a place, and the client that keeps the key of the place.
#[derive(Clone, Copy, Debug)]
pub struct PlaceState {
    pub place: Option<Option<u16>>,
    pub keeper: Option<u16>,
}

/// The entries, placeholders and kept keys of an index.
#[derive(Drop)]
pub struct Index {
    nodes: Nodes,
    touched: Chain<Vec<u8>>,
}

impl Model for Index {
    ghost use Rattle.std.specs.Ordering.{nat_cmp};
    ghost use Rattle.std.specs.Cmp.Lexicographic.{slice_cmp};
    ghost use Rattle.std.specs.Coded.{coded_ℕ, coded_list};
    ghost use Rattle.std.specs.FinMap as map;
    ghost use Rattle.key_index.specs.declared.index.Node.{Node};
    ghost use Rattle.key_index.specs.contracts.index.Node as node;
    ghost use Rattle.key_index.specs.Keyed.{by_bytes};
    ghost use Rattle.key_index.specs.Touched.{AreKeysListed, nodes_of};

    ghost Value = { map.FinMap (slice_cmp nat_cmp) Node };

    ghost coded = { map.code (coded_list coded_ℕ) node.the_row.coded };

    ghost view = { λ index. map.from_entries (by_bytes (nodes_of index.nodes.entries)) };

    ghost invariant = { λ index. AreKeysListed index.nodes index.touched };
}

impl Index {
    /// The index with no entry.
    pub fn new(alloc: Global) -> Index
        ensures { result ≡ map.empty }
    {
        Index {
            nodes: BTreeMap::new(alloc),
            touched: Chain::new(),
        }
    }

    /// The first entry after the cursor whose key begins with the prefix, or the last one before it
    /// where the search does not go forward; without a cursor the first or the last of all.
    /// Placeholders are passed over. It fails only out of memory.
    pub fn next(
        &self,
        cursor: Option<&Cursor>,
        prefix: &Bytes,
        forward: bool,
    ) -> Result<Option<Cursor>, AllocError>
        ensures { IfOk result (λ found. MatchOption found (FindsNone self.now (option_copied cursor.entry) prefix.now forward) (λ f. IsNext self.now (option_copied cursor.entry) prefix.now forward f)) }
    {
        let Some(from) = cursor else {
            return self.beyond(None, prefix, forward);
        };
        let Some(row) = self.beside(from, prefix, forward) else {
            return self.beyond(Some(from), prefix, forward);
        };
        Ok(Some(Cursor {
            key: from.key.copy()?,
            row: RowId(row),
        }))
    }

    /// The row of the first entry beyond the cursor that has the cursor's own key.
    fn beside(&self, cursor: &Cursor, prefix: &Bytes, forward: bool) -> Option<u32>
        ensures { MatchOption result (FindsNoneAmong (λ key. key ≡ cursor.now.key) self.now (Some cursor.now) prefix.now forward) (λ row. IsNextAmong (λ key. key ≡ cursor.now.key) self.now (Some cursor.now) prefix.now forward cursor.now.key row) }
    {
        let keyed = self.nodes.get(cursor.key.as_slice())?;
        if !begins_with(cursor.key.as_slice(), prefix.as_slice()) {
            return None;
        }
        if forward {
            keyed.node.rows.least(Some(cursor.row.0))
        } else {
            keyed.node.rows.greatest(Some(cursor.row.0))
        }
    }

    /// The first entry under a key beyond the cursor's.
    fn beyond(
        &self,
        cursor: Option<&Cursor>,
        prefix: &Bytes,
        forward: bool,
    ) -> Result<Option<Cursor>, AllocError>
        ensures { IfOk result (λ found. MatchOption found (FindsNoneAmong (IsKeyBeyond (option_copied cursor.entry) forward) self.now (option_copied cursor.entry) prefix.now forward) (λ f. IsNextAmong (IsKeyBeyond (option_copied cursor.entry) forward) self.now (option_copied cursor.entry) prefix.now forward f.key f.row.0)) }
    {
        if forward {
            self.after_cursor(cursor, prefix)
        } else {
            self.before_cursor(cursor, prefix)
        }
    }

    /// The first entry under a key after the cursor's.
    fn after_cursor(
        &self,
        cursor: Option<&Cursor>,
        prefix: &Bytes,
    ) -> Result<Option<Cursor>, AllocError>
        ensures { IfOk result (λ found. MatchOption found (FindsNoneAmong (IsKeyBeyond (option_copied cursor.entry) true) self.now (option_copied cursor.entry) prefix.now true) (λ f. IsNextAmong (IsKeyBeyond (option_copied cursor.entry) true) self.now (option_copied cursor.entry) prefix.now true f.key f.row.0)) }
    {
        let alloc = prefix.allocator();
        let Some(ends) = span_after(alloc, cursor, prefix.as_slice())? else {
            return Ok(None);
        };
        let Some((key, row)) = first_entry(self.nodes.range(ends), prefix.as_slice()) else {
            return Ok(None);
        };
        Ok(Some(Cursor {
            key: Bytes::of(alloc, key.as_slice())?,
            row: RowId(row),
        }))
    }

    /// The last entry under a key before the cursor's.
    fn before_cursor(
        &self,
        cursor: Option<&Cursor>,
        prefix: &Bytes,
    ) -> Result<Option<Cursor>, AllocError>
        ensures { IfOk result (λ found. MatchOption found (FindsNoneAmong (IsKeyBeyond (option_copied cursor.entry) false) self.now (option_copied cursor.entry) prefix.now false) (λ f. IsNextAmong (IsKeyBeyond (option_copied cursor.entry) false) self.now (option_copied cursor.entry) prefix.now false f.key f.row.0)) }
    {
        let alloc = prefix.allocator();
        let Some(ends) = span_before(alloc, cursor, prefix.as_slice())? else {
            return Ok(None);
        };
        let Some((key, row)) = last_entry(self.nodes.range(ends), prefix.as_slice()) else {
            return Ok(None);
        };
        Ok(Some(Cursor {
            key: Bytes::of(alloc, key.as_slice())?,
            row: RowId(row),
        }))
    }

    /// Whether the client may enter here: the place is empty or has a placeholder of its own.
    pub fn may_enter(&self, client: u16, key: &Bytes, row: RowId) -> bool
        ensures { IsTrue result ↔ MayEnter self.now client key.now row.0 }
    {
        match self.place(key, row) {
            None => true,
            Some(owner) => is_client(owner, client),
        }
    }

    /// Whether the place has an entry.
    pub fn has_entry(&self, key: &Bytes, row: RowId) -> bool
        ensures { IsTrue result ↔ IsEntry self.now key.now row.0 }
    {
        match self.place(key, row) {
            None => false,
            Some(owner) => owner.is_none(),
        }
    }

    /// Whether no other client keeps the key.
    pub fn may_keep(&self, client: u16, key: &Bytes) -> bool
        ensures { IsTrue result ↔ NoOtherKeeps self.now client key.now }
    {
        match self.keeper(key) {
            None => true,
            Some(other) => other == client,
        }
    }

    /// The content of the place: None if it is empty, Some None for an entry, or the client whose
    /// placeholder it has.
    fn place(&self, key: &Bytes, row: RowId) -> Option<Option<u16>>
        ensures { result ≡ place_at self.now key.now row.0 }
    {
        self.nodes.get(key.as_slice())?.node.rows.get(row.0)
    }

    /// The content of the place and the keeper of its key, by one search. The place is None if it is
    /// empty, Some None for an entry, or the client whose placeholder it has. It takes no memory.
    pub fn state(&self, key: &Bytes, row: RowId) -> PlaceState
        ensures place { result.place ≡ place_at self.now key.now row.0 }
        ensures keeper { result.keeper ≡ keeper_of self.now key.now }
    {
        match self.nodes.get(key.as_slice()) {
            None => PlaceState {
                place: None,
                keeper: None,
            },
            Some(keyed) => PlaceState {
                place: keyed.node.rows.get(row.0),
                keeper: keyed.node.keeper,
            },
        }
    }

    /// The least row that has an entry under this very key, above the given row where one is given.
    /// It takes no memory.
    pub fn least(&self, key: &Bytes, above: Option<u32>) -> Option<u32>
        ensures found { IfSome result (λ row. IsEntry self.now key.now row) }
        ensures beyond { IfSome result (λ row. IsAbove above row) }
        ensures first { IfSome result (λ row. (q : ℕ) → IsAbove above q → IsEntry self.now key.now q → row ≤ q) }
        ensures none { IfNone result ((q : ℕ) → IsAbove above q → ¬ IsEntry self.now key.now q) }
    {
        let keyed = self.nodes.get(key.as_slice())?;
        keyed.node.rows.least(above)
    }

    /// Whether the client keeps a key. It takes no memory, and goes over the same keys as `end`.
    pub fn keeps(&self, client: u16) -> bool
        ensures { IsTrue result ↔ KeepsSome self.now client }
    {
        keeps_one(&self.nodes, &self.touched, client)
    }

    /// The client that keeps the key. It takes no memory.
    pub fn keeper(&self, key: &Bytes) -> Option<u16>
        ensures { result ≡ keeper_of self.now key.now }
    {
        self.nodes.get(key.as_slice())?.node.keeper
    }

    /// Adds an entry. If `unique` says that the key is a unique key, the client keeps it from now on.
    /// It fails only out of memory, and not if the client takes back an entry that it left.
    pub fn enter(
        &mut self,
        client: u16,
        key: &Bytes,
        row: RowId,
        unique: bool,
    ) -> Result<(), AllocError>
        requires free { MayEnter self.old client key.now row.0 }
        requires unkept { IsTrue unique → NoOtherKeeps self.old client key.now }
        ensures ok { OnOk result (Puts self.old client key.now row.0 unique None self.new) }
        ensures err { OnErr result (IsSame self.old self.new) }
        ensures taken_back { place_at self.old key.now row.0 ≡ Some (Some client) → IsOk result }
    {
        let alloc = key.allocator();
        if let Some(keyed) = self.nodes.get_mut(key.as_slice()) {
            let used = keyed.enter(alloc, client, row.0, unique)?;
            list(&mut self.touched, used);
            return Ok(());
        }
        let bytes = Vec::from_slice(alloc, key.as_slice())?;
        let mut keyed = Keyed::new(alloc, key.as_slice())?;
        let used = keyed.enter(alloc, client, row.0, unique)?;
        self.nodes.insert(bytes, keyed)?;
        list(&mut self.touched, used);
        Ok(())
    }

    /// Takes an entry out: a placeholder of the client stays in its place, and the client keeps the
    /// key if it is unique. It takes no memory.
    pub fn leave(&mut self, client: u16, key: &Bytes, row: RowId, unique: bool)
        requires there { place_at self.old key.now row.0 ≡ Some None }
        requires unkept { IsTrue unique → NoOtherKeeps self.old client key.now }
        ensures { Puts self.old client key.now row.0 unique (Some client) self.new }
    {
        let Some(keyed) = self.nodes.get_mut(key.as_slice()) else {
            return;
        };
        let used = keyed.leave(client, row.0, unique);
        list(&mut self.touched, used);
    }

    /// Takes an entry out as if it had never been entered: no placeholder stays, and `keeper` is the
    /// client that keeps the key, or None. With the keeper from before an `enter` at an empty place
    /// this undoes that `enter` (law `forget_undoes_enter`). It takes no memory.
    pub fn forget(&mut self, key: &Bytes, row: RowId, keeper: Option<u16>)
        requires { IsEntry self.old key.now row.0 }
        ensures { Forgets self.old key.now row.0 keeper self.new }
    {
        let Some(keyed) = self.nodes.get_mut(key.as_slice()) else {
            return;
        };
        let used = keyed.forget(row.0, keeper);
        list(&mut self.touched, used);
    }

    /// Removes the client's placeholders and frees the keys that it keeps. It takes no memory, and its
    /// time grows with the keys and rows that any client touched since the last end, and with those
    /// that other clients still keep or left; entries that none of them touched do not count.
    pub fn end(&mut self, client: u16)
        ensures { IsEnded client self.old self.new }
    {
        end_keys(&mut self.nodes, &mut self.touched, client);
    }
}
