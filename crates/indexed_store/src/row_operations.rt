//! `RecordStore` as a `RowStore`.

ghost use Rattle.std.proofs.Common.{sym, true≢false, ◌∙◌};
ghost use Rattle.row_indexes.specs.Places.{keepers_of};
ghost use Rattle.row_keys.specs.Reserved.{reserved_at};
ghost use Rattle.row_keys.proofs.Kept.{reserved_none};
ghost use Rattle.slot_rows.proofs.Consistent.{consistent as rows_are_consistent};
ghost use Rattle.slot_rows.specs.Durable.{left_in, times_in};
ghost use Rattle.indexed_store.specs.State.{store_state};

use crate::changes::prepare;
use crate::questions::{least_duplicate, place_found, reserved_against};
use crate::reads::{found, old_row, read, replaced};
use crate::sequences::store_values;
use crate::store::RecordStore;
use abl_base::{Row, RowId};
use database_protocol::{ClientIds, Cursor};
use row_keys::{has_reserved, long_key};
use row_moves::{cancel, end, finish, give_up, go_back};
use row_store::{Duplicate, FoundRow, RowFault, RowStore};
use storage::Slots;

impl<S: Slots + Drop> RowStore for RecordStore<S> {
    ghost state = { λ s. store_state s.rows.schema s.indexes.items s.sequences.items (S.Slots.state s.rows.chains.slots) s.rows.opens.items };

    ghost faults = { λ s. (S.Slots.state s.rows.chains.slots).faults };

    ghost times = { λ s. times_in s.rows.schema (S.Slots.state s.rows.chains.slots) };

    ghost left = { λ s. left_in s.rows.schema (S.Slots.stop s.rows.chains.slots) };

    fn table(&mut self, row: RowId) -> Result<Option<u16>, RowFault> {
        self.rows.table(row)
    }

    fn get(&mut self, table: u16, row: RowId) -> Result<Option<Row>, RowFault> {
        read(&mut self.rows, table, row)
    }

    fn reserved_by(
        &mut self,
        client: u16,
        table: u16,
        row: Option<RowId>,
        values: &Row,
    ) -> Result<ClientIds, RowFault> {
        match replaced(&mut self.rows, table, row) {
            Ok(old) => reserved_against(
                self.rows.schema(),
                self.indexes.as_slice(),
                client,
                table,
                old,
                values,
            ),
            Err(error) => Err(error),
        }
    }

    fn duplicate(
        &mut self,
        table: u16,
        row: Option<RowId>,
        values: &Row,
    ) -> Result<Option<Duplicate>, RowFault> {
        least_duplicate(
            self.rows.schema(),
            self.indexes.as_slice(),
            table,
            row,
            values,
        )
    }

    fn next(
        &mut self,
        table: u16,
        index: Option<u16>,
        prefix: &Row,
        cursor: Option<&Cursor>,
        forward: bool,
    ) -> Result<Option<FoundRow>, RowFault> {
        match place_found(
            self.rows.schema(),
            self.indexes.as_slice(),
            table,
            index,
            prefix,
            cursor,
            forward,
        ) {
            Ok(Some(at)) => found(&mut self.rows, table, at),
            Ok(None) => Ok(None),
            Err(error) => Err(error),
        }
    }

    fn fragments(&mut self, row: RowId) -> Result<u32, RowFault> {
        self.rows.fragments(row)
    }

    fn used(&self) -> u64 {
        self.rows.used()
    }

    fn written(&self, client: u16) -> u64 {
        self.rows.written(client)
    }

    fn long_key(&self, table: u16, values: &Row) -> Result<Option<u16>, RowFault> {
        match long_key(self.rows.schema(), table, values) {
            Ok(index) => Ok(index),
            Err(_) => Err(RowFault::NoMemory),
        }
    }

    fn has_reserved(&self, client: u16) -> bool {
        has_reserved(self.rows.schema(), self.indexes.as_slice(), client)
    }

    fn begin(&mut self, client: u16) -> Result<(), RowFault> {
        self.rows.begin(client)
    }

    fn fresh(&mut self) -> Result<RowId, RowFault> {
        self.rows.fresh()
    }

    fn insert(
        &mut self,
        client: u16,
        row: RowId,
        table: u16,
        values: &Row,
    ) -> Result<(), RowFault> {
        match prepare(
            self.alloc,
            self.rows.schema(),
            &mut self.indexes,
            &mut self.clients,
            client,
            row,
            table,
            None,
            Some(values),
        ) {
            Err(_) => Err(RowFault::NoMemory),
            Ok(started) => match self.rows.insert(client, row, table, values) {
                Ok(()) => {
                    finish(&mut self.indexes, &mut self.clients, client, started);
                    Ok(())
                }
                Err(error) => {
                    cancel(&mut self.indexes, client, started);
                    Err(error)
                }
            },
        }
    }

    fn put(&mut self, client: u16, table: u16, row: RowId, values: &Row) -> Result<(), RowFault> {
        match old_row(&mut self.rows, table, row) {
            Err(error) => Err(error),
            Ok(old) => match prepare(
                self.alloc,
                self.rows.schema(),
                &mut self.indexes,
                &mut self.clients,
                client,
                row,
                table,
                Some(&old.row.values),
                Some(values),
            ) {
                Err(_) => Err(RowFault::NoMemory),
                Ok(started) => match self.rows.put(client, row, old, values) {
                    Ok(()) => {
                        finish(&mut self.indexes, &mut self.clients, client, started);
                        Ok(())
                    }
                    Err(error) => {
                        cancel(&mut self.indexes, client, started);
                        Err(error)
                    }
                },
            },
        }
    }

    fn delete(&mut self, client: u16, table: u16, row: RowId) -> Result<(), RowFault> {
        match old_row(&mut self.rows, table, row) {
            Err(error) => Err(error),
            Ok(old) => match prepare(
                self.alloc,
                self.rows.schema(),
                &mut self.indexes,
                &mut self.clients,
                client,
                row,
                table,
                Some(&old.row.values),
                None,
            ) {
                Err(_) => Err(RowFault::NoMemory),
                Ok(started) => match self.rows.delete(client, row, old) {
                    Ok(()) => {
                        finish(&mut self.indexes, &mut self.clients, client, started);
                        Ok(())
                    }
                    Err(error) => {
                        cancel(&mut self.indexes, client, started);
                        Err(error)
                    }
                },
            },
        }
    }

    fn mark(&self, client: u16) -> usize {
        self.rows.mark(client)
    }

    fn back(&mut self, client: u16, mark: usize) -> Result<(), RowFault> {
        match self.rows.back(client, mark) {
            Ok(()) => {
                go_back(&mut self.indexes, &mut self.clients, client, mark);
                Ok(())
            }
            Err(error) => Err(error),
        }
    }

    fn commit(&mut self, client: u16, sequences: &[i64]) -> Result<u64, RowFault> {
        match self
            .rows
            .commit(client, self.sequences.as_slice(), sequences)
        {
            Ok(moment) => {
                end(&mut self.indexes, &mut self.clients, client);
                store_values(&mut self.sequences, sequences);
                Ok(moment)
            }
            Err(error) => Err(error),
        }
    }

    fn abandon(&mut self, client: u16) {
        self.rows.abandon(client);
        give_up(&mut self.indexes, &mut self.clients, client);
    }

    ghost consistent = { λ s. rows_are_consistent s.rows.schema (reserved_at s.rows.schema (keepers_of s.indexes.items)) s.sequences.items (S.Slots.state s.rows.chains.slots) s.rows.opens.items s.rows.stored
        (λ c idle. reserved_none s.rows.schema (keepers_of s.indexes.items) c (λ j key is. true≢false (sym (s.indexed.begun c j key is) ∙ idle))) };

    ghost left_known = { λ s m durable known. let stop = S.Slots.stop_known s.rows.chains.slots m known.0 known.1 in record { observable = stop.observable; from = stop.from; past = stop.past } };

    ghost since_past = { λ s. S.Slots.since_past s.rows.chains.slots };
}
