//! The slots that the notes of a log recover to. The time is that of a sort of the notes, and the
//! memory that of the slots that have a change.

ghost use Rattle.std.specs.Prelude.{◌≡◌, ◌||◌, ◌++◌, ◌∷◌, [], ℕ, List, map, IfOk, OnOk};
ghost use Rattle.std.specs.Ordering.{nat_cmp};
ghost use Rattle.std.specs.BTreeMap.{keys};
ghost use Rattle.std.specs.BTreeSet.{contains};
ghost use Rattle.std.specs.List.Sorted.{IsStrictlySortedBy};
ghost use Rattle.log_meaning.specs.declared.note.Note.{Note as LogNote};
ghost use Rattle.log_meaning.specs.Recovered.{is_committed};
ghost use Rattle.bi_recovery.specs.NoteSlots.{AreRecovered, HasBytes, undo_of};

use log_meaning::Note;
use std::alloc::{AllocError, Global};
use std::collections::{BTreeMap, BTreeSet};
use storage::Undo;

/// Adds the number of the transaction that the note commits, if it commits one.
fn add_number(numbers: &mut BTreeSet<u64>, note: &Note) -> Result<(), AllocError>
    ensures { OnOk result ((tx : ℕ) → contains nat_cmp numbers.new tx ≡ (contains nat_cmp numbers.old tx || is_committed (note.now ∷ []) tx)) }
{
    if let Note::Commit(tx) = note {
        numbers.insert(*tx)?;
    }
    Ok(())
}

/// The numbers of the transactions that the notes commit.
fn committed_numbers(notes: &[Note], alloc: Global) -> Result<BTreeSet<u64>, AllocError>
    ensures { IfOk result (λ numbers. (tx : ℕ) → contains nat_cmp numbers tx ≡ is_committed notes.now tx) }
{
    let mut numbers: BTreeSet<u64> = BTreeSet::new(alloc);
    for note in notes {
        add_number(&mut numbers, note)?;
    }
    Ok(numbers)
}

/// Adds a note to the recovered slots. Of the changes of a slot the last one in a committed
/// transaction counts, else the first one.
fn add_note(
    slots: &mut BTreeMap<u32, [u8; 256]>,
    committed: &BTreeSet<u64>,
    note: &Note,
) -> Result<(), AllocError>
    ensures { OnOk result ((before : List LogNote) → HasBytes (contains nat_cmp committed.now) before slots.old → HasBytes (contains nat_cmp committed.now) (before ++ note.now ∷ []) slots.new) }
{
    match note {
        Note::Commit(_) => Ok(()),
        Note::Change(change) => {
            if committed.contains(&change.tx) {
                slots.insert(change.slot, change.new)?;
                return Ok(());
            }
            slots.entry(change.slot)?.or_insert(change.old);
            Ok(())
        }
    }
}

/// The slots of the map as a list.
fn slot_list(slots: &BTreeMap<u32, [u8; 256]>, alloc: Global) -> Result<Vec<Undo>, AllocError>
    ensures are { IfOk result (λ list. list.items ≡ map undo_of slots.now.entries) }
    ensures ordered { IsStrictlySortedBy nat_cmp (keys slots.now) }
{
    let mut list: Vec<Undo> = Vec::with_capacity(alloc, slots.len())?;
    for (slot, bytes) in slots {
        list.push(Undo {
            slot: *slot,
            old: *bytes,
        })?;
    }
    Ok(list)
}

/// The slots that the notes recover to, in ascending order. A slot without a change has none.
pub fn recovered_slots(notes: &[Note], alloc: Global) -> Result<Vec<Undo>, AllocError>
    ensures { IfOk result (λ slots. AreRecovered notes.now slots.items) }
{
    let committed = committed_numbers(notes, alloc)?;
    let mut slots: BTreeMap<u32, [u8; 256]> = BTreeMap::new(alloc);
    for note in notes {
        add_note(&mut slots, &committed, note)?;
    }
    slot_list(&slots, alloc)
}
