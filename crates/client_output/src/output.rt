//! The whole output of a client.

ghost use Rattle.std.specs.Prelude.{◌≡◌, ◌≢◌, ◌+◌, ◌<◌, ℕ, List, [], ◌∷◌, ◌++◌, Option, Ok, true, false, nat_lt, length, slice_index_or, IfOk, IfSome, None, OnOk, OnErr};
ghost use Rattle.abl_base.specs.declared.limits.TheConstants.{MAX_OUTPUT_BYTES};
ghost use Rattle.block_meaning.specs.declared.wants.Piece.{Piece};
ghost use Rattle.client_output.specs.Written.{HasWritten, IsUnchanged, IsPlaceOf};

use crate::section::Section;
use crate::writing::{append_at, empty_at};
use abl_base::Bytes;
use abl_base::limits::MAX_OUTPUT_BYTES;
use std::alloc::{AllocError, Global};

/// What a client has written.
#[derive(Drop)]
pub struct Output {
    /// The default section, then those of the named outputs in the order of their first opening.
    pub sections: Vec<Section>,
    /// The numbers of these named outputs.
    pub opened: Vec<u32>,
    /// The number of bytes that were written.
    pub size: usize,
}

impl Output {
    /// Nothing is written yet. Out of memory is the only error.
    pub fn new(alloc: Global) -> Result<Output, AllocError>
        ensures written { IfOk result (λ output. (names : List (List ℕ)) → HasWritten output names []) }
        ensures size { IfOk result (λ output. output.size ≡ 0) }
    {
        let mut sections = Vec::new(alloc);
        sections.push(Section {
            name: Bytes::empty(alloc),
            bytes: Bytes::empty(alloc),
        })?;
        Ok(Output {
            sections,
            opened: Vec::new(alloc),
            size: 0,
        })
    }

    /// Writes a text to the section of a named output, or to the default one. False, and nothing is
    /// written, where the output would then have more than 16 MiB. Out of memory leaves it as it was.
    pub fn write(&mut self, section: Option<u32>, text: &[u8]) -> Result<bool, AllocError>
        ensures full { result ≡ Ok false → (nat_lt MAX_OUTPUT_BYTES (self.old.size + length text.now) ≡ true) × (self.new ≡ self.old) }
        ensures fits { result ≡ Ok true → (nat_lt MAX_OUTPUT_BYTES (self.old.size + length text.now) ≡ false) × (self.new.size ≡ self.old.size + length text.now) }
        ensures written { result ≡ Ok true → (names : List (List ℕ)) (pieces : List Piece) → HasWritten self.old names pieces → HasWritten self.new names (pieces ++ Piece.Wrote section text.now ∷ []) }
        ensures err { OnErr result (IsUnchanged self.old self.new) }
    {
        if self.size.saturating_add(text.len()) > MAX_OUTPUT_BYTES {
            return Ok(false);
        }
        self.append(section, text)?;
        self.size += text.len();
        Ok(true)
    }

    /// OUTPUT TO a named output: the first opening adds its section at the end, under its name; a
    /// later one empties it unless it has APPEND. False, and nothing is opened, where the output has more than 16 MiB.
    /// Out of memory leaves it as it was.
    pub fn open(&mut self, output: u32, name: &[u8], append: bool) -> Result<bool, AllocError>
        ensures full { result ≡ Ok false → (nat_lt MAX_OUTPUT_BYTES self.old.size ≡ true) × (self.new ≡ self.old) }
        ensures fits { result ≡ Ok true → (nat_lt MAX_OUTPUT_BYTES self.old.size ≡ false) × (self.new.size ≡ self.old.size) }
        ensures opened { result ≡ Ok true → (names : List (List ℕ)) (pieces : List Piece) → name.now ≡ slice_index_or names output [] → HasWritten self.old names pieces → HasWritten self.new names (pieces ++ Piece.Opened output append ∷ []) }
        ensures err { OnErr result (IsUnchanged self.old self.new) }
    {
        if self.size > MAX_OUTPUT_BYTES {
            return Ok(false);
        }
        self.open_section(output, name, append)?;
        Ok(true)
    }

    /// The place of the section of a named output, or of the default one; None where it was never
    /// opened.
    fn place_of(&self, section: Option<u32>) -> Option<usize>
        ensures { IsPlaceOf self.now.opened.items section result }
    {
        let Some(output) = section else {
            return Some(0);
        };
        for (index, opened) in self.opened.iter().enumerate() {
            if *opened == output {
                return Some(index + 1);
            }
        }
        None
    }

    /// Appends a text to the section of an output.
    fn append(&mut self, section: Option<u32>, text: &[u8]) -> Result<(), AllocError>
        ensures size { self.new.size ≡ self.old.size }
        ensures ok { OnOk result ((names : List (List ℕ)) (pieces : List Piece) → HasWritten self.old names pieces → HasWritten self.new names (pieces ++ Piece.Wrote section text.now ∷ [])) }
        ensures err { OnErr result (IsUnchanged self.old self.new) }
    {
        match self.place_of(section) {
            Some(place) => append_at(&mut self.sections, place, text),
            None => Ok(()),
        }
    }

    /// Opens the section of a named output.
    fn open_section(&mut self, output: u32, name: &[u8], append: bool) -> Result<(), AllocError>
        ensures size { self.new.size ≡ self.old.size }
        ensures ok { OnOk result ((names : List (List ℕ)) (pieces : List Piece) → name.now ≡ slice_index_or names output [] → HasWritten self.old names pieces → HasWritten self.new names (pieces ++ Piece.Opened output append ∷ [])) }
        ensures err { OnErr result (IsUnchanged self.old self.new) }
    {
        match self.place_of(Some(output)) {
            Some(place) => {
                if !append {
                    let alloc = *self.opened.allocator();
                    empty_at(alloc, &mut self.sections, place);
                }
                Ok(())
            }
            None => self.add(output, name),
        }
    }

    /// Adds an empty section for a named output at the end.
    fn add(&mut self, output: u32, name: &[u8]) -> Result<(), AllocError>
        ensures ok { OnOk result (self.new.sections.items ≡ self.old.sections.items ++ (record { name = name.now; bytes = [] }) ∷ []) }
        ensures opened { OnOk result (self.new.opened.items ≡ self.old.opened.items ++ output ∷ []) }
        ensures size { self.new.size ≡ self.old.size }
        ensures err { OnErr result (IsUnchanged self.old self.new) }
    {
        let alloc = *self.opened.allocator();
        let section = Section {
            name: Bytes::of(alloc, name)?,
            bytes: Bytes::empty(alloc),
        };
        self.opened.push(output)?;
        if self.sections.push(section).is_err() {
            self.opened.pop();
            return Err(AllocError);
        }
        Ok(())
    }
}
