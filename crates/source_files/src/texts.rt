//! The texts of a source, and what they expand to.

ghost use Rattle.std.specs.Prelude.{◌≡◌, ◌≤◌, ◌<◌, ◌^◌, length, true, IfErr, IfOk};
ghost use Rattle.preprocessor.specs.Expansion.{expansion};
ghost use Rattle.preprocessor.specs.Laws.{is_plain};
ghost use Rattle.preprocessor.specs.declared.texts.Outcome.TheVariants.{Breaks};
ghost use Rattle.source_files.specs.Expansions.{IsExpanded, alone, expanded, file_of, origin_in};
ghost use Rattle.source_files.specs.Reading.{AreShort, IsProgress};

use crate::files::MAX_FILE_BYTES;
use abl_base::{Bytes, Items, Place, Rule};
use preprocessor::laws::{an_expansion_is_short, plain_text_is_itself};
use preprocessor::{Expansion, NamedText, Origin, PreFault, expand};
use source_reader::listing::OwnLines;
use std::alloc::{AllocError, Global};
use std::marker::Model;

/// What the texts of a source expand to, or the first rule of E1 to E7 that they break, with the number
/// of the text and the place.
#[derive(Drop)]
pub(crate) enum Expanded {
    Text(Expansion),
    Broken { rule: Rule, text: u32, place: Place },
}

/// The texts of a source: its own, under the name of its file, and then those of the files that it
/// needs, in the order in which they are asked for. They ask for no further file.
#[derive(Drop)]
pub struct SourceTexts {
    texts: Items<NamedText>,
    expanded: Expanded,
}

impl Model for SourceTexts {
    ghost use Rattle.std.specs.Prelude.{List};
    ghost use Rattle.preprocessor.specs.declared.texts.NamedText.{NamedText as TheText};
    ghost use Rattle.source_files.specs.Held.{HasExpanded};

    ghost Value = { List TheText };

    ghost view = { λ s. s.texts };

    ghost invariant = { λ s. HasExpanded s.texts s.expanded };
}

/// A source of which some texts were read.
#[derive(Drop)]
pub(crate) enum Progress {
    /// All its texts were read.
    Ends(SourceTexts),
    /// These texts ask for the file of this name.
    Goes(Items<NamedText>, Bytes),
}

/// A rule of E1 to E7 that a source breaks first, and where.
#[derive(Clone, Copy)]
pub(crate) struct Violation {
    pub rule: Rule,
    pub at: Origin,
}

/// Expands the texts. Out of memory is the only error.
pub(crate) fn expand_texts(alloc: Global, texts: Items<NamedText>) -> Result<Progress, AllocError>
    requires few { length texts < 2 ^ 32 }
    requires short { AreShort texts }
    ensures { IfOk result (IsProgress texts) }
{
    match expand(alloc, texts.as_slice()) {
        Ok(expansion) => Ok(Progress::Ends(SourceTexts {
            texts,
            expanded: Expanded::Text(expansion),
        })),
        Err(PreFault::Broken { rule, text, place }) => Ok(Progress::Ends(SourceTexts {
            texts,
            expanded: Expanded::Broken { rule, text, place },
        })),
        Err(PreFault::Need { name }) => Ok(Progress::Goes(texts, name)),
        Err(PreFault::NoMemory) => Err(AllocError),
    }
}

impl SourceTexts {
    /// A source that is no file, of these bytes, which have neither `{` nor `&`. Out of memory is the
    /// only error.
    pub fn alone(alloc: Global, bytes: &[u8]) -> Result<SourceTexts, AllocError>
        requires short { length bytes.now ≤ MAX_FILE_BYTES }
        requires plain { is_plain bytes.now ≡ true }
        ensures { IfOk result (λ source. source ≡ alone bytes.now) }
    {
        let mut texts = Items::empty(alloc);
        let bytes = Bytes::of(alloc, bytes)?;
        let name = Bytes::empty(alloc);
        texts.push(NamedText { name, bytes })?;
        plain_text_is_itself(texts.as_slice());
        match expand_texts(alloc, texts)? {
            Progress::Ends(source) => Ok(source),
            Progress::Goes(_, _) => unreachable!(),
        }
    }

    /// The expansion, or the first rule of E1 to E7 that the texts break.
    pub(crate) fn text(&self) -> Result<&[u8], Violation>
        ensures text { IfOk result (λ text. IsExpanded self.now × (text.now ≡ expanded self.now) × (length text.now ≤ MAX_FILE_BYTES)) }
        ensures broken { IfErr result (λ v. expansion self.now ≡ Breaks v.rule v.at.text v.at.place) }
    {
        an_expansion_is_short(self.texts.as_slice());
        match &self.expanded {
            Expanded::Text(expansion) => Ok(expansion.bytes.as_slice()),
            Expanded::Broken { rule, text, place } => Err(Violation {
                rule: *rule,
                at: Origin {
                    text: *text,
                    place: *place,
                },
            }),
        }
    }

    /// Where a place of the expansion is written; where there is none, where the rule is broken.
    pub(crate) fn origin(&self, place: Place) -> Origin
        ensures { result ≡ origin_in self.now place }
    {
        match &self.expanded {
            Expanded::Text(expansion) => expansion.origin_at(place),
            Expanded::Broken { text, place, .. } => Origin {
                text: *text,
                place: *place,
            },
        }
    }

    /// The name of the file that has the text of this number; none of the source's own. Out of memory is
    /// the only error.
    pub(crate) fn file(&self, alloc: Global, number: u32) -> Result<Option<Bytes>, AllocError>
        ensures { IfOk result (λ file. file ≡ file_of self.now number) }
    {
        if number == 0 {
            return Ok(None);
        }
        let name = match self.texts.as_slice().get(number as usize) {
            Some(text) => text.name.as_slice(),
            None => b"",
        };
        Ok(Some(Bytes::of(alloc, name)?))
    }
}

/// A place of the expansion has its own line in the text where it is written.
impl OwnLines for SourceTexts {
    ghost own_line = { λ texts place. (origin_in texts place).place.line };

    fn line_of(&self, place: Place) -> u32 {
        self.origin(place).place.line
    }
}
