//! Sources, each with the files that it needs.

ghost use Rattle.std.specs.Prelude.{◌≡◌, ◌≤◌, ◌<◌, ◌+◌, ◌^◌, ◌⊎◌, ◌∷◌, [], IfErr, IfOk, List, OnOk, length};
ghost use Rattle.preprocessor.specs.Expansion.{expansion};
ghost use Rattle.preprocessor.specs.declared.texts.NamedText.{NamedText as TheText};
ghost use Rattle.preprocessor.specs.declared.texts.Outcome.TheVariants.{Needs};
ghost use Rattle.run_report.specs.declared.refusal.Refusal.TheVariants.{NoMemory};
ghost use Rattle.source_files.specs.Files.{AreSame, AskedIsNotRead, AsksNeeded, AsksSource, AsksSources, HasSource, HaveSources, Needed};
ghost use Rattle.source_files.specs.Reading.{AreShort, IsStep};

use crate::files::{MAX_FILE_BYTES, read_text};
use crate::texts::{Progress, SourceTexts, expand_texts};
use abl_base::{Bytes, Items};
use host_io::Files;
use preprocessor::NamedText;
use run_report::Refusal;
use std::alloc::Global;

/// The most texts of a source: as many as have a number. Each takes memory of its own, so more are out of
/// memory.
const MAX_TEXTS: usize = u32::MAX as usize;

/// Reads the source in the file of each name, and directly after it the files that it needs.
pub fn read_sources<F: Files>(
    alloc: Global,
    files: &mut F,
    programs: &[Bytes],
) -> Result<Vec<SourceTexts>, Refusal>
    ensures read { IfOk result (λ sources. HaveSources (F.state files.old) programs.now sources.items) }
    ensures same { OnOk result (AreSame (F.state files.old) (F.state files.new)) }
    ensures refused { IfErr result (AskedIsNotRead (F.state files.old) (F.state files.new).faults (AsksSources (F.state files.old) programs.now)) }
{
    let mut sources = Vec::new(alloc);
    for program in programs {
        let source = read_source(alloc, files, program.as_slice())?;
        let Ok(()) = sources.push(source) else {
            return Err(Refusal::NoMemory);
        };
    }
    Ok(sources)
}

/// The texts of the source in the file of this name: its own, and those of the files that it needs.
pub(crate) fn read_source<F: Files>(
    alloc: Global,
    files: &mut F,
    program: &[u8],
) -> Result<SourceTexts, Refusal>
    ensures read { IfOk result (HasSource (F.state files.old) program.now) }
    ensures same { OnOk result (AreSame (F.state files.old) (F.state files.new)) }
    ensures refused { IfErr result (AskedIsNotRead (F.state files.old) (F.state files.new).faults (AsksSource (F.state files.old) program.now)) }
{
    let Ok(name) = Bytes::of(alloc, program) else {
        return Err(Refusal::NoMemory);
    };
    let own = read_text(files, name)?;
    read_needed(alloc, files, own)
}

/// The texts of a source that begins with this one: while their expansion asks for a file, the text of
/// that file is added.
fn read_needed<F: Files>(
    alloc: Global,
    files: &mut F,
    own: NamedText,
) -> Result<SourceTexts, Refusal>
    requires { length own.bytes ≤ MAX_FILE_BYTES }
    ensures read { IfOk result (λ texts. (needed : List TheText) × (texts ≡ own ∷ needed) × Needed (F.state files.old) (own ∷ []) needed) }
    ensures same { OnOk result (AreSame (F.state files.old) (F.state files.new)) }
    ensures refused { IfErr result (λ refusal. (refusal ≡ NoMemory) ⊎ AskedIsNotRead (F.state files.old) (F.state files.new).faults (AsksNeeded (F.state files.old) (own ∷ [])) refusal) }
{
    let mut texts = Items::empty(alloc);
    let Ok(()) = texts.push(own) else {
        return Err(Refusal::NoMemory);
    };
    'reading: while texts.len() < MAX_TEXTS {
        match read_one(alloc, files, texts) {
            Ok(Step::Ends(source)) => return Ok(source),
            Ok(Step::Goes(longer)) => texts = longer,
            Err(refusal) => return Err(refusal),
        }
    }
    Err(Refusal::NoMemory)
}

/// A source of which some texts were read.
#[derive(Drop)]
enum Step {
    /// All its texts were read.
    Ends(SourceTexts),
    /// One more was read than before.
    Goes(Items<NamedText>),
}

/// The source where these texts are all that it needs, or the texts with that of the file that their
/// expansion asks for.
fn read_one<F: Files>(
    alloc: Global,
    files: &mut F,
    texts: Items<NamedText>,
) -> Result<Step, Refusal>
    requires few { length texts < 2 ^ 32 }
    requires short { AreShort texts }
    ensures read { IfOk result (IsStep (F.state files.old) texts) }
    ensures same { OnOk result (AreSame (F.state files.old) (F.state files.new)) }
    ensures refused { IfErr result (λ refusal. (refusal ≡ NoMemory) ⊎ AskedIsNotRead (F.state files.old) (F.state files.new).faults (AsksNeeded (F.state files.old) texts) refusal) }
{
    match expand_texts(alloc, texts) {
        Ok(Progress::Ends(source)) => Ok(Step::Ends(source)),
        Ok(Progress::Goes(same, name)) => read_more(files, same, name),
        Err(_) => Err(Refusal::NoMemory),
    }
}

/// The texts with that of the file of this name, for which their expansion asks.
fn read_more<F: Files>(files: &mut F, texts: Items<NamedText>, name: Bytes) -> Result<Step, Refusal>
    requires { expansion texts ≡ Needs name }
    ensures read { IfOk result (IsStep (F.state files.old) texts) }
    ensures same { OnOk result (AreSame (F.state files.old) (F.state files.new)) }
    ensures refused { IfErr result (λ refusal. (refusal ≡ NoMemory) ⊎ AskedIsNotRead (F.state files.old) (F.state files.new).faults (AsksNeeded (F.state files.old) texts) refusal) }
{
    let text = match read_text(files, name) {
        Ok(text) => text,
        Err(refusal) => return Err(refusal),
    };
    let mut longer = texts;
    match longer.push(text) {
        Ok(()) => Ok(Step::Goes(longer)),
        Err(_) => Err(Refusal::NoMemory),
    }
}
