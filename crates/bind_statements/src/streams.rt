//! Streams, and the files of INPUT FROM and OUTPUT TO.

ghost use Rattle.std.specs.Option.{is_some, option_map};
ghost use Rattle.std.specs.Prelude.{◌≡◌, IfOk, IfSome, OnOk, None, Some, length, unwrap_or};
ghost use Rattle.bound_tree.specs.Bound.{stmt_of};
ghost use Rattle.bound_tree.specs.Tree.{InputClose, OutputClose, Nothing, Then};
ghost use Rattle.bind_names.specs.Judged.{made};
ghost use Rattle.bind_names.specs.Views.{IsJudged, scene_of};
ghost use Rattle.bind_statements.specs.Streams.{file_number, input, input_from, output, output_to, stream, with_file};
ghost use Rattle.bind_expressions.specs.Parts.{IsAfter, does, done_with};

use abl_base::{Bytes, Items, Rule};
use abl_values::same_bytes;
use bind_names::known::stream_number;
use bind_names::{BindFault, Notes, Scene};
use bound_tree::Stmt;
use syntax_tree::Word;

/// The number of a stream, 0 for the unnamed one: Y1 where there is none of the name.
#[tactic(auto, using(crate::proofs::Numbered::stream_is))]
pub fn stream(scene: &Scene<'_>, name: &Option<Word>, notes: &mut Notes) -> u32
    ensures { IsJudged (stream (scene_of scene.now) name.now) result notes.old notes.new }
{
    match name {
        None => 0,
        Some(name) => match stream_number(&scene.known, name.spelling.as_slice()) {
            Some(number) => number,
            None => {
                notes.broken(Rule::Y1, name.at);
                0
            }
        },
    }
}

/// The number of the first of the files that has the name.
fn file_number(files: &[Bytes], name: &[u8]) -> Option<usize>
    ensures { result ≡ file_number 0 files.now name.now }
{
    for (i, file) in files.iter().enumerate() {
        if same_bytes(file.as_slice(), name) {
            return Some(i);
        }
    }
    None
}

/// The number of the file among these, which it joins where it is not one of them.
fn file_among(files: &mut Items<Bytes>, name: &Bytes) -> Result<u32, BindFault>
    ensures number { IfOk result (λ n. n ≡ unwrap_or (file_number 0 files.old name.now) (length files.old)) }
    ensures files { OnOk result (files.new ≡ with_file files.old name.now) }
{
    match file_number(files.as_slice(), name.as_slice()) {
        Some(number) => number_of(number),
        None => {
            let number = number_of(files.len())?;
            files.push(name.copy()?)?;
            Ok(number)
        }
    }
}

/// A number of a file.
fn number_of(number: usize) -> Result<u32, BindFault>
    ensures { IfOk result (λ n. n ≡ number) }
{
    match u32::try_from(number) {
        Ok(number) => Ok(number),
        Err(_) => Err(BindFault),
    }
}

/// INPUT FROM a file, on the stream of this number: Y14 at the 17th named input.
#[tactic(auto, using(bind_names::proofs::Joined::first_of_append))]
fn input_from(
    scene: &mut Scene<'_>,
    stream: u32,
    file: &Word,
    notes: &mut Notes,
) -> Result<Stmt, BindFault>
    ensures judged { IfOk result (λ r. IsJudged (input_from (scene_of scene.old) stream file.now) (done_with (Then (stmt_of r) Nothing) (scene_of scene.new)) notes.old notes.new) }
    ensures scene { OnOk result (IsAfter scene.old scene.new) }
{
    let known = file_number(scene.known.inputs.as_slice(), file.spelling.as_slice()).is_some();
    notes.unless(known || scene.known.inputs.len() < 16, Rule::Y14, file.at);
    let input = file_among(&mut scene.known.inputs, &file.spelling)?;
    Ok(Stmt::InputFrom { stream, input })
}

/// INPUT FROM and INPUT CLOSE.
#[tactic(auto, using(bind_names::proofs::Joined::first_of_append))]
pub fn input(
    scene: &mut Scene<'_>,
    name: &Option<Word>,
    file: &Option<Word>,
    notes: &mut Notes,
) -> Result<Stmt, BindFault>
    ensures judged { IfOk result (λ r. IsJudged (input (scene_of scene.old) name.now file.now) (done_with (Then (stmt_of r) Nothing) (scene_of scene.new)) notes.old notes.new) }
    ensures scene { OnOk result (IsAfter scene.old scene.new) }
{
    let number = stream(scene, name, notes);
    match file {
        None => Ok(Stmt::InputClose(number)),
        Some(file) => {
            let made = input_from(scene, number, file, notes)?;
            Ok(made)
        }
    }
}

/// OUTPUT TO a file, on the stream of this number.
fn output_to(
    scene: &mut Scene<'_>,
    stream: u32,
    file: &Word,
    append: bool,
) -> Result<Stmt, BindFault>
    ensures is { IfOk result (λ r. (output_to (scene_of scene.old) stream file.now append).is ≡ done_with (Then (stmt_of r) Nothing) (scene_of scene.new)) }
    ensures scene { OnOk result (IsAfter scene.old scene.new) }
{
    let output = file_among(&mut scene.known.outputs, &file.spelling)?;
    Ok(Stmt::OutputTo {
        stream,
        output,
        append,
    })
}

/// OUTPUT TO and OUTPUT CLOSE.
#[tactic(auto, using(bind_names::proofs::Joined::first_of_append))]
pub fn output(
    scene: &mut Scene<'_>,
    name: &Option<Word>,
    file: &Option<Word>,
    append: bool,
    notes: &mut Notes,
) -> Result<Stmt, BindFault>
    ensures judged { IfOk result (λ r. IsJudged (output (scene_of scene.old) name.now file.now append) (done_with (Then (stmt_of r) Nothing) (scene_of scene.new)) notes.old notes.new) }
    ensures scene { OnOk result (IsAfter scene.old scene.new) }
{
    let number = stream(scene, name, notes);
    match file {
        None => Ok(Stmt::OutputClose(number)),
        Some(file) => {
            let made = output_to(scene, number, file, append)?;
            Ok(made)
        }
    }
}
