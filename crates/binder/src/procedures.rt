//! Procedures: their blocks, what they define, and the procedures themselves.

ghost use Rattle.std.specs.Prelude.{◌≡◌, ◌+◌, ◌∷◌, [], List, false, IfOk, OnOk, None, Some, map};
ghost use Rattle.bound_tree.specs.declared.block.BlockKind.TheVariants.{Procedure as ProcedureBlock};
ghost use Rattle.bound_tree.specs.Bound.{body_of, header_of, procedure_of};
ghost use Rattle.syntax_tree.specs.Typed.{statements_of};
ghost use Rattle.bind_names.specs.declared.names.Defined.{Defined as TheDefined};
ghost use Rattle.bind_names.specs.declared.names.Naming.{Naming as TheNaming};
ghost use Rattle.bind_names.specs.Names.{Scene as TheScene};
ghost use Rattle.bind_names.specs.Views.{IsJudged, scene_of};
ghost use Rattle.bind_blocks.specs.Headers.{header};
ghost use Rattle.bind_expressions.specs.Parts.{IsAfter, scene_after};
ghost use Rattle.binder.specs.Groups.{own_namings};
ghost use Rattle.binder.specs.Sources.{inside_procedure, nothing_defined, outside_again, procedure_block, procedure_with};
ghost use Rattle.binder.specs.Views.{IsFrame, internal, moved_to, opening, position_of, procedured};

use crate::buffers::{buffer_defs, buffers_in, named_in, references_in};
use crate::statements::body;
use abl_base::{Bytes, Items, Place};
use abl_values::Schema;
use bind_names::{
    Around, BindFault, ByTable, Defined, Known, Listed, NamedBuffer, Naming, Notes, Scene,
    Signature,
};
use bound_tree::{BlockKind, BufferDef, Flags, Header, Procedure, Reference, Stmt};
use std::alloc::Global;
use std::mem;
use syntax_tree::{Statement, Word};

/// Nothing defined so far.
pub fn nothing_defined(alloc: Global) -> Defined
    ensures { result ≡ nothing_defined }
{
    Defined {
        variables: Listed::empty(alloc),
        undoable: Items::empty(alloc),
        no_undo: Items::empty(alloc),
        parameters: Items::empty(alloc),
        buffers: Listed::empty(alloc),
        streams: Listed::empty(alloc),
    }
}

/// A procedure's block around its statements.
pub fn procedure_block(alloc: Global, number: u32) -> Result<Items<Around>, BindFault>
    ensures { IfOk result (λ r. r ≡ procedure_block number ∷ []) }
{
    let mut around = Items::empty(alloc);
    around.push(Around {
        number,
        label: None,
        iterates: false,
        undoes: true,
    })?;
    Ok(around)
}

/// The header of a procedure's block.
fn procedure_header(alloc: Global, block: u32, place: Place) -> Result<Box<Header>, BindFault>
    ensures { (w : TheScene) → w.block ≡ block → IfOk result (λ r. header_of r.value ≡ header w place false ProcedureBlock None None (record { while_test = None; on_error = None; on_endkey = None })) }
{
    let header = Header {
        number: block,
        kind: BlockKind::Procedure,
        place,
        transaction: false,
        flags: Flags {
            starts: false,
            undo: false,
            retry_seen: false,
        },
        scoped: Vec::new(alloc),
        to: None,
        while_test: None,
        fetch: None,
        on_error: None,
        on_endkey: None,
    };
    Ok(Box::new(alloc, header)?)
}

/// The parts of a procedure that its namings of buffers determine.
#[derive(Drop)]
pub struct Frame {
    pub block: u32,
    pub buffers: Vec<BufferDef>,
    pub references: Vec<Reference>,
}

/// The frame of the procedure that the scene is in, where these are its own namings.
pub fn frame_of(alloc: Global, scene: &Scene<'_>, own: &[Naming]) -> Result<Frame, BindFault>
    ensures { own.now ≡ own_namings scene.now.procedure scene.now.namings.now → IfOk result (λ r. IsFrame (scene_of scene.now) r) }
{
    let listed = &scene.buffers;
    let buffers = buffer_defs(alloc, listed.as_slice())?;
    let references = references_in(alloc, scene.procedure, listed, own)?;
    Ok(Frame {
        block: scene.block,
        buffers,
        references,
    })
}

/// A procedure with its statements. The place is that of its first word.
pub fn procedure_with(
    alloc: Global,
    frame: Frame,
    place: Place,
    name: Bytes,
    own: Defined,
    body: Vec<Stmt>,
) -> Result<Procedure, BindFault>
    ensures { (w : TheScene) → IsFrame w frame → IfOk result (λ r. procedure_of r ≡ procedure_with w place name own (body_of body.items)) }
{
    let Frame {
        block,
        buffers,
        references,
    } = frame;
    let header = procedure_header(alloc, block, place)?;
    let Defined {
        undoable,
        no_undo,
        parameters,
        ..
    } = own;
    Ok(Procedure {
        name,
        undoable,
        no_undo,
        buffers,
        parameters: parameters.into_vec(),
        header,
        body,
        references,
    })
}

/// What is known inside an internal procedure, where this is known before it.
fn know_inside(alloc: Global, known: &mut Known) -> Result<(), BindFault>
    ensures { OnOk result (known.new ≡ record known.old { own = nothing_defined; outer = Some known.old.own; blocks = known.old.blocks + 1 }) }
{
    let Some(blocks) = known.blocks.checked_add(1) else {
        return Err(BindFault);
    };
    let own = mem::replace(&mut known.own, nothing_defined(alloc));
    known.outer = Some(own);
    known.blocks = blocks;
    Ok(())
}

/// What is known after an internal procedure, where this is known at its end. It returns what the
/// procedure has defined.
fn know_after(known: &mut Known) -> Result<Defined, BindFault>
    ensures after { (own : TheDefined) → known.old.outer ≡ Some own → OnOk result (known.new ≡ outside_again own known.old) }
    ensures defined { IfOk result (λ r. r ≡ known.old.own) }
{
    let outer = mem::replace(&mut known.outer, None);
    let Some(own) = outer else {
        return Err(BindFault);
    };
    let defined = mem::replace(&mut known.own, own);
    Ok(defined)
}

/// What a place of a source has of its procedure, and the blocks around it.
#[derive(Drop)]
pub struct Position {
    pub procedure: u32,
    pub buffers: Listed<NamedBuffer>,
    pub named: ByTable,
    pub around: Items<Around>,
    pub block: u32,
}

/// The position at the beginning of the procedure of this number, whose block has this number, where
/// these are its own namings.
pub fn opening(
    alloc: Global,
    procedure: u32,
    block: u32,
    own: &[Naming],
) -> Result<Position, BindFault>
    ensures { (said : List TheNaming) → own.now ≡ own_namings procedure said → IfOk result (λ r. r ≡ opening procedure block said) }
{
    let buffers = buffers_in(alloc, procedure, own)?;
    let named = named_in(alloc, procedure, own)?;
    let around = procedure_block(alloc, block)?;
    Ok(Position {
        procedure,
        buffers,
        named,
        around,
        block,
    })
}

/// Goes to a position, and returns that before.
fn go_to(scene: &mut Scene<'_>, position: Position) -> Position
    ensures scene { scene_of scene.new ≡ moved_to position (scene_of scene.old) }
    ensures before { result ≡ position_of (scene_of scene.old) }
{
    let Position {
        procedure,
        buffers,
        named,
        around,
        block,
    } = position;
    let before = Position {
        procedure: scene.procedure,
        buffers: mem::replace(&mut scene.buffers, buffers),
        named: mem::replace(&mut scene.named, named),
        around: mem::replace(&mut scene.around, around),
        block: scene.block,
    };
    scene.procedure = procedure;
    scene.block = block;
    before
}

/// Goes to the beginning of the internal procedure of this number, where these are its own namings,
/// and returns the position before.
fn go_inside(
    alloc: Global,
    scene: &mut Scene<'_>,
    own: &[Naming],
    number: u32,
) -> Result<Position, BindFault>
    ensures scene { own.now ≡ own_namings number scene.old.namings.now → OnOk result (scene_of scene.new ≡ inside_procedure number (scene_of scene.old)) }
    ensures context { OnOk result ((scene_of scene.new).context ≡ (scene_of scene.old).context) }
    ensures before { IfOk result (λ r. r ≡ position_of (scene_of scene.old)) }
{
    let inside = opening(alloc, number, scene.known.blocks, own)?;
    know_inside(alloc, &mut scene.known)?;
    Ok(go_to(scene, inside))
}

/// Goes back from an internal procedure to a position, and returns what the procedure has defined.
fn go_back(scene: &mut Scene<'_>, outside: Position) -> Result<Defined, BindFault>
    ensures scene { OnOk result (scene_of scene.new ≡ moved_to outside (scene_after (scene_of scene.old) scene.new.known)) }
    ensures after { (own : TheDefined) → scene.old.known.outer ≡ Some own → OnOk result (scene.new.known ≡ outside_again own scene.old.known) }
    ensures defined { IfOk result (λ r. r ≡ scene.old.known.own) }
{
    let defined = know_after(&mut scene.known)?;
    let _ = go_to(scene, outside);
    Ok(defined)
}

/// An internal procedure of this number, where these are its own namings. What the external one has
/// defined is known again after it.
pub fn internal(
    alloc: Global,
    scene: &mut Scene<'_>,
    own: &[Naming],
    number: u32,
    place: Place,
    name: &Word,
    statements: &[Statement],
    notes: &mut Notes,
) -> Result<Procedure, BindFault>
    ensures judged { own.now ≡ own_namings number scene.old.namings.now → IfOk result (λ r. IsJudged (internal (scene_of scene.old) number place name.now.spelling (statements_of statements.now)) (procedured (procedure_of r) scene.new.known) notes.old notes.new) }
    ensures scene { OnOk result (IsAfter scene.old scene.new) }
{
    let outside = go_inside(alloc, scene, own, number)?;
    let frame = frame_of(alloc, scene, own)?;
    let bound = body(alloc, scene, statements, notes)?;
    let defined = go_back(scene, outside)?;
    let spelling = name.spelling.copy()?;
    let made = procedure_with(alloc, frame, place, spelling, defined, bound)?;
    Ok(made)
}
