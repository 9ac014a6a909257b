//! Record phrases: how FIND and FOR say which record is read and how it is locked (OpenEdge ABL
//! Reference, Record phrase; FIND statement).

ghost use Rattle.std.specs.Prelude.{◌≡◌, IfOk, None, Option, map, true};
ghost use Rattle.bound_tree.specs.Bound.{bracket_value_of, reading_of};
ghost use Rattle.syntax_tree.specs.Syntax.{Expression as TheExpression};
ghost use Rattle.syntax_tree.specs.Typed.{record_option_of};
ghost use Rattle.bind_names.specs.Judged.{made};
ghost use Rattle.bind_names.specs.Names.{buffer, number_of};
ghost use Rattle.bind_names.specs.Views.{IsJudged, maybe_buffer_of, scene_of};
ghost use Rattle.bind_blocks.specs.Records.{bracket, index_number, looked_for, nothing_asked, record_option, record_options};
ghost use Rattle.bind_blocks.specs.Views.{asked_of, found_of, maybe_test_of, selected, selection_of, used_index, where_after, where_from};

use crate::brackets::values_of;
use abl_base::Rule;
use bind_expressions::expressions::condition;
use bind_names::meaning::{Buffer, buffer_number, number_named, wanted_buffer};
use bind_names::{BindFault, NamingKind, Notes, Scene};
use bound_tree::{BracketValue, Expr, LockWanted, Reading};
use std::alloc::Global;
use syntax_tree::{Expression, RecordOption, Word};

/// The expression after WHERE, where there is one.
#[derive(Clone, Copy)]
pub enum Test<'a> {
    None,
    Of(&'a Expression),
}

/// What the options of a record phrase say so far: WHERE as it is bound, the number of the index,
/// the lock, NO-WAIT and NO-ERROR.
#[derive(Drop)]
pub struct Asked {
    test: Option<Expr>,
    index: Option<u16>,
    lock: LockWanted,
    wait: bool,
    quiet: bool,
}

/// What a record phrase selects.
#[derive(Drop)]
pub struct Selection {
    pub reading: Reading,
    /// It has no NO-WAIT.
    pub wait: bool,
    /// It has NO-ERROR.
    pub quiet: bool,
}

/// The primary index of the buffer's table, where there is one.
fn primary_of(scene: &Scene<'_>, buffer: Option<Buffer<'_>>) -> Option<u16>
    ensures { result ≡ (nothing_asked (scene_of scene.now) (maybe_buffer_of buffer.entry)).index }
{
    match buffer {
        None => None,
        Some(buffer) => {
            if buffer.table >= scene.schema.tables() {
                return None;
            }
            scene.schema.primary(buffer.table)
        }
    }
}

/// The number of the buffer's index of this name, in any case.
fn index_number(
    scene: &Scene<'_>,
    buffer: Option<Buffer<'_>>,
    name: &[u8],
) -> Result<Option<u16>, BindFault>
    ensures { IfOk result (λ number. number ≡ index_number (scene_of scene.now) (maybe_buffer_of buffer.entry) name.now) }
{
    let Some(buffer) = buffer else {
        return Ok(None);
    };
    if buffer.table >= scene.schema.tables() {
        return Ok(None);
    }
    match number_named(scene.schema.indexes(buffer.table), name) {
        None => Ok(None),
        Some(number) => match u16::try_from(number) {
            Ok(number) => Ok(Some(number)),
            Err(_) => Err(BindFault),
        },
    }
}

/// USE-INDEX: Y10 where the buffer's table has no such index.
fn used_index(
    scene: &Scene<'_>,
    buffer: Option<Buffer<'_>>,
    index: &Word,
    notes: &mut Notes,
) -> Result<Option<u16>, BindFault>
    ensures { IfOk result (λ number. IsJudged (used_index (scene_of scene.now) (maybe_buffer_of buffer.entry) index.now) number notes.old notes.new) }
{
    let number = index_number(scene, buffer, index.spelling.as_slice())?;
    notes.unless(buffer.is_none() || number.is_some(), Rule::Y10, index.at);
    Ok(number)
}

/// One more option.
fn record_option(
    alloc: Global,
    scene: &Scene<'_>,
    buffer: Option<Buffer<'_>>,
    given: &RecordOption,
    so_far: Asked,
    notes: &mut Notes,
) -> Result<Asked, BindFault>
    ensures { (e : Option TheExpression) → IfOk result (λ r. IsJudged (record_option (scene_of scene.now) (maybe_buffer_of buffer.entry) (record_option_of given.now) (asked_of so_far e)) (asked_of r (where_after (record_option_of given.now) e)) notes.old notes.new) }
{
    let Asked {
        test,
        index,
        lock,
        wait,
        quiet,
    } = so_far;
    match given {
        RecordOption::Where { test: e, .. } => {
            let x = condition(alloc, scene, e, notes)?;
            Ok(Asked {
                test: Some(x.expr),
                index,
                lock,
                wait,
                quiet,
            })
        }
        RecordOption::UseIndex { index: name, .. } => {
            let index = used_index(scene, buffer, name, notes)?;
            Ok(Asked {
                test,
                index,
                lock,
                wait,
                quiet,
            })
        }
        RecordOption::Lock { lock, .. } => Ok(Asked {
            test,
            index,
            lock: *lock,
            wait,
            quiet,
        }),
        RecordOption::NoWait { .. } => Ok(Asked {
            test,
            index,
            lock,
            wait: false,
            quiet,
        }),
        RecordOption::NoError { .. } => Ok(Asked {
            test,
            index,
            lock,
            wait,
            quiet: true,
        }),
    }
}

/// The options of a record phrase.
#[tactic(auto, using(crate::proofs::Options::asked_begins))]
fn record_options(
    alloc: Global,
    scene: &Scene<'_>,
    buffer: Option<Buffer<'_>>,
    given: &[RecordOption],
    notes: &mut Notes,
) -> Result<Asked, BindFault>
    ensures { IfOk result (λ r. IsJudged (record_options (scene_of scene.now) (maybe_buffer_of buffer.entry) (nothing_asked (scene_of scene.now) (maybe_buffer_of buffer.entry)) (map record_option_of given.now)) (asked_of r (where_from None (map record_option_of given.now))) notes.old notes.new) }
{
    let mut so_far = Asked {
        test: None,
        index: primary_of(scene, buffer),
        lock: LockWanted::Share,
        wait: true,
        quiet: false,
    };
    for one in given {
        so_far = record_option(alloc, scene, buffer, one, so_far, notes)?;
    }
    Ok(so_far)
}

/// The last WHERE of the options.
fn where_of(given: &[RecordOption]) -> Test<'_>
    ensures { maybe_test_of result ≡ where_from None (map record_option_of given.now) }
{
    let mut found = Test::None;
    for one in given {
        if let RecordOption::Where { test, .. } = one {
            found = Test::Of(test);
        }
    }
    found
}

/// The bracket: none without a buffer, an index and a WHERE.
fn bracket(
    alloc: Global,
    scene: &Scene<'_>,
    buffer: Option<Buffer<'_>>,
    index: Option<u16>,
    where_it: Test<'_>,
) -> Result<Vec<BracketValue>, BindFault>
    ensures { IfOk result (λ r. map bracket_value_of r.items ≡ bracket (scene_of scene.now) (maybe_buffer_of buffer.entry) index (maybe_test_of where_it.entry)) }
{
    let (Some(buffer), Some(index), Test::Of(e)) = (buffer, index, where_it) else {
        return Ok(Vec::new(alloc));
    };
    if buffer.table >= scene.schema.tables() {
        return Ok(Vec::new(alloc));
    }
    let fields = scene.schema.fields(buffer.table);
    match scene.schema.indexes(buffer.table).get(usize::from(index)) {
        None => Ok(Vec::new(alloc)),
        Some(index) => values_of(alloc, scene, buffer, fields, e, index.parts.as_slice()),
    }
}

/// The number of the buffer, and 0 where there is none.
fn number_of(scene: &Scene<'_>, buffer: Option<Buffer<'_>>) -> Result<u32, BindFault>
    ensures { IfOk result (λ n. n ≡ number_of (scene_of scene.now) (maybe_buffer_of buffer.entry)) }
{
    match buffer {
        None => Ok(0),
        Some(buffer) => buffer_number(scene, buffer.name),
    }
}

/// What the options select.
fn selected(
    alloc: Global,
    scene: &Scene<'_>,
    buffer: Option<Buffer<'_>>,
    where_it: Test<'_>,
    asked: Asked,
) -> Result<Selection, BindFault>
    ensures { IfOk result (λ r. selection_of r ≡ selected (scene_of scene.now) (maybe_buffer_of buffer.entry) (asked_of asked (maybe_test_of where_it.entry))) }
{
    let Asked {
        test,
        index,
        lock,
        wait,
        quiet,
    } = asked;
    let bracket = bracket(alloc, scene, buffer, index, where_it)?;
    let number = number_of(scene, buffer)?;
    Ok(Selection {
        reading: Reading {
            buffer: number,
            index,
            bracket,
            test,
            lock,
        },
        wait,
        quiet,
    })
}

/// The record phrase of a buffer: Y1 at an unknown buffer, Y6 at a WHERE that is no condition, Y10
/// at an index that its table does not have.
pub fn looked_for(
    alloc: Global,
    scene: &Scene<'_>,
    kind: NamingKind,
    word: &Word,
    options: &[RecordOption],
    notes: &mut Notes,
) -> Result<Selection, BindFault>
    ensures { IfOk result (λ r. IsJudged (made found_of (looked_for (scene_of scene.now) (buffer (scene_of scene.now) kind true word.now) (map record_option_of options.now))) (selection_of r) notes.old notes.new) }
{
    let found = wanted_buffer(alloc, scene, kind, true, word, notes)?;
    let asked = record_options(alloc, scene, found, options, notes)?;
    let selection = selected(alloc, scene, found, where_of(options), asked)?;
    Ok(selection)
}
