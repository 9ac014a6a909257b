//! Definitions of variables, parameters, buffers and streams.

ghost use Rattle.std.specs.Option.{is_some};
ghost use Rattle.std.specs.Prelude.{◌≡◌, ◌&&◌, ◌||◌, ◌++◌, ◌∷◌, [], IfOk, OnOk, if◌then◌else◌, length, not, true, unwrap_or};
ghost use Rattle.abl_values.specs.Fit.{default_initial, fitted};
ghost use Rattle.abl_values.specs.Schema.{table_named};
ghost use Rattle.abl_base.specs.declared.rule.Rule.TheVariants.{Y11, Y3};
ghost use Rattle.syntax_tree.specs.Syntax.{Buffer as TheBuffer, Stream as TheStream};
ghost use Rattle.syntax_tree.specs.Typed.{definition_of};
ghost use Rattle.bind_names.specs.Judged.{Judged, breaking, first_of, is_before, unless};
ghost use Rattle.bind_statements.specs.Definitions.{buffer_for, default_mask, define, initial_value, is_past, is_taken, may_have_parameters, no_options, option, options, variable, with_buffer, with_initial, with_mask, with_variable};
ghost use Rattle.bind_expressions.specs.Parts.{IsAfter, nothing_done};
ghost use Rattle.bind_names.specs.Views.{IsJudged, scene_of};

use abl_base::{Bytes, Items, Kind, Place, Row, Rule, Value};
use abl_values::{ArithFault, fit, mask_fits};
use bind_names::meaning::{Buffer, names_it};
use bind_names::{
    BindFault, Defined, NamedBuffer, NamedStream, NamedVariable, NamingKind, Notes, Scene, Sort,
    Violation,
};
use bound_tree::Variable;
use std::alloc::Global;
use syntax_tree::{Definition, VariableOption, Word};

/// The options of a variable, the first of each.
#[derive(Drop)]
pub struct Options {
    pub undoable: bool,
    pub initial: Option<Value>,
    pub mask: Option<Bytes>,
}

/// The value as a variable of the kind begins with it, where it fits.
fn initial_value(alloc: Global, kind: Kind, value: &Value) -> Result<Option<Value>, BindFault>
    ensures { IfOk result (λ v. v ≡ initial_value kind value.now) }
{
    if !Sort::of_value(value).fits(kind) {
        return Ok(None);
    }
    match fit(alloc, value, kind) {
        Ok(v) => Ok(Some(v)),
        Err(ArithFault::Overflow) => Ok(None),
        Err(ArithFault::NoMemory) => Err(BindFault),
    }
}

/// FORMAT, where it is the first: Y12 at a mask for another kind.
fn with_mask(
    kind: Kind,
    mask: &Word,
    so_far: Options,
    notes: &mut Notes,
) -> Result<Options, BindFault>
    ensures { IfOk result (λ r. IsJudged (with_mask kind mask.now so_far) r notes.old notes.new) }
{
    if so_far.mask.is_some() {
        return Ok(so_far);
    }
    notes.unless(
        mask_fits(mask.spelling.as_slice(), kind),
        Rule::Y12,
        mask.at,
    );
    Ok(Options {
        undoable: so_far.undoable,
        initial: so_far.initial,
        mask: Some(mask.spelling.copy()?),
    })
}

/// INITIAL, where it is the first: Y13 at a literal that does not fit.
fn with_initial(
    alloc: Global,
    kind: Kind,
    value: &Value,
    literal_at: Place,
    so_far: Options,
    notes: &mut Notes,
) -> Result<Options, BindFault>
    ensures { IfOk result (λ r. IsJudged (with_initial kind value.now literal_at so_far) r notes.old notes.new) }
{
    if so_far.initial.is_some() {
        return Ok(so_far);
    }
    let begins = initial_value(alloc, kind, value)?;
    notes.unless(begins.is_some(), Rule::Y13, literal_at);
    Ok(Options {
        undoable: so_far.undoable,
        initial: Some(first_value(alloc, kind, begins)),
        mask: so_far.mask,
    })
}

/// An option.
fn variable_option(
    alloc: Global,
    kind: Kind,
    given: &VariableOption,
    so_far: Options,
    notes: &mut Notes,
) -> Result<Options, BindFault>
    ensures { IfOk result (λ r. IsJudged (option kind given.now so_far) r notes.old notes.new) }
{
    match given {
        VariableOption::NoUndo { .. } => Ok(Options {
            undoable: false,
            initial: so_far.initial,
            mask: so_far.mask,
        }),
        VariableOption::Label { .. } => Ok(so_far),
        VariableOption::Format { mask, .. } => with_mask(kind, mask, so_far, notes),
        VariableOption::Initial {
            value,
            literal_at,
            ..
        } => with_initial(alloc, kind, value, *literal_at, so_far, notes),
    }
}

/// The options of a variable.
#[tactic(auto, using(bind_names::proofs::Joined::first_of_append))]
fn all_options(
    alloc: Global,
    kind: Kind,
    given: &[VariableOption],
    notes: &mut Notes,
) -> Result<Options, BindFault>
    ensures { IfOk result (λ r. IsJudged (options kind no_options given.now) r notes.old notes.new) }
{
    let mut so_far = Options {
        undoable: true,
        initial: None,
        mask: None,
    };
    for one in given {
        so_far = variable_option(alloc, kind, one, so_far, notes)?;
    }
    Ok(so_far)
}

/// The mask by which PUT shows values of the kind where no other is given.
pub fn default_mask(kind: Kind) -> &'static [u8]
    ensures { result.now ≡ default_mask kind }
{
    match kind {
        Kind::Character => b"x(8)",
        Kind::Integer | Kind::Int64 => b"->,>>>,>>9",
        Kind::Decimal => b"->>,>>9.99",
        Kind::Logical => b"yes/no",
        Kind::Date => b"99/99/99",
    }
}

/// Whether a variable, a buffer or a stream of the procedure has the name.
fn is_taken(defined: &Defined, name: &[u8]) -> bool
    ensures { result ≡ is_taken defined.now name.now }
{
    defined.variables.find(name).is_some()
        || defined.buffers.find(name).is_some()
        || defined.streams.find(name).is_some()
}

/// Whether a place is before another in the text.
fn is_before(p: Place, q: Place) -> bool
    ensures { result ≡ is_before p q }
{
    p.line < q.line || (p.line == q.line && p.column < q.column)
}

/// Whether the first violation so far is before this place.
fn is_past(first: Option<Violation>, place: Place) -> bool
    ensures { result ≡ is_past first place }
{
    match first {
        None => false,
        Some(violation) => is_before(violation.place, place),
    }
}

/// Y3 at a name that is taken in the procedure. After the first violation the name is not compared
/// with the others, since no violation there can be the first: a source with more variables than
/// it may have is read in time linear in it.
#[tactic(auto, using(crate::proofs::Past::stays_first))]
fn note_taken(defined: &Defined, name: &Word, notes: &mut Notes)
    ensures first { notes.new.first ≡ first_of notes.old.first (unless (not (is_taken defined.now name.now.spelling)) Y3 name.now.at) }
    ensures names { notes.new.names ≡ notes.old.names }
{
    if is_past(notes.first, name.at) {
        return;
    }
    let taken = is_taken(defined, name.spelling.as_slice());
    notes.unless(!taken, Rule::Y3, name.at);
}

/// Whether Y3 has to be noted at the name of a buffer: where it is taken in the procedure or that of
/// a table, and not after the first violation.
fn is_newly_taken(scene: &Scene<'_>, first: Option<Violation>, name: &Word) -> bool
    ensures { let w = scene_of scene.now in result ≡ (not (is_past first name.now.at) && (is_some (table_named w.context.schema name.now.spelling) || is_taken w.known.own name.now.spelling)) }
{
    let spelling = name.spelling.as_slice();
    !is_past(first, name.at)
        && (scene.schema.table(spelling).is_some() || is_taken(&scene.known.own, spelling))
}

/// Adds a value at the end, and returns the number of those before it.
fn added(values: &mut Row, value: Value) -> Result<u32, BindFault>
    ensures count { IfOk result (λ count. count ≡ length values.old) }
    ensures added { OnOk result (values.new ≡ values.old ++ value ∷ []) }
{
    let Ok(count) = u32::try_from(values.len()) else {
        return Err(BindFault);
    };
    values.push(value)?;
    Ok(count)
}

/// Adds the initial value of one more variable, and returns its number.
fn add_value(defined: &mut Defined, undoable: bool, value: Value) -> Result<u32, BindFault>
    ensures number { IfOk result (λ number. number ≡ length (if undoable then defined.old.undoable else defined.old.no_undo)) }
    ensures undoable { OnOk result (defined.new.undoable ≡ (if undoable then defined.old.undoable ++ value ∷ [] else defined.old.undoable)) }
    ensures kept { OnOk result (defined.new.no_undo ≡ (if undoable then defined.old.no_undo else defined.old.no_undo ++ value ∷ [])) }
    ensures variables { defined.new.variables ≡ defined.old.variables }
    ensures parameters { defined.new.parameters ≡ defined.old.parameters }
    ensures buffers { defined.new.buffers ≡ defined.old.buffers }
    ensures streams { defined.new.streams ≡ defined.old.streams }
{
    if undoable {
        added(&mut defined.undoable, value)
    } else {
        added(&mut defined.no_undo, value)
    }
}

/// The value that a variable begins with.
fn first_value(alloc: Global, kind: Kind, initial: Option<Value>) -> Value
    ensures { result ≡ unwrap_or initial (default_initial kind) }
{
    match initial {
        Some(value) => value,
        None => abl_values::default_initial(alloc, kind),
    }
}

/// The mask that a variable is shown under.
fn mask_of(alloc: Global, kind: Kind, mask: Option<Bytes>) -> Result<Bytes, BindFault>
    ensures { IfOk result (λ m. m ≡ unwrap_or mask (default_mask kind)) }
{
    match mask {
        Some(mask) => Ok(mask),
        None => Ok(Items::of(alloc, default_mask(kind))?),
    }
}

/// Adds a parameter where the variable is one.
fn add_parameter(
    parameters: &mut Items<Variable>,
    is_parameter: bool,
    variable: Variable,
) -> Result<(), BindFault>
    ensures { OnOk result (parameters.new ≡ (if is_parameter then parameters.old ++ variable ∷ [] else parameters.old)) }
{
    if is_parameter {
        parameters.push(variable)?;
    }
    Ok(())
}

/// Adds one more variable.
fn add_variable(
    alloc: Global,
    defined: &mut Defined,
    kind: Kind,
    name: &Word,
    options: Options,
    is_parameter: bool,
) -> Result<(), BindFault>
    ensures { OnOk result (defined.new ≡ with_variable kind name.now options is_parameter defined.old) }
{
    let Options {
        undoable,
        initial,
        mask,
    } = options;
    let mask = mask_of(alloc, kind, mask)?;
    let number = add_value(defined, undoable, first_value(alloc, kind, initial))?;
    let variable = Variable {
        external: false,
        undoable,
        number,
        kind,
    };
    defined.variables.push(NamedVariable {
        name: name.spelling.copy()?,
        variable,
        mask,
    })?;
    add_parameter(&mut defined.parameters, is_parameter, variable)?;
    Ok(())
}

/// A variable or parameter: Y3 at a name that is taken, Y14 at the 1,025th variable of the source.
#[tactic(auto, using(bind_names::proofs::Joined::first_of_append))]
fn variable(
    alloc: Global,
    scene: &mut Scene<'_>,
    kind: Kind,
    name: &Word,
    given: &[VariableOption],
    is_parameter: bool,
    notes: &mut Notes,
) -> Result<(), BindFault>
    ensures judged { OnOk result (IsJudged (variable (scene_of scene.old) kind name.now given.now is_parameter) (nothing_done (scene_of scene.new)) notes.old notes.new) }
    ensures scene { OnOk result (IsAfter scene.old scene.new) }
{
    let options = all_options(alloc, kind, given, notes)?;
    note_taken(&scene.known.own, name, notes);
    notes.unless(scene.known.variables < 1024, Rule::Y14, name.at);
    let Some(variables) = scene.known.variables.checked_add(1) else {
        return Err(BindFault);
    };
    add_variable(
        alloc,
        &mut scene.known.own,
        kind,
        name,
        options,
        is_parameter,
    )?;
    scene.known.variables = variables;
    Ok(())
}

/// One more buffer of the procedure: Y1 at an unknown table.
fn add_buffer(
    alloc: Global,
    scene: &mut Scene<'_>,
    name: &Word,
    table: &Word,
    notes: &mut Notes,
) -> Result<(), BindFault>
    ensures judged { OnOk result (IsJudged (buffer_for (scene_of scene.old) name.now table.now (table_named scene.old.schema.now table.now.spelling)) (nothing_done (scene_of scene.new)) notes.old notes.new) }
    ensures scene { OnOk result (IsAfter scene.old scene.new) }
{
    match scene.schema.table(table.spelling.as_slice()) {
        None => notes.broken(Rule::Y1, table.at),
        Some(number) => {
            let named = Buffer {
                name: name.spelling.as_slice(),
                table: number,
            };
            notes.named(names_it(alloc, scene, named, NamingKind::Definition, true, name.at)?)?;
            scene.known.own.buffers.push(NamedBuffer {
                name: name.spelling.copy()?,
                table: number,
            })?;
        }
    }
    Ok(())
}

/// DEFINE BUFFER: Y1 at an unknown table, Y3 at a name that is taken or that of a table.
fn buffer(
    alloc: Global,
    scene: &mut Scene<'_>,
    name: &Word,
    table: &Word,
    notes: &mut Notes,
) -> Result<(), BindFault>
    ensures judged { OnOk result (IsJudged (define (scene_of scene.old) (TheBuffer name.now table.now)) (nothing_done (scene_of scene.new)) notes.old notes.new) }
    ensures scene { OnOk result (IsAfter scene.old scene.new) }
{
    let taken = is_newly_taken(scene, notes.first, name);
    add_buffer(alloc, scene, name, table, notes)?;
    notes.unless(!taken, Rule::Y3, name.at);
    Ok(())
}

/// Whether the place may have parameters: in an internal procedure, outside of its blocks.
fn may_have_parameters(scene: &Scene<'_>) -> bool
    ensures { result ≡ may_have_parameters (scene_of scene.now) }
{
    scene.procedure != 0 && scene.around.len() == 1
}

/// DEFINE PARAMETER: Y11 where there may be none.
#[tactic(auto, using(bind_names::proofs::Joined::first_of_append))]
fn parameter(
    alloc: Global,
    scene: &mut Scene<'_>,
    at: Place,
    kind: Kind,
    name: &Word,
    given: &[VariableOption],
    notes: &mut Notes,
) -> Result<(), BindFault>
    ensures judged { OnOk result (IsJudged (breaking (variable (scene_of scene.old) kind name.now given.now true) (unless (may_have_parameters (scene_of scene.old)) Y11 at)) (nothing_done (scene_of scene.new)) notes.old notes.new) }
    ensures scene { OnOk result (IsAfter scene.old scene.new) }
{
    let good = may_have_parameters(scene);
    variable(alloc, scene, kind, name, given, true, notes)?;
    notes.unless(good, Rule::Y11, at);
    Ok(())
}

/// DEFINE STREAM: Y3 at a name that is taken, Y14 at the 17th stream of the source.
#[tactic(auto, using(bind_names::proofs::Joined::first_of_append))]
fn stream(scene: &mut Scene<'_>, name: &Word, notes: &mut Notes) -> Result<(), BindFault>
    ensures judged { OnOk result (IsJudged (define (scene_of scene.old) (TheStream name.now)) (nothing_done (scene_of scene.new)) notes.old notes.new) }
    ensures scene { OnOk result (IsAfter scene.old scene.new) }
{
    note_taken(&scene.known.own, name, notes);
    notes.unless(scene.known.streams < 16, Rule::Y14, name.at);
    let Some(number) = scene.known.streams.checked_add(1) else {
        return Err(BindFault);
    };
    scene.known.own.streams.push(NamedStream {
        name: name.spelling.copy()?,
        number,
    })?;
    scene.known.streams = number;
    Ok(())
}

/// A definition, which has no statement.
pub fn define(
    alloc: Global,
    scene: &mut Scene<'_>,
    definition: &Definition,
    notes: &mut Notes,
) -> Result<(), BindFault>
    ensures judged { OnOk result (IsJudged (define (scene_of scene.old) (definition_of definition.now)) (nothing_done (scene_of scene.new)) notes.old notes.new) }
    ensures scene { OnOk result (IsAfter scene.old scene.new) }
{
    match definition {
        Definition::Variable {
            name,
            kind,
            options,
        } => variable(alloc, scene, *kind, name, options, false, notes),
        Definition::Parameter {
            at,
            name,
            kind,
            options,
            ..
        } => parameter(alloc, scene, *at, *kind, name, options, notes),
        Definition::Buffer { name, table } => buffer(alloc, scene, name, table, notes),
        Definition::Stream(name) => stream(scene, name, notes),
    }
}
