//! Laws about the definitions alone. Each is the contract of a function that does nothing.

ghost use Rattle.std.specs.Prelude.{◌≡◌, Bool, List, ℕ, Ok, Some, true};
ghost use Rattle.abl_values.specs.Schema.{SchemaData};
ghost use Rattle.schema_lines.specs.declared.item.Item.{Item};
ghost use Rattle.schema_reader.specs.Meaning.{schema_of};
ghost use Rattle.syntax_tree.specs.Syntax.{Program};
ghost use Rattle.bound_tree.specs.Tree.{Expr, Source};
ghost use Rattle.abl_base.specs.text_forms.TextForms.{TextForms};
ghost use Rattle.abl_base.specs.declared.value.Value.{Value};
ghost use Rattle.expression_meaning.specs.Env.{Env};
ghost use Rattle.expression_meaning.specs.Evaluate.{evaluate};
ghost use Rattle.bind_names.specs.declared.sort.Sort.{Sort};
ghost use Rattle.bind_expressions.specs.WellKinded.{sort_of};
ghost use Rattle.kind_laws.specs.bound_kinds.Values.{Has, Keeps, is_masked_by};
ghost use Rattle.binder.specs.Sources.{bound};
ghost use Rattle.kind_laws.specs.bound_kinds.Kinds.{kinds_of_source};
ghost use Rattle.kind_laws.specs.bound_kinds.WellKinded.{Surroundings, is_good, is_masked, is_shown, is_well_kinded};

/// Where the mask of each field of the schema is one for its kind, every source that breaks none of
/// the rules Y is bound to a tree that is well-kinded with the kinds that its definitions of variables
/// and parameters say: each use of a variable has the one kind of its definition. `bind` of `binder`
/// returns what `bound` says.
pub fn what_is_bound_is_well_kinded()
    ensures { (schema : SchemaData) (program : Program) (tree : Source) → is_masked schema ≡ true → bound schema program ≡ Ok tree → is_well_kinded schema (kinds_of_source program) tree ≡ true }
{}

/// The schema that a file means has such masks: a FORMAT that is no mask for the field's kind counts
/// as none. `read_df` of `schema_reader` returns this schema.
pub fn masks_of_schema_files_fit()
    ensures { (items : List Item) → is_masked (schema_of items) ≡ true }
{}

/// An expression that is good in its place has a value of its sort, or a fault, wherever the variables
/// and fields in it have values of their kinds.
pub fn values_have_their_sorts()
    ensures { (x : Surroundings) (forms : TextForms) (env : Env) (test : Sort → Bool) (e : Expr) → Keeps env e → is_good x test e ≡ true → Has (sort_of e) (evaluate forms env e) }
{}

/// So PUT never shows a value under a mask for another kind.
pub fn masks_fit_the_values_shown()
    ensures { (x : Surroundings) (forms : TextForms) (env : Env) (mask : List ℕ) (e : Expr) (v : Value) → Keeps env e → is_shown x (Some mask) e ≡ true → evaluate forms env e ≡ Ok v → is_masked_by mask v ≡ true }
{}
