//! The laws. Each is the contract of a function with an empty body.

ghost use Rattle.std.specs.Prelude.{◌≡◌, Bool, IfSome, List, None, Ok, true, ℕ};
ghost use Rattle.std.specs.List.{All, list_all};
ghost use Rattle.abl_base.specs.declared.value.Kind.{Kind};
ghost use Rattle.bound_tree.specs.declared.expression.Variable.{Variable};
ghost use Rattle.abl_values.specs.Schema.{SchemaData};
ghost use Rattle.syntax_tree.specs.Syntax.{Program};
ghost use Rattle.bound_tree.specs.Tree.{Expr, Source};
ghost use Rattle.bind_names.specs.declared.sort.Sort.{Sort};
ghost use Rattle.bind_expressions.specs.WellKinded.{sort_of};
ghost use Rattle.binder.specs.Sources.{bound};
ghost use Rattle.block_rules.specs.Rules.{first_broken};
ghost use Rattle.buffer_scope.specs.Scoped.{with_scopes};
ghost use Rattle.txn_infer.specs.Flags.{with_flags};
ghost use Rattle.kind_laws.specs.bound_kinds.Kinds.{kinds_of_source};
ghost use Rattle.kind_laws.specs.bound_kinds.Values.{Has, Keeps};
ghost use Rattle.kind_laws.specs.bound_kinds.WellKinded.{is_field, is_good, is_masked, is_of_kind, is_value, is_variable, is_well_kinded};
ghost use Rattle.expression_meaning.specs.Evaluate.{evaluate};
ghost use Rattle.block_meaning.specs.Frames.{content_of, value_of};
ghost use Rattle.block_meaning.specs.Values.{env_of, field_in};
ghost use Rattle.flat_machine.specs.Config.{Await, Config, OnAnswer, StackEntry};
ghost use Rattle.flat_machine.specs.Steps.{config};
ghost use Rattle.block_meaning.specs.State.{State};
ghost use Rattle.database_protocol.specs.declared.event.Event.{Event};
ghost use Rattle.database_protocol.specs.declared.operation.Op.{Op};
ghost use Rattle.kind_laws.specs.Evaluated.{expressions_of};
ghost use Rattle.kind_laws.specs.Placed.{is_placed};
ghost use Rattle.kind_laws.specs.Operations.{IsOfSchema};
ghost use Rattle.kind_laws.specs.Reached.{Ground, IsGround, ReachedOn, running};
ghost use Rattle.kind_laws.specs.Texts.{IsOfText};

/// In every state that a run reaches, each variable of the running procedure, and each of the external
/// procedure that it uses, has a value of its kind, or `?`.
pub fn variables_have_values_of_their_kinds()
    ensures { (g : Ground) → IsGround g → (units : ℕ) (own : List Event) (c : Config) → ReachedOn g units own c → (v : Variable) → is_variable (running g c.state) v ≡ true → is_of_kind v.kind (value_of v c.state) ≡ true }
{}

/// Each field of a record in a buffer of the running procedure has a value of the field's kind, or `?`.
pub fn fields_have_values_of_their_kinds()
    ensures { (g : Ground) → IsGround g → (units : ℕ) (own : List Event) (c : Config) → ReachedOn g units own c → (buffer field : ℕ) (kind : Kind) → is_field (running g c.state) buffer field kind ≡ true → IfSome (field_in field (content_of buffer c.state)) (λ v. is_of_kind kind v ≡ true) }
{}

/// So an expression that is good at a place of the running procedure has a value of its sort there, or
/// a fault.
pub fn expressions_have_values_of_their_sorts()
    ensures keeps { (g : Ground) → IsGround g → (units : ℕ) (own : List Event) (c : Config) → ReachedOn g units own c → (test : Sort → Bool) (e : Expr) (retry : Bool) → is_good (running g c.state) test e ≡ true → Keeps (env_of retry c.state) e }
    ensures has { (g : Ground) → IsGround g → (units : ℕ) (own : List Event) (c : Config) → ReachedOn g units own c → (test : Sort → Bool) (e : Expr) (retry : Bool) → is_good (running g c.state) test e ≡ true → Has (sort_of e) (evaluate g.program.forms (env_of retry c.state) e) }
{}

/// The expressions that a step of a run, or an answer, evaluates are good at places of the running
/// procedure: so the laws above are about each of them.
pub fn evaluated_expressions_are_good()
    ensures { (g : Ground) → IsGround g → (units : ℕ) (own : List Event) (c : Config) → ReachedOn g units own c → list_all (is_value (running g c.state)) (expressions_of g.code c.mode) ≡ true }
{}

/// The tree of a source that breaks none of the rules Y is well-kinded also with the flags of its
/// blocks and the scopes of its buffers, over a schema whose masks fit.
pub fn trees_are_well_kinded()
    ensures { (schema : SchemaData) (program : Program) (plain : Source) → is_masked schema ≡ true → bound schema program ≡ Ok plain → is_well_kinded schema (kinds_of_source program) (with_flags (with_scopes program plain)) ≡ true }
{}

/// The tree of a source that breaks none of the rules Y and U names only blocks that are around the
/// place.
pub fn trees_name_blocks_around()
    ensures { (schema : SchemaData) (program : Program) (plain : Source) → bound schema program ≡ Ok plain → first_broken program ≡ None → is_placed (with_flags (with_scopes program plain)) ≡ true }
{}

/// In every state that a run of a source text reaches, each expression that the next step or answer
/// evaluates has a value of its sort there, or a fault. The text and the schema file break no rule.
pub fn expressions_of_a_text_have_values_of_their_sorts()
    ensures { (file text : List ℕ) (g : Ground) → IsOfText file text g → (units : ℕ) (own : List Event) (c : Config) → ReachedOn g units own c → All (λ e. (retry : Bool) → Has (sort_of e) (evaluate g.program.forms (env_of retry c.state) e)) (expressions_of g.code c.mode) }
{}

/// Each operation that is asked is of the schema: its table, index and sequence are declared, and its
/// values are a row of the table, of at most 30,000 bytes.
pub fn operations_are_of_the_schema()
    ensures { (g : Ground) → IsGround g → (units : ℕ) (own : List Event) (op : Op) (on : OnAnswer) (ks : List StackEntry) (s : State) → ReachedOn g units own (config (Await op on) ks s) → IsOfSchema g.schema op }
{}

/// So it is in each run of a source text over a schema file that break no rule.
pub fn operations_of_a_text_are_of_the_schema()
    ensures { (file text : List ℕ) (g : Ground) → IsOfText file text g → (units : ℕ) (own : List Event) (op : Op) (on : OnAnswer) (ks : List StackEntry) (s : State) → ReachedOn g units own (config (Await op on) ks s) → IsOfSchema g.schema op }
{}
