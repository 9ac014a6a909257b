//! A source, from its text to its tree.

ghost use Rattle.std.specs.Prelude.{◌+◌, ◌<◌, ◌≡◌, ◌^◌, Err, IfOk, None, Ok, OnOk, Some, length, slice_get};
ghost use Rattle.abl_base.specs.declared.place.Place.{Place as ThePlace};
ghost use Rattle.abl_base.specs.declared.rule.Rule.{Rule as TheRule};
ghost use Rattle.parse_tree.specs.declared.token.Token.{Token as TheToken};
ghost use Rattle.abl_values.specs.Schema.{SchemaData};
ghost use Rattle.syntax_tree.specs.Typed.{program_of};
ghost use Rattle.bound_tree.specs.Bound.{source_of};
ghost use Rattle.binder.specs.Sources.{bound};
ghost use Rattle.buffer_scope.specs.Scoped.{with_scopes, first_broken as first_broken_scope};
ghost use Rattle.block_rules.specs.Rules.{first_broken as first_broken_label};
ghost use Rattle.txn_infer.specs.Flags.{with_flags};
ghost use Rattle.source_reader.specs.Sources.{BreaksRule, HasCleanTokens, HasSyntax, IsSyntaxTree, IsTreeOf};

use abl_base::{Place, Rule};
use abl_values::Schema;
use binder::{TypeRefusal, bind};
use block_rules::first_broken;
use bound_tree::Bound;
use buffer_scope::{ScopeRefusal, scopes};
use lexer::{LexRefusal, lex};
use parse_tree::{Token, Tokens, Tree};
use parser::{SyntaxRefusal, parse};
use std::alloc::Global;
use syntax_reader::{Reader, syntax_reader};
use syntax_tree::Program;
use txn_infer::infer;

/// Why a source was not read.
#[derive(Debug, Drop)]
pub enum SourceFault {
    /// The first rule that it breaks, and its place: L1 to L5 of its tokens, G1 or G2 of the
    /// grammar, Y1 to Y14 of names and types, S1 to S4 of the scopes of buffers, U1 to U7 of labels and
    /// blocks.
    Broken { rule: Rule, place: Place },
    /// Out of memory, or of numbers for what the source defines.
    NoMemory,
}

/// The tree of a source over the schema, with the buffers scoped to each block and the flags of the
/// blocks, or the first rule L, else G, else Y, else S, else U that the text breaks, and its place.
/// Out of memory may come at any time.
pub fn read_source(alloc: Global, schema: &Schema, text: &[u8]) -> Result<Bound, SourceFault>
    requires { length text.now + 1 < 2 ^ 32 }
    ensures tree { IfOk result (λ bound. IsTreeOf schema.now text.now (source_of bound)) }
    ensures broken { (rule : TheRule) (place : ThePlace) → result ≡ Err (SourceFault.Broken rule place) → BreaksRule schema.now text.now rule place }
{
    let program = read_syntax(alloc, text)?;
    let plain = bind_syntax(alloc, schema, text, &program)?;
    let scoped = scope_buffers(alloc, schema, text, &program, plain)?;
    judge_blocks(&program)?;
    Ok(flagged(scoped))
}

/// Judges the labels of the syntax and the blocks that they name: the first rule U that it breaks, and
/// its place. It takes no memory.
fn judge_blocks(program: &Program) -> Result<(), SourceFault>
    ensures clean { OnOk result (first_broken_label (program_of program.now) ≡ None) }
    ensures broken { (rule : TheRule) (place : ThePlace) → result ≡ Err (SourceFault.Broken rule place) → first_broken_label (program_of program.now) ≡ Some (record { rule = rule; place = place }) }
{
    match first_broken(program) {
        None => Ok(()),
        Some(violation) => Err(SourceFault::Broken {
            rule: violation.rule,
            place: violation.place,
        }),
    }
}

/// The tree with the buffers scoped to each block, or the first rule S that the text breaks, and its
/// place. Out of memory may come at any time.
pub(crate) fn scope_buffers(
    alloc: Global,
    schema: &Schema,
    text: &[u8],
    program: &Program,
    plain: Bound,
) -> Result<Bound, SourceFault>
    requires syntax_of { HasSyntax text.now (program_of program.now) }
    requires tree { bound schema.now (program_of program.now) ≡ Ok (source_of plain) }
    ensures clean { IfOk result (λ scoped. first_broken_scope (program_of program.now) (source_of plain) ≡ None) }
    ensures tree { IfOk result (λ scoped. source_of scoped ≡ with_scopes (program_of program.now) (source_of plain)) }
    ensures broken { (rule : TheRule) (place : ThePlace) → result ≡ Err (SourceFault.Broken rule place) → BreaksRule schema.now text.now rule place }
{
    match scopes(alloc, program, plain) {
        Ok(scoped) => Ok(scoped),
        Err(ScopeRefusal::Broken(violation)) => Err(SourceFault::Broken {
            rule: violation.rule,
            place: violation.place,
        }),
        Err(ScopeRefusal::NoMemory) => Err(SourceFault::NoMemory),
    }
}

/// The same tree with the flags of its blocks.
pub(crate) fn flagged(plain: Bound) -> Bound
    ensures { source_of result ≡ with_flags (source_of plain) }
{
    let mut bound = plain;
    infer(&mut bound);
    bound
}

/// The syntax of a source, or the first rule L or G that the text breaks, and its place. Out of
/// memory may come at any time.
pub fn read_syntax(alloc: Global, text: &[u8]) -> Result<Program, SourceFault>
    requires { length text.now + 1 < 2 ^ 32 }
    ensures syntax_of { IfOk result (λ program. HasSyntax text.now (program_of program)) }
    ensures broken { (schema : SchemaData) (rule : TheRule) (place : ThePlace) → result ≡ Err (SourceFault.Broken rule place) → BreaksRule schema text.now rule place }
{
    let tokens = tokens_of(alloc, text)?;
    let tree = tree_of(alloc, text, &tokens)?;
    syntax_of(alloc, text, &tokens, &tree)
}

/// The tree that names and types make of the syntax of a text over the schema, in which no flag of a
/// block is set yet, or the first rule Y that the text breaks, and its place.
pub(crate) fn bind_syntax(
    alloc: Global,
    schema: &Schema,
    text: &[u8],
    program: &Program,
) -> Result<Bound, SourceFault>
    requires { HasSyntax text.now (program_of program.now) }
    ensures tree { IfOk result (λ plain. bound schema.now (program_of program.now) ≡ Ok (source_of plain)) }
    ensures broken { (rule : TheRule) (place : ThePlace) → result ≡ Err (SourceFault.Broken rule place) → BreaksRule schema.now text.now rule place }
{
    match bind(alloc, schema, program) {
        Ok(plain) => Ok(plain),
        Err(TypeRefusal::Broken(violation)) => Err(SourceFault::Broken {
            rule: violation.rule,
            place: violation.place,
        }),
        Err(TypeRefusal::NoMemory) => Err(SourceFault::NoMemory),
    }
}

/// The tokens of the text, or the first rule of tokens that it breaks.
fn tokens_of(alloc: Global, text: &[u8]) -> Result<Tokens, SourceFault>
    requires { length text.now + 1 < 2 ^ 32 }
    ensures tokens { IfOk result (HasCleanTokens text.now) }
    ensures broken { (schema : SchemaData) (rule : TheRule) (place : ThePlace) → result ≡ Err (SourceFault.Broken rule place) → BreaksRule schema text.now rule place }
{
    match lex(alloc, text) {
        Ok(tokens) => Ok(tokens),
        Err(LexRefusal::Broken { rule, place }) => Err(SourceFault::Broken { rule, place }),
        Err(LexRefusal::NoMemory) => Err(SourceFault::NoMemory),
    }
}

/// The syntax tree of the text with these tokens, or the first rule of the grammar that they break.
fn tree_of(alloc: Global, text: &[u8], tokens: &Tokens) -> Result<Tree, SourceFault>
    requires { HasCleanTokens text.now tokens.now }
    ensures tree { IfOk result (IsSyntaxTree text.now tokens.now) }
    ensures broken { (schema : SchemaData) (rule : TheRule) (place : ThePlace) → result ≡ Err (SourceFault.Broken rule place) → BreaksRule schema text.now rule place }
{
    match parse(alloc, tokens) {
        Ok(tree) => Ok(tree),
        Err(SyntaxRefusal::Broken { rule, at }) => Err(SourceFault::Broken {
            rule,
            place: place_at(tokens.as_slice(), at as usize),
        }),
        Err(SyntaxRefusal::NoMemory) => Err(SourceFault::NoMemory),
    }
}

/// The place of the token with this number.
fn place_at(tokens: &[Token], number: usize) -> Place
    requires { number < length tokens.now }
    ensures { (token : TheToken) × (slice_get tokens.now number ≡ Some token) × (token.place ≡ result) }
{
    tokens[number].place
}

/// The syntax that the tree of the text denotes. Out of memory is the only refusal.
fn syntax_of(
    alloc: Global,
    text: &[u8],
    tokens: &Tokens,
    tree: &Tree,
) -> Result<Program, SourceFault>
    requires { IsSyntaxTree text.now tokens.now tree.now }
    ensures syntax_of { IfOk result (λ program. HasSyntax text.now (program_of program)) }
    ensures memory { (rule : TheRule) (place : ThePlace) → result ≡ Err (SourceFault.Broken rule place) → ⊥ }
{
    let reader = Reader {
        tokens: tokens.as_slice(),
        nodes: tree.as_slice(),
    };
    match syntax_reader(alloc, &reader) {
        Ok(program) => Ok(program),
        Err(_) => Err(SourceFault::NoMemory),
    }
}
