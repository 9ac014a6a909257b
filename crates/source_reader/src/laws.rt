//! What is known of a text and its tree, whatever reads it. Each law is what its function ensures.

ghost use Rattle.std.specs.Prelude.{◌≡◌, ℕ, List, Some, map, slice_get};
ghost use Rattle.abl_base.specs.declared.place.Place.{Place as ThePlace};
ghost use Rattle.abl_base.specs.declared.rule.Rule.{Rule as TheRule};
ghost use Rattle.abl_values.specs.Schema.{SchemaData};
ghost use Rattle.syntax_tree.specs.Syntax.{Program as Syntax};
ghost use Rattle.bound_tree.specs.Tree.{Body, Header as TheHeader, Procedure as TheProcedure, Source as Tree};
ghost use Rattle.buffer_scope.specs.Blocks.{Placed, blocks_of};
ghost use Rattle.source_reader.specs.Headers.{HasItsBuffers, HasItsFlags, IsBlockOf};
ghost use Rattle.source_reader.specs.Numbered.{HasOneHeader};
ghost use Rattle.source_reader.specs.Sources.{BreaksRule, HasSyntax, IsTreeOf};
ghost use Rattle.source_reader.specs.TextBlocks.{AreItsBlocks, TextBlock, text_blocks};

/// A text denotes at most one tree over a schema.
pub fn one_tree()
    ensures { (schema : SchemaData) (text : List ℕ) (a b : Tree) → IsTreeOf schema text a → IsTreeOf schema text b → a ≡ b }
{}

/// A text breaks at most one rule first over a schema, at one place.
pub fn one_rule_is_first()
    ensures { (schema : SchemaData) (text : List ℕ) (rule other : TheRule) (place spot : ThePlace) → BreaksRule schema text rule place → BreaksRule schema text other spot → (rule ≡ other) × (place ≡ spot) }
{}

/// A text that denotes a tree over a schema breaks no rule over it.
pub fn trees_break_no_rule()
    ensures { (schema : SchemaData) (text : List ℕ) (tree : Tree) (rule : TheRule) (place : ThePlace) → IsTreeOf schema text tree → ¬ BreaksRule schema text rule place }
{}

/// In the tree of a text, the flags of each block are those that the definitions of transactions give
/// of a block with its header and its statements.
pub fn flags_are_as_defined()
    ensures { (schema : SchemaData) (text : List ℕ) (tree : Tree) → IsTreeOf schema text tree → (number : ℕ) (procedure : TheProcedure) → slice_get tree.procedures number ≡ Some procedure →
        (header : TheHeader) (body : Body) → IsBlockOf header body procedure → HasItsFlags header body }
{}

/// In the tree of a text, the buffers in the header of each block are those that the definition of
/// buffer scopes gives of the block of its number in the syntax of the text. Which block that is,
/// `each_block_has_one_header` says.
pub fn buffers_are_as_defined()
    ensures { (schema : SchemaData) (text : List ℕ) (tree : Tree) → IsTreeOf schema text tree → (number : ℕ) (procedure : TheProcedure) → slice_get tree.procedures number ≡ Some procedure →
        (header : TheHeader) (body : Body) → IsBlockOf header body procedure → (syntax_of : Syntax) → HasSyntax text syntax_of → HasItsBuffers syntax_of procedure header }
{}

/// In the tree of a text, the headers of each procedure are those of its blocks in the text, one for one
/// in text order: each has the number of its block, which is how many blocks begin before it, the line
/// of its first keyword, and its kind.
pub fn headers_are_the_blocks_of_the_text()
    ensures { (schema : SchemaData) (text : List ℕ) (tree : Tree) → IsTreeOf schema text tree → (syntax_of : Syntax) → HasSyntax text syntax_of →
        (number : ℕ) (procedure : TheProcedure) → slice_get tree.procedures number ≡ Some procedure → AreItsBlocks syntax_of number procedure }
{}

/// Each block of a text has one header in its tree: it is in the procedure of the block, it has the
/// number, the line and the kind of the block and the buffers that the definition of buffer scopes gives
/// of it, and no other header has its number.
pub fn each_block_has_one_header()
    ensures { (schema : SchemaData) (text : List ℕ) (tree : Tree) → IsTreeOf schema text tree → (syntax_of : Syntax) → HasSyntax text syntax_of →
        (number : ℕ) (block : TextBlock) → slice_get (text_blocks syntax_of) number ≡ Some block → HasOneHeader syntax_of tree number block }
{}

/// The blocks over which the definition of buffer scopes goes are the blocks of the text, in text order.
pub fn scopes_are_of_the_blocks_of_the_text()
    ensures { (syntax_of : Syntax) → map (λ (b : Placed). b.keyword) (blocks_of syntax_of) ≡ map (λ (b : TextBlock). b.keyword) (text_blocks syntax_of) }
{}
