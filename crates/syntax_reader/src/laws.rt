//! Laws about the definitions alone. Each is the contract of a function that does nothing.

ghost use Rattle.std.specs.Prelude.{◌≡◌};
ghost use Rattle.syntax_tree.specs.Syntax.{Program};
ghost use Rattle.syntax_reader.specs.Nodes.{Source};
ghost use Rattle.syntax_reader.specs.Statements.{IsProgram};

/// Node 0 denotes at most one program.
pub fn one_program()
    ensures { (c : Source) (one other : Program) → IsProgram c one → IsProgram c other → one ≡ other }
{}
