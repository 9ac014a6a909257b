//! What the definitions say by themselves.

ghost use Rattle.std.specs.Prelude.{◌≡◌, List};
ghost use Rattle.parse_tree.specs.declared.token.Token.{Token};
ghost use Rattle.lexer.specs.Texts.{HasTokens};

/// No text has two token lists.
pub fn tokens_are_one(text: &[u8])
    ensures { (one : List Token) (other : List Token) → HasTokens text.now one → HasTokens text.now other → one ≡ other }
{}
