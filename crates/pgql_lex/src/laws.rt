//! What is computed, in words of its own.
ghost use Rattle.std.specs.Prelude.{◌≡◌, ◌↔◌, ℕ, List, Some, Ok, Err};
ghost use Rattle.pgql_ast.specs.declared.token.Token.{Token};
ghost use Rattle.pgql_ast.specs.declared.token.TokenKind.{TokenKind};
ghost use Rattle.pgql_lex.specs.Bytes.{Text};
ghost use Rattle.pgql_lex.specs.Spelling.{Begins};
ghost use Rattle.pgql_lex.specs.Standing.{IsSpelled, FirstFault};
ghost use Rattle.pgql_lex.specs.Tokens.{token, tokens};

/// A token is found at the front of a text exactly where its bytes and what stands behind them spell it.
pub fn a_token_is_what_is_spelled()
    ensures { (text : Text) (kind : TokenKind) (len : ℕ) → (token text ≡ Some (kind, len)) ↔ Begins text kind len }
{}

/// A text has these tokens exactly where it is they and white space.
pub fn tokens_and_white_space_are_the_text()
    ensures { (text : Text) (found : List Token) → (tokens 0 0 text ≡ Ok found) ↔ IsSpelled text found }
{}

/// A text has a fault at a place exactly where it is tokens and white space up to there, and neither begins there.
pub fn a_fault_is_where_no_token_begins()
    ensures { (text : Text) (place : ℕ) → (tokens 0 0 text ≡ Err place) ↔ FirstFault text place }
{}
