//! What holds of the tree of each text.
ghost use Rattle.std.specs.Prelude.{ℕ, List, Result, IfOk};
ghost use Rattle.pgql_ast.specs.declared.fault.PgqlFault.{PgqlFault};
ghost use Rattle.pgql_ast.specs.declared.query.Query.{Query};
ghost use Rattle.pgql_grammar.specs.Meaning.{Spells, Parses};
ghost use Rattle.pgql_forms.specs.WellFormed.{IsWellFormed};

/// A query that a text spells is well formed.
pub fn what_is_spelled_is_well_formed()
    ensures { (text : List ℕ) (query : Query) → Spells text query → IsWellFormed query }
{}

/// A query that the parser answers is well formed.
pub fn what_is_parsed_is_well_formed()
    ensures { (text : List ℕ) (answer : Result Query PgqlFault) → Parses text answer → IfOk answer IsWellFormed }
{}
