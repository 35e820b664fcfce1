//! What the grammar says of every text.
ghost use Rattle.std.specs.Prelude.{◌≡◌, ◌⊎◌, ℕ, List, true, false};
ghost use Rattle.pgql_ast.specs.declared.query.Query.{Query};
ghost use Rattle.pgql_lex.specs.Bytes.{is_keyword as is_keyword_word};
ghost use Rattle.pgql_lex.specs.Spelling.{doubled};
ghost use Rattle.pgql_grammar.specs.Pieces.{undoubled, keyword_sort};
ghost use Rattle.pgql_grammar.specs.Sorts.{is_keyword};
ghost use Rattle.pgql_grammar.specs.Meaning.{Spells, Refused};

/// A text spells at most one query, and it spells one exactly where it has no refusal; it has at most one refusal.
pub fn texts_spell_queries()
    ensures one_query { (text : List ℕ) (a b : Query) → Spells text a → Spells text b → a ≡ b }
    ensures one_refusal { (text : List ℕ) (number other place there : ℕ) → Refused text number place → Refused text other there → (number ≡ other) × (place ≡ there) }
    ensures query_or_refusal { (text : List ℕ) → ((query : Query) × Spells text query) ⊎ ((number place : ℕ) × Refused text number place) }
    ensures not_both { (text : List ℕ) (query : Query) (number place : ℕ) → Spells text query → Refused text number place → ⊥ }
{}

/// Each quote of a text stands twice between its quotes.
pub fn quotes_are_doubled()
    ensures { (text : List ℕ) → undoubled false (doubled text) ≡ text }
{}

/// Each keyword has the sort of a keyword.
pub fn keywords_have_sorts()
    ensures { (word : List ℕ) → is_keyword_word word ≡ true → is_keyword (keyword_sort word) ≡ true }
{}
