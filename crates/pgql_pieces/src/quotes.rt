//! What stands between quotes.
ghost use Rattle.std.specs.Prelude.{◌≡◌, false, IfOk};
ghost use Rattle.pgql_grammar.specs.Pieces as spec;
ghost use Rattle.pgql_pieces.specs.Quotes.{IsQuoted};

use column_types::{NoMemory, Text};
use std::alloc::Global;

/// The text between the first and the last byte, which are both ASCII.
pub fn inside(word: &str) -> &str
    requires { IsQuoted word.now }
    ensures { result.now ≡ spec.inside word.now }
{
    &word[1..word.len() - 1]
}

/// The text with each doubled quote once.
pub fn undoubled(alloc: Global, text: &str) -> Result<Text, NoMemory>
    ensures { IfOk result (λ t. t ≡ spec.undoubled false text.now) }
{
    let mut out = Text::new(alloc);
    let mut behind_quote = false;
    for c in text.chars() {
        let is_quote = c == '\'';
        if behind_quote && is_quote {
            behind_quote = false;
        } else {
            out.push_char(c)?;
            behind_quote = is_quote;
        }
    }
    Ok(out)
}
