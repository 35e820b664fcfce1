//! All tokens of a text.
ghost use Rattle.std.specs.Prelude.{◌≡◌, ◌≤◌, ◌<◌, All, IfOk};
ghost use Rattle.pgql_lex.specs.Answer.{Lexes};
ghost use Rattle.pgql_lex.specs.Spans.{IsAt, InOrder};

use crate::bytes::is_blank;
use crate::front::token_at;
use column_types::List;
use pgql_ast::{PgqlFault, Token};
use std::alloc::Global;

/// The longest text, in bytes.
const LONGEST_TEXT: u32 = 65_535;

/// The tokens of a text with their spans, in order. The refusals are 42 at 65535 for a text of more than 65,535 bytes, and
/// else 40 at the first byte where no token begins.
pub fn lex(alloc: Global, text: &str) -> Result<List<Token>, PgqlFault>
    ensures tokens { Lexes text.now result }
    ensures spans { IfOk result (λ found. All (IsAt text.now) found) }
    ensures order { IfOk result (λ found. InOrder 0 found) }
{
    if text.len() > LONGEST_TEXT as usize {
        return Err(PgqlFault::At {
            number: 42,
            place: LONGEST_TEXT,
        });
    }
    let mut tokens = List::new(alloc);
    let mut rest = text.as_bytes();
    let mut at: u32 = 0;
    while let [first, after @ ..] = rest {
        if is_blank(*first) {
            rest = after;
            at += 1;
        } else {
            let Some((kind, len)) = token_at(rest) else {
                return Err(PgqlFault::At {
                    number: 40,
                    place: at,
                });
            };
            let to = at + len as u32;
            tokens.push(Token { kind, from: at, to })?;
            let (_, behind) = rest.split_at(len);
            rest = behind;
            at = to;
        }
    }
    Ok(tokens)
}
