//! Whole texts.
ghost use Rattle.std.specs.Prelude.{◌≡◌};
ghost use Rattle.pgql_grammar.specs.Meaning.{Parses};

use crate::clauses::query;
use crate::rest::{Rest, Stop};
use crate::sorts::is;
use pgql_ast::{PgqlFault, Query};
use pgql_grammar::Sym;
use pgql_pieces::pieces_of;
use std::alloc::Global;

/// The query that a text spells, or its first refusal with the number and the byte place of it.
pub fn parse(alloc: Global, text: &str) -> Result<Query, PgqlFault>
    ensures { Parses text.now result }
{
    let pieces = pieces_of(alloc, text)?;
    let mut rest = Rest::new(pieces.as_slice());
    let end = text.len() as u32;
    let depth = rest.len();
    match query(alloc, &mut rest, depth) {
        Err(Stop::NoMemory) => Err(PgqlFault::NoMemory),
        Err(Stop::Fault) => Err(PgqlFault::At {
            number: 41,
            place: rest.place(end),
        }),
        Ok(query) => {
            if is(Sym::End, rest.peek()) {
                return Ok(query);
            }
            Err(PgqlFault::At {
                number: 41,
                place: rest.place(end),
            })
        }
    }
}
