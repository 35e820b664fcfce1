//! All pieces of a text.
ghost use Rattle.std.specs.Prelude.{◌≡◌, ◌≤◌, ℕ, List, All, IfOk};
ghost use Rattle.column_types.specs.Date.{date_of};
ghost use Rattle.pgql_lex.specs.Spelling.{Spelled, decimal};
ghost use Rattle.pgql_grammar.specs.Pieces as spec;
ghost use Rattle.pgql_lex.specs.Spans.{IsAt};
ghost use Rattle.pgql_pieces.specs.Answer.{Cuts, end_of};

use crate::limits::too_deep;
use crate::quotes::{inside, undoubled};
use crate::words::{keyword_sort, number_of, sign_sort};
use column_types::{FieldFault, Kind, List, NoMemory, Text, Value, parse_value};
use pgql_ast::{PgqlFault, Token, TokenKind};
use pgql_grammar::{Piece, Sym};
use pgql_lex::lex;
use std::alloc::Global;

/// A piece that is neither a number nor a date.
fn plain(sym: Sym, place: u32, text: Text) -> Piece
    ensures { result ≡ spec.plain sym place text }
{
    Piece {
        sym,
        place,
        text,
        number: 0,
        day: 0,
    }
}

/// The end of a text.
fn end_piece(alloc: Global, place: u32) -> Piece
    ensures { result ≡ end_of place }
{
    plain(Sym::End, place, Text::new(alloc))
}

#[tactic(auto, unfolding(pgql_grammar::specs::Pieces::piece_of))]
fn number_piece(alloc: Global, place: u32, digits: &[u8]) -> Piece
    requires { decimal digits.now ≤ 9223372036854775807 }
    ensures { result ≡ spec.piece_of TokenKind.Number place digits.now }
{
    Piece {
        sym: Sym::Number,
        place,
        text: Text::new(alloc),
        number: number_of(digits) as i64,
        day: 0,
    }
}

/// The day that a text writes, if it is a date.
#[tactic(auto, unfolding(column_types::specs::Date::date_of))]
fn day_of(alloc: Global, text: &str) -> Result<Option<i32>, NoMemory>
    ensures { IfOk result (λ day. day ≡ date_of text.now) }
{
    if text.is_empty() {
        return Ok(None);
    }
    match parse_value(alloc, Kind::Date, text) {
        Ok(Value::Date(day)) => Ok(Some(day)),
        Ok(_) => Ok(None),
        Err(FieldFault::BadField) => Ok(None),
        Err(FieldFault::NoMemory) => Err(NoMemory),
    }
}

fn chars_piece(place: u32, text: Text, day: Option<i32>) -> Piece
    ensures { result ≡ spec.chars_piece place text day }
{
    match day {
        Some(day) => Piece {
            sym: Sym::Day,
            place,
            text,
            number: 0,
            day,
        },
        None => plain(Sym::Chars, place, text),
    }
}

/// The piece of a token with these bytes.
#[tactic(auto, unfolding(pgql_grammar::specs::Pieces::piece_of))]
fn piece_of(alloc: Global, kind: TokenKind, place: u32, word: &str) -> Result<Piece, NoMemory>
    requires { (behind : List ℕ) × Spelled kind word.now behind }
    ensures { IfOk result (λ piece. piece ≡ spec.piece_of kind place word.now) }
{
    match kind {
        TokenKind::Keyword => {
            let text = Text::from_str(alloc, word)?;
            Ok(plain(keyword_sort(word.as_bytes()), place, text))
        }
        TokenKind::Word => {
            let text = Text::from_str(alloc, word)?;
            Ok(plain(Sym::Name, place, text))
        }
        TokenKind::Quoted => {
            let text = Text::from_str(alloc, inside(word))?;
            Ok(plain(Sym::Name, place, text))
        }
        TokenKind::Number => Ok(number_piece(alloc, place, word.as_bytes())),
        TokenKind::Chars => {
            let text = undoubled(alloc, inside(word))?;
            let day = day_of(alloc, text.as_str())?;
            Ok(chars_piece(place, text, day))
        }
        TokenKind::Sign => Ok(plain(sign_sort(word.as_bytes()), place, Text::new(alloc))),
    }
}

/// The piece of a token of a text.
fn piece_at(alloc: Global, text: &str, token: Token) -> Result<Piece, NoMemory>
    requires { IsAt text.now token }
    ensures { IfOk result (λ piece. piece ≡ spec.piece_of token.kind token.from (spec.bytes_of text.now token)) }
{
    piece_of(
        alloc,
        token.kind,
        token.from,
        &text[token.from as usize..token.to as usize],
    )
}

fn all_pieces(alloc: Global, text: &str, found: &[Token]) -> Result<Vec<Piece>, NoMemory>
    requires { All (IsAt text.now) found.now }
    ensures { IfOk result (λ pieces. pieces.items ≡ spec.pieces text.now found.now) }
{
    let mut pieces = Vec::new(alloc);
    for token in found {
        pieces.push(piece_at(alloc, text, *token)?)?;
    }
    Ok(pieces)
}

/// The pieces of a text and its end, or the first refusal of its length, of a byte where no token begins, or of its depth.
pub fn pieces_of(alloc: Global, text: &str) -> Result<List<Piece>, PgqlFault>
    ensures { Cuts text.now result }
{
    let found = lex(alloc, text)?;
    let mut pieces = all_pieces(alloc, text, found.as_slice())?;
    if let Some(place) = too_deep(pieces.as_slice()) {
        return Err(PgqlFault::At { number: 42, place });
    }
    pieces.push(end_piece(alloc, text.len() as u32))?;
    Ok(List::from_vec(pieces))
}
