//! Tokens and pieces in one line.

use pgql_ast::Token;
use pgql_grammar::{Piece, Sym};
use std::alloc::{AllocError, Global};

/// The tokens with their kinds and spans, or `none`.
pub fn tokens_shown(alloc: Global, tokens: &[Token]) -> Result<String, AllocError> {
    if tokens.is_empty() {
        return String::from_str(alloc, "none");
    }
    let mut out = String::new(alloc);
    for (number, token) in tokens.iter().enumerate() {
        out.push_str(if number == 0 { "" } else { ", " })?;
        write!(out, "{:?} {} {}", token.kind, token.from, token.to)?;
    }
    Ok(out)
}

/// The pieces with their sorts, places and meanings.
pub fn pieces_shown(alloc: Global, pieces: &[Piece]) -> Result<String, AllocError> {
    let mut out = String::new(alloc);
    for (number, piece) in pieces.iter().enumerate() {
        out.push_str(if number == 0 { "" } else { ", " })?;
        write!(out, "{:?}@{}", piece.sym, piece.place)?;
        push_meaning(&mut out, piece)?;
    }
    Ok(out)
}

fn push_meaning(out: &mut String, piece: &Piece) -> Result<(), AllocError> {
    match piece.sym {
        Sym::Number => write!(out, " {}", piece.number),
        Sym::Day => write!(out, " {} {}", piece.text.as_str(), piece.day),
        _ if piece.text.is_empty() => Ok(()),
        _ => write!(out, " {}", piece.text.as_str()),
    }
}
