//! The answers to cases.

use crate::cuts::{pieces_shown, tokens_shown};
use crate::queries::query_shown;
use pgql_ast::{Expr, PgqlFault, Query, copy_expr, copy_query, is_same_tree};
use pgql_lex::lex;
use pgql_parse::parse;
use pgql_pieces::pieces_of;
use std::alloc::{AllocError, Global};
use std::io;
use std::thread::{Builder, Threads};

/// The stack of the thread that reads a deep text.
const STACK: usize = 4 << 20;

/// The answer to a word and a text.
pub fn answer<R: Threads>(rt: &R, alloc: Global, word: &str, text: &str) -> io::Result<String> {
    if word == "deep" {
        return deep_answer(rt, alloc, text);
    }
    Ok(plain_answer(alloc, word, text)?)
}

fn plain_answer(alloc: Global, word: &str, text: &str) -> Result<String, AllocError> {
    match word {
        "read" => read_answer(alloc, text),
        "copy" => copy_answer(alloc, text),
        "same" => same_answer(alloc, text),
        "tokens" => tokens_answer(alloc, text),
        "pieces" => pieces_answer(alloc, text),
        _ => String::from_str(alloc, "no case"),
    }
}

fn refusal(alloc: Global, fault: PgqlFault) -> Result<String, AllocError> {
    match fault {
        PgqlFault::At { number, place } => format!(in alloc; "refused {number} at {place}"),
        PgqlFault::NoMemory => String::from_str(alloc, "out of memory"),
    }
}

fn tokens_answer(alloc: Global, text: &str) -> Result<String, AllocError> {
    match lex(alloc, text) {
        Ok(tokens) => tokens_shown(alloc, tokens.as_slice()),
        Err(fault) => refusal(alloc, fault),
    }
}

fn pieces_answer(alloc: Global, text: &str) -> Result<String, AllocError> {
    match pieces_of(alloc, text) {
        Ok(pieces) => pieces_shown(alloc, pieces.as_slice()),
        Err(fault) => refusal(alloc, fault),
    }
}

fn read_answer(alloc: Global, text: &str) -> Result<String, AllocError> {
    match parse(alloc, text) {
        Ok(query) => query_shown(alloc, &query),
        Err(fault) => refusal(alloc, fault),
    }
}

fn copy_answer(alloc: Global, text: &str) -> Result<String, AllocError> {
    match parse(alloc, text) {
        Ok(query) => copy_shown(alloc, &query),
        Err(fault) => refusal(alloc, fault),
    }
}

fn copy_shown(alloc: Global, query: &Query) -> Result<String, AllocError> {
    match copy_query(alloc, query) {
        Ok(copy) => query_shown(alloc, &copy),
        Err(_) => String::from_str(alloc, "out of memory"),
    }
}

fn same_answer(alloc: Global, text: &str) -> Result<String, AllocError> {
    let (left, right) = text.split_once('|').unwrap_or((text, ""));
    let left = asked(alloc, left)?;
    match parse(alloc, left.as_str()) {
        Ok(query) => same_as(alloc, &query, right),
        Err(fault) => refusal(alloc, fault),
    }
}

fn same_as(alloc: Global, left: &Query, right: &str) -> Result<String, AllocError> {
    let right = asked(alloc, right)?;
    match parse(alloc, right.as_str()) {
        Ok(query) => String::from_str(alloc, first_compared(alloc, left, &query)),
        Err(fault) => refusal(alloc, fault),
    }
}

/// The query that selects an expression.
fn asked(alloc: Global, expr: &str) -> Result<String, AllocError> {
    format!(in alloc; "SELECT {expr} FROM MATCH (n)")
}

/// Whether a copy of the first item of one query equals that of another but for places.
fn first_compared(alloc: Global, left: &Query, right: &Query) -> &'static str {
    match (left.items.get(0), right.items.get(0)) {
        (Some(a), Some(b)) => copy_compared(alloc, &a.value, &b.value),
        _ => "no items",
    }
}

fn copy_compared(alloc: Global, a: &Expr, b: &Expr) -> &'static str {
    match copy_expr(alloc, a) {
        Ok(copy) if is_same_tree(&copy, b) => "yes",
        Ok(_) => "no",
        Err(_) => "out of memory",
    }
}

fn deep_answer<R: Threads>(rt: &R, alloc: Global, text: &str) -> io::Result<String> {
    let text = String::from_str(alloc, text)?;
    let reader = Builder::new()
        .stack_size(STACK)
        .spawn(rt, move || parse(alloc, text.as_str()).is_ok())?;
    let is_read = reader.join(rt);
    Ok(String::from_str(alloc, if is_read { "read" } else { "refused" })?)
}
