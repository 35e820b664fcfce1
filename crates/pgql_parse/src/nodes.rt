//! Nodes of the tree.
ghost use Rattle.std.specs.Prelude.{◌≡◌, List, [], ◌∷◌, IfOk, map};
ghost use Rattle.std.specs.Char.{to_ascii_lowercase};
ghost use Rattle.pgql_grammar.specs.Expression as spec;

use column_types::{NoMemory, Text};
use pgql_ast::{Expr, Node, Op};
use pgql_grammar::Piece;
use sqlite_items::{Boxed, Items};
use std::alloc::{AllocError, Global};

pub fn at(place: u32, node: Node) -> Expr
    ensures { result ≡ spec.at place node }
{
    Expr { place, node }
}

pub fn text_of(alloc: Global, piece: &Piece) -> Result<Text, NoMemory>
    ensures { IfOk result (λ text. text ≡ piece.now.text) }
{
    Text::from_str(alloc, piece.text.as_str())
}

/// The text of a piece in small letters.
pub fn small_text_of(alloc: Global, piece: &Piece) -> Result<Text, NoMemory>
    ensures { IfOk result (λ text. text ≡ map to_ascii_lowercase piece.now.text) }
{
    let small = piece.text.as_str().to_ascii_lowercase(alloc)?;
    Text::from_str(alloc, small.as_str())
}

/// A chain of `*`, `/` and `%`.
pub fn product_of(alloc: Global, first: Expr, more: Items<(Op, Expr)>) -> Result<Expr, AllocError>
    ensures { IfOk result (λ e. e ≡ spec.chain Node.Product first more) }
{
    if more.is_empty() {
        return Ok(first);
    }
    let place = first.place;
    Ok(at(place, Node::Product(Boxed::new(alloc, first)?, more)))
}

/// A chain of `+` and `-`.
pub fn sum_of(alloc: Global, first: Expr, more: Items<(Op, Expr)>) -> Result<Expr, AllocError>
    ensures { IfOk result (λ e. e ≡ spec.chain Node.Sum first more) }
{
    if more.is_empty() {
        return Ok(first);
    }
    let place = first.place;
    Ok(at(place, Node::Sum(Boxed::new(alloc, first)?, more)))
}

/// A chain of `AND`.
pub fn and_of(alloc: Global, first: Expr, more: Items<Expr>) -> Result<Expr, AllocError>
    ensures { IfOk result (λ e. e ≡ spec.row Node.And first more) }
{
    if more.is_empty() {
        return Ok(first);
    }
    let place = first.place;
    let mut all = Items::new(alloc);
    all.push(first)?;
    all.append(more)?;
    Ok(at(place, Node::And(all)))
}

/// A chain of `OR`.
pub fn or_of(alloc: Global, first: Expr, more: Items<Expr>) -> Result<Expr, AllocError>
    ensures { IfOk result (λ e. e ≡ spec.row Node.Or first more) }
{
    if more.is_empty() {
        return Ok(first);
    }
    let place = first.place;
    let mut all = Items::new(alloc);
    all.push(first)?;
    all.append(more)?;
    Ok(at(place, Node::Or(all)))
}
