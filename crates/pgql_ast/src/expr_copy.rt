//! Copies of expressions.
ghost use Rattle.std.specs.Prelude.{◌≡◌, IfOk};

use crate::{Expr, Node, Op};
use column_types::{NoMemory, Text};
use sqlite_items::{Boxed, Items};
use std::alloc::Global;

/// An equal text.
pub fn copy_text(text: &Text) -> Result<Text, NoMemory>
    ensures { IfOk result (λ copy. copy ≡ text.now) }
{
    let copy = text.clone()?;
    Ok(copy)
}

/// An equal expression.
#[cycle(copy)]
pub fn copy_expr(alloc: Global, expr: &Expr) -> Result<Expr, NoMemory>
    ensures { IfOk result (λ copy. copy ≡ expr.now) }
{
    Ok(Expr {
        place: expr.place,
        node: copy_node(alloc, &expr.node)?,
    })
}

#[cycle(copy)]
fn copy_boxed(alloc: Global, expr: &Boxed<Expr>) -> Result<Boxed<Expr>, NoMemory>
    ensures { IfOk result (λ copy. copy ≡ expr.now) }
{
    let copy = copy_expr(alloc, expr.get())?;
    Ok(Boxed::new(alloc, copy)?)
}

#[cycle(copy)]
fn copy_list(alloc: Global, list: &[Expr]) -> Result<Items<Expr>, NoMemory>
    ensures { IfOk result (λ copy. copy ≡ list.now) }
{
    let mut all = Items::new(alloc);
    for expr in list {
        all.push(copy_expr(alloc, expr)?)?;
    }
    Ok(all)
}

#[cycle(copy)]
fn copy_pairs(alloc: Global, list: &[(Op, Expr)]) -> Result<Items<(Op, Expr)>, NoMemory>
    ensures { IfOk result (λ copy. copy ≡ list.now) }
{
    let mut all = Items::new(alloc);
    for pair in list {
        all.push((pair.0, copy_expr(alloc, &pair.1)?))?;
    }
    Ok(all)
}

#[cycle(copy)]
fn copy_node(alloc: Global, node: &Node) -> Result<Node, NoMemory>
    ensures { IfOk result (λ copy. copy ≡ node.now) }
{
    match node {
        Node::Number(n) => Ok(Node::Number(*n)),
        Node::Chars(t) => Ok(Node::Chars(copy_text(t)?)),
        Node::Truth(b) => Ok(Node::Truth(*b)),
        Node::Null => Ok(Node::Null),
        Node::Date(day) => Ok(Node::Date(*day)),
        Node::Name(t) => Ok(Node::Name(copy_text(t)?)),
        Node::Prop(t, p) => Ok(Node::Prop(copy_text(t)?, copy_text(p)?)),
        Node::Function(t, list) => Ok(Node::Function(
            copy_text(t)?,
            copy_list(alloc, list.as_slice())?,
        )),
        Node::CountAll => Ok(Node::CountAll),
        Node::Aggregate(a, distinct, e) => {
            Ok(Node::Aggregate(*a, *distinct, copy_boxed(alloc, e)?))
        }
        Node::Negate(e) => Ok(Node::Negate(copy_boxed(alloc, e)?)),
        Node::Not(e) => Ok(Node::Not(copy_boxed(alloc, e)?)),
        Node::Product(e, list) => Ok(Node::Product(
            copy_boxed(alloc, e)?,
            copy_pairs(alloc, list.as_slice())?,
        )),
        Node::Sum(e, list) => Ok(Node::Sum(
            copy_boxed(alloc, e)?,
            copy_pairs(alloc, list.as_slice())?,
        )),
        Node::Compare(op, a, b) => Ok(Node::Compare(
            *op,
            copy_boxed(alloc, a)?,
            copy_boxed(alloc, b)?,
        )),
        Node::IsNull(negative, e) => Ok(Node::IsNull(*negative, copy_boxed(alloc, e)?)),
        Node::Member(negative, e, list) => Ok(Node::Member(
            *negative,
            copy_boxed(alloc, e)?,
            copy_list(alloc, list.as_slice())?,
        )),
        Node::And(list) => Ok(Node::And(copy_list(alloc, list.as_slice())?)),
        Node::Or(list) => Ok(Node::Or(copy_list(alloc, list.as_slice())?)),
    }
}
