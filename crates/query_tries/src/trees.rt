//! Expressions in one line: the form, `@`, the place, and in brackets the parts, as `Sum@7(1@7, Add a.x@11)`.
//!
//! | form | how it is written |
//! |---|---|
//! | literals | `7`, `'a text'`, `TRUE`, `NULL`, `DATE 19782` with the day counted from 1970-01-01 |
//! | a variable, a property, a function | `n`, `n.age`, `id(..)` |
//! | aggregates | `COUNT(*)`, `MIN(..)`, `SUM DISTINCT(..)` |
//! | chains | `Sum(..)`, `Product(..)`, each operand but the first behind its operator |
//! | the others | their names, as `Less(..)`, `IsNotNull(..)`, `NotIn(..)` with the operand before the list, `And(..)` |

use pgql_ast::{Aggregate, Expr, Node, Op};
use std::alloc::AllocError;

/// An expression.
#[cycle(show)]
pub fn show_expr(out: &mut String, expr: &Expr) -> Result<(), AllocError> {
    show_form(out, &expr.node)?;
    write!(out, "@{}", expr.place)?;
    show_parts(out, &expr.node)
}

/// What a node is made of. Each function of this cycle takes one tree or list, whose size shows that the cycle ends.
#[cycle(show)]
fn show_parts(out: &mut String, node: &Node) -> Result<(), AllocError> {
    match node {
        Node::Function(_, list) | Node::And(list) | Node::Or(list) => {
            show_list(out, list.as_slice())
        }
        Node::Negate(x) | Node::Not(x) | Node::IsNull(_, x) | Node::Aggregate(_, _, x) => {
            show_first(out, x.get())?;
            out.push_str(")")
        }
        Node::Product(first, more) | Node::Sum(first, more) => {
            show_first(out, first.get())?;
            show_operands(out, more.as_slice())
        }
        Node::Compare(_, left, right) => {
            show_first(out, left.get())?;
            show_last(out, right.get())
        }
        Node::Member(_, x, list) => {
            show_first(out, x.get())?;
            show_others(out, list.as_slice())
        }
        _ => Ok(()),
    }
}

#[cycle(show)]
fn show_first(out: &mut String, x: &Expr) -> Result<(), AllocError> {
    out.push_str("(")?;
    show_expr(out, x)
}

#[cycle(show)]
fn show_last(out: &mut String, x: &Expr) -> Result<(), AllocError> {
    out.push_str(", ")?;
    show_expr(out, x)?;
    out.push_str(")")
}

#[cycle(show)]
fn show_others(out: &mut String, list: &[Expr]) -> Result<(), AllocError> {
    for x in list {
        out.push_str(", ")?;
        show_expr(out, x)?;
    }
    out.push_str(")")
}

#[cycle(show)]
fn show_operands(out: &mut String, more: &[(Op, Expr)]) -> Result<(), AllocError> {
    for pair in more {
        write!(out, ", {:?} ", pair.0)?;
        show_expr(out, &pair.1)?;
    }
    out.push_str(")")
}

#[cycle(show)]
fn show_list(out: &mut String, list: &[Expr]) -> Result<(), AllocError> {
    out.push_str("(")?;
    for (number, x) in list.iter().enumerate() {
        out.push_str(if number == 0 { "" } else { ", " })?;
        show_expr(out, x)?;
    }
    out.push_str(")")
}

/// The form of a node.
fn show_form(out: &mut String, node: &Node) -> Result<(), AllocError> {
    match node {
        Node::Number(n) => write!(out, "{n}"),
        Node::Chars(text) => write!(out, "'{}'", text.as_str()),
        Node::Date(day) => write!(out, "DATE {day}"),
        Node::Name(name) | Node::Function(name, _) => out.push_str(name.as_str()),
        Node::Prop(variable, name) => write!(out, "{}.{}", variable.as_str(), name.as_str()),
        Node::Compare(op, _, _) => write!(out, "{op:?}"),
        Node::Aggregate(aggregate, distinct, _) => out.push_str(aggregate_word(
            *aggregate, *distinct,
        )),
        _ => out.push_str(form_word(node)),
    }
}

fn aggregate_word(aggregate: Aggregate, distinct: bool) -> &'static str {
    match (aggregate, distinct) {
        (Aggregate::Count, false) => "COUNT",
        (Aggregate::Min, false) => "MIN",
        (Aggregate::Max, false) => "MAX",
        (Aggregate::Sum, false) => "SUM",
        (Aggregate::Count, true) => "COUNT DISTINCT",
        (Aggregate::Min, true) => "MIN DISTINCT",
        (Aggregate::Max, true) => "MAX DISTINCT",
        (Aggregate::Sum, true) => "SUM DISTINCT",
    }
}

/// The word of a form that has no text, number or operator.
fn form_word(node: &Node) -> &'static str {
    match node {
        Node::Truth(true) => "TRUE",
        Node::Truth(false) => "FALSE",
        Node::Null => "NULL",
        Node::CountAll => "COUNT(*)",
        Node::Negate(_) => "Negate",
        Node::Not(_) => "Not",
        Node::Product(_, _) => "Product",
        Node::Sum(_, _) => "Sum",
        Node::IsNull(false, _) => "IsNull",
        Node::IsNull(true, _) => "IsNotNull",
        Node::Member(false, _, _) => "In",
        Node::Member(true, _, _) => "NotIn",
        Node::And(_) => "And",
        Node::Or(_) => "Or",
        _ => "?",
    }
}
