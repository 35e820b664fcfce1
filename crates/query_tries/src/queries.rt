//! Queries in one line, as `select n.age@7 as age; match (n:Person@30)@28 ->[e]@37 (m)@44 on g@51; where ..; limit 3`.
//!
//! The parts have `; ` between them: `select` with the items, a `match` for each path, and, where they are there, `where`, `group`,
//! `having`, `order` with the keys, `limit` and `offset`. Each label, pattern and expression has its place behind `@`.

use crate::trees::show_expr;
use column_types::Text;
use pgql_ast::{Element, Expr, Item, Key, Label, Match, PathStep, Query, Way};
use std::alloc::{AllocError, Global};

/// A query.
pub fn query_shown(alloc: Global, query: &Query) -> Result<String, AllocError> {
    let mut out = String::new(alloc);
    show_selected(&mut out, query)?;
    show_kept(&mut out, query)?;
    show_cut(&mut out, "limit", query.limit)?;
    show_cut(&mut out, "offset", query.offset)?;
    Ok(out)
}

/// What is selected, and from where.
fn show_selected(out: &mut String, query: &Query) -> Result<(), AllocError> {
    out.push_str(if query.distinct {
        "select distinct"
    } else {
        "select"
    })?;
    show_items(out, query.items.as_slice())?;
    show_matches(out, query.matches.as_slice())
}

/// Which rows are kept, and in which order.
fn show_kept(out: &mut String, query: &Query) -> Result<(), AllocError> {
    show_condition(out, "where", query.condition.as_ref())?;
    show_groups(out, query.groups.as_slice())?;
    show_condition(out, "having", query.having.as_ref())?;
    show_keys(out, query.keys.as_slice())
}

fn show_items(out: &mut String, items: &[Item]) -> Result<(), AllocError> {
    for (number, item) in items.iter().enumerate() {
        out.push_str(if number == 0 { " " } else { ", " })?;
        show_expr(out, &item.value)?;
        show_alias(out, item.alias.as_ref())?;
    }
    Ok(())
}

fn show_alias(out: &mut String, alias: Option<&Text>) -> Result<(), AllocError> {
    match alias {
        Some(name) => write!(out, " as {}", name.as_str()),
        None => Ok(()),
    }
}

fn show_condition(
    out: &mut String,
    word: &str,
    condition: Option<&Expr>,
) -> Result<(), AllocError> {
    match condition {
        Some(expr) => {
            write!(out, "; {word} ")?;
            show_expr(out, expr)
        }
        None => Ok(()),
    }
}

fn show_groups(out: &mut String, groups: &[Expr]) -> Result<(), AllocError> {
    for (number, expr) in groups.iter().enumerate() {
        out.push_str(if number == 0 { "; group " } else { ", " })?;
        show_expr(out, expr)?;
    }
    Ok(())
}

fn show_keys(out: &mut String, keys: &[Key]) -> Result<(), AllocError> {
    for (number, key) in keys.iter().enumerate() {
        out.push_str(if number == 0 { "; order " } else { ", " })?;
        show_expr(out, &key.value)?;
        out.push_str(if key.descending { " desc" } else { "" })?;
    }
    Ok(())
}

fn show_cut(out: &mut String, word: &str, number: Option<i64>) -> Result<(), AllocError> {
    match number {
        Some(number) => write!(out, "; {word} {number}"),
        None => Ok(()),
    }
}

fn show_matches(out: &mut String, matches: &[Match]) -> Result<(), AllocError> {
    for pattern in matches {
        out.push_str("; match ")?;
        show_match(out, pattern)?;
    }
    Ok(())
}

fn show_match(out: &mut String, pattern: &Match) -> Result<(), AllocError> {
    show_element(out, &pattern.first, "(", ")")?;
    for step in pattern.steps.as_slice() {
        show_step(out, step)?;
    }
    match &pattern.graph {
        Some(graph) => write!(out, " on {}@{}", graph.name.as_str(), graph.place),
        None => Ok(()),
    }
}

fn show_step(out: &mut String, step: &PathStep) -> Result<(), AllocError> {
    out.push_str(match step.way {
        Way::Right => " ->",
        Way::Left => " <-",
        Way::Either => " -",
    })?;
    show_element(out, &step.edge, "[", "]")?;
    show_element(out, &step.vertex, " (", ")")
}

fn show_element(
    out: &mut String,
    element: &Element,
    open: &str,
    close: &str,
) -> Result<(), AllocError> {
    out.push_str(open)?;
    out.push_str(element.name.as_ref().map_or("", |name| name.as_str()))?;
    show_labels(out, element.labels.as_slice())?;
    write!(out, "{close}@{}", element.place)
}

fn show_labels(out: &mut String, labels: &[Label]) -> Result<(), AllocError> {
    for (number, label) in labels.iter().enumerate() {
        out.push_str(if number == 0 { ":" } else { "|" })?;
        write!(out, "{}@{}", label.name.as_str(), label.place)?;
    }
    Ok(())
}
