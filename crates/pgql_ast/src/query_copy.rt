//! Copies of queries.
ghost use Rattle.std.specs.Prelude.{◌≡◌, IfOk};

use crate::expr_copy::{copy_expr, copy_text};
use crate::{Element, Expr, Item, Key, Label, Match, PathStep, Query};
use column_types::{List, NoMemory, Text};
use std::alloc::Global;

/// An equal query.
// Each part that is owned where memory may run out makes the proof dearer, expressions most: so pairs, and the conditions last.
pub fn copy_query(alloc: Global, query: &Query) -> Result<Query, NoMemory>
    ensures { IfOk result (λ copy. copy ≡ query.now) }
{
    let selected = copy_selected(alloc, query)?;
    let orders = copy_orders(alloc, query)?;
    let conditions = copy_conditions(alloc, query)?;
    Ok(Query {
        distinct: query.distinct,
        items: selected.0,
        matches: selected.1,
        condition: conditions.0,
        groups: orders.0,
        having: conditions.1,
        keys: orders.1,
        limit: query.limit,
        offset: query.offset,
    })
}

/// Its items and its patterns.
fn copy_selected(alloc: Global, query: &Query) -> Result<(List<Item>, List<Match>), NoMemory>
    ensures { IfOk result (λ copy. copy ≡ (query.now.items, query.now.matches)) }
{
    let items = copy_items(alloc, query.items.as_slice())?;
    Ok((items, copy_matches(alloc, query.matches.as_slice())?))
}

/// What stands behind its `WHERE` and its `HAVING`.
fn copy_conditions(alloc: Global, query: &Query) -> Result<(Option<Expr>, Option<Expr>), NoMemory>
    ensures { IfOk result (λ copy. copy ≡ (query.now.condition, query.now.having)) }
{
    let condition = copy_optional(alloc, &query.condition)?;
    Ok((condition, copy_optional(alloc, &query.having)?))
}

/// What stands behind its `GROUP BY` and its `ORDER BY`.
fn copy_orders(alloc: Global, query: &Query) -> Result<(List<Expr>, List<Key>), NoMemory>
    ensures { IfOk result (λ copy. copy ≡ (query.now.groups, query.now.keys)) }
{
    let groups = copy_exprs(alloc, query.groups.as_slice())?;
    Ok((groups, copy_keys(alloc, query.keys.as_slice())?))
}

fn copy_items(alloc: Global, items: &[Item]) -> Result<List<Item>, NoMemory>
    ensures { IfOk result (λ copy. copy ≡ items.now) }
{
    let mut all = List::new(alloc);
    for item in items {
        all.push(copy_item(alloc, item)?)?;
    }
    Ok(all)
}

fn copy_item(alloc: Global, item: &Item) -> Result<Item, NoMemory>
    ensures { IfOk result (λ copy. copy ≡ item.now) }
{
    let alias = copy_name(&item.alias)?;
    Ok(Item {
        value: copy_expr(alloc, &item.value)?,
        alias,
    })
}

fn copy_name(name: &Option<Text>) -> Result<Option<Text>, NoMemory>
    ensures { IfOk result (λ copy. copy ≡ name.now) }
{
    match name {
        None => Ok(None),
        Some(text) => Ok(Some(copy_text(text)?)),
    }
}

fn copy_optional(alloc: Global, expr: &Option<Expr>) -> Result<Option<Expr>, NoMemory>
    ensures { IfOk result (λ copy. copy ≡ expr.now) }
{
    match expr {
        None => Ok(None),
        Some(expr) => Ok(Some(copy_expr(alloc, expr)?)),
    }
}

fn copy_exprs(alloc: Global, exprs: &[Expr]) -> Result<List<Expr>, NoMemory>
    ensures { IfOk result (λ copy. copy ≡ exprs.now) }
{
    let mut all = List::new(alloc);
    for expr in exprs {
        all.push(copy_expr(alloc, expr)?)?;
    }
    Ok(all)
}

fn copy_keys(alloc: Global, keys: &[Key]) -> Result<List<Key>, NoMemory>
    ensures { IfOk result (λ copy. copy ≡ keys.now) }
{
    let mut all = List::new(alloc);
    for key in keys {
        all.push(copy_key(alloc, key)?)?;
    }
    Ok(all)
}

fn copy_key(alloc: Global, key: &Key) -> Result<Key, NoMemory>
    ensures { IfOk result (λ copy. copy ≡ key.now) }
{
    Ok(Key {
        value: copy_expr(alloc, &key.value)?,
        descending: key.descending,
    })
}

fn copy_matches(alloc: Global, matches: &[Match]) -> Result<List<Match>, NoMemory>
    ensures { IfOk result (λ copy. copy ≡ matches.now) }
{
    let mut all = List::new(alloc);
    for pattern in matches {
        all.push(copy_match(alloc, pattern)?)?;
    }
    Ok(all)
}

fn copy_match(alloc: Global, pattern: &Match) -> Result<Match, NoMemory>
    ensures { IfOk result (λ copy. copy ≡ pattern.now) }
{
    Ok(Match {
        first: copy_element(alloc, &pattern.first)?,
        steps: copy_steps(alloc, pattern.steps.as_slice())?,
        graph: copy_graph(&pattern.graph)?,
    })
}

fn copy_steps(alloc: Global, steps: &[PathStep]) -> Result<List<PathStep>, NoMemory>
    ensures { IfOk result (λ copy. copy ≡ steps.now) }
{
    let mut all = List::new(alloc);
    for step in steps {
        all.push(copy_step(alloc, step)?)?;
    }
    Ok(all)
}

fn copy_step(alloc: Global, step: &PathStep) -> Result<PathStep, NoMemory>
    ensures { IfOk result (λ copy. copy ≡ step.now) }
{
    Ok(PathStep {
        way: step.way,
        edge: copy_element(alloc, &step.edge)?,
        vertex: copy_element(alloc, &step.vertex)?,
    })
}

fn copy_element(alloc: Global, element: &Element) -> Result<Element, NoMemory>
    ensures { IfOk result (λ copy. copy ≡ element.now) }
{
    Ok(Element {
        place: element.place,
        name: copy_name(&element.name)?,
        labels: copy_labels(alloc, element.labels.as_slice())?,
    })
}

fn copy_labels(alloc: Global, labels: &[Label]) -> Result<List<Label>, NoMemory>
    ensures { IfOk result (λ copy. copy ≡ labels.now) }
{
    let mut all = List::new(alloc);
    for label in labels {
        all.push(copy_label(label)?)?;
    }
    Ok(all)
}

fn copy_label(label: &Label) -> Result<Label, NoMemory>
    ensures { IfOk result (λ copy. copy ≡ label.now) }
{
    Ok(Label {
        name: copy_text(&label.name)?,
        place: label.place,
    })
}

fn copy_graph(graph: &Option<Label>) -> Result<Option<Label>, NoMemory>
    ensures { IfOk result (λ copy. copy ≡ graph.now) }
{
    match graph {
        None => Ok(None),
        Some(label) => Ok(Some(copy_label(label)?)),
    }
}
