//! Clauses and whole queries, rule by rule.
ghost use Rattle.std.specs.Prelude.{◌≡◌};
ghost use Rattle.pgql_grammar.specs.ExpressionReader as inside;
ghost use Rattle.pgql_grammar.specs.QueryReader as rule;
ghost use Rattle.pgql_grammar.specs.Reading.{separated, optional};
ghost use Rattle.pgql_parse.specs.Steps.{Reads};

use crate::expr::expr;
use crate::nodes::text_of;
use crate::patterns::pattern_list;
use crate::rest::{Rest, Stop};
use crate::sorts::is;
use column_types::{List, Text};
use pgql_ast::{Expr, Item, Key, Query};
use pgql_grammar::{Level, Sym};
use std::alloc::Global;

#[tactic(auto, unfolding(pgql_grammar::specs::QueryReader::amount))]
fn amount(rest: &mut Rest<'_>) -> Result<i64, Stop>
    ensures { Reads (rule.amount rest.old) result rest.new }
{
    let x = rest.expect(Sym::Number)?;
    Ok(x.number)
}

/// The number behind a keyword, if that is next.
#[tactic(auto, unfolding(pgql_grammar::specs::Reading::optional))]
fn optional_amount(rest: &mut Rest<'_>, kind: Sym) -> Result<Option<i64>, Stop>
    ensures { Reads (optional kind rule.amount rest.old) result rest.new }
{
    if !is(kind, rest.peek()) {
        return Ok(None);
    }
    rest.expect(kind)?;
    let found = amount(rest)?;
    Ok(Some(found))
}

#[tactic(auto, unfolding(pgql_grammar::specs::QueryReader::limit_first))]
fn limit_first(rest: &mut Rest<'_>) -> Result<(Option<i64>, Option<i64>), Stop>
    ensures { Reads (rule.limit_first rest.old) result rest.new }
{
    rest.expect(Sym::Limit)?;
    let limit = amount(rest)?;
    let offset = optional_amount(rest, Sym::Offset)?;
    Ok((Some(limit), offset))
}

#[tactic(auto, unfolding(pgql_grammar::specs::QueryReader::offset_first))]
fn offset_first(rest: &mut Rest<'_>) -> Result<(Option<i64>, Option<i64>), Stop>
    ensures { Reads (rule.offset_first rest.old) result rest.new }
{
    rest.expect(Sym::Offset)?;
    let offset = amount(rest)?;
    let limit = optional_amount(rest, Sym::Limit)?;
    Ok((limit, Some(offset)))
}

/// The limit and the offset.
#[tactic(auto, unfolding(pgql_grammar::specs::QueryReader::cut))]
fn cut(rest: &mut Rest<'_>) -> Result<(Option<i64>, Option<i64>), Stop>
    ensures { Reads (rule.cut rest.old) result rest.new }
{
    if is(Sym::Limit, rest.peek()) {
        return limit_first(rest);
    }
    if is(Sym::Offset, rest.peek()) {
        return offset_first(rest);
    }
    Ok((None, None))
}

#[tactic(auto, unfolding(pgql_grammar::specs::QueryReader::name))]
fn name(alloc: Global, rest: &mut Rest<'_>) -> Result<Text, Stop>
    ensures { Reads (rule.name rest.old) result rest.new }
{
    let x = rest.expect(Sym::Name)?;
    Ok(text_of(alloc, x)?)
}

#[tactic(auto, unfolding(pgql_grammar::specs::Reading::optional))]
fn optional_alias(alloc: Global, rest: &mut Rest<'_>) -> Result<Option<Text>, Stop>
    ensures { Reads (optional Sym.As rule.name rest.old) result rest.new }
{
    if !is(Sym::As, rest.peek()) {
        return Ok(None);
    }
    rest.expect(Sym::As)?;
    let alias = name(alloc, rest)?;
    Ok(Some(alias))
}

#[tactic(auto, unfolding(pgql_grammar::specs::QueryReader::item))]
fn item(alloc: Global, rest: &mut Rest<'_>, depth: usize) -> Result<Item, Stop>
    ensures { Reads (rule.item (inside.nested depth Level.Whole) rest.old) result rest.new }
{
    let value = expr(alloc, rest, depth, Level::Whole)?;
    let alias = optional_alias(alloc, rest)?;
    Ok(Item { value, alias })
}

#[tactic(auto, unfolding(pgql_grammar::specs::Reading::separated, pgql_grammar::specs::Reading::all, pgql_grammar::specs::Reading::turns))]
fn item_list(alloc: Global, rest: &mut Rest<'_>, depth: usize) -> Result<List<Item>, Stop>
    ensures { Reads (separated Sym.Comma (rule.item (inside.nested depth Level.Whole)) rest.old) result rest.new }
{
    let mut found = List::new(alloc);
    found.push(item(alloc, rest, depth)?)?;
    let most = rest.len();
    for _turn in 0..most {
        if !is(Sym::Comma, rest.peek()) {
            return Ok(found);
        }
        rest.expect(Sym::Comma)?;
        found.push(item(alloc, rest, depth)?)?;
    }
    Ok(found)
}

/// The expression behind a keyword, if that is next.
#[tactic(auto, unfolding(pgql_grammar::specs::Reading::optional))]
fn optional_expr(
    alloc: Global,
    rest: &mut Rest<'_>,
    depth: usize,
    kind: Sym,
) -> Result<Option<Expr>, Stop>
    ensures { Reads (optional kind (inside.nested depth Level.Whole) rest.old) result rest.new }
{
    if !is(kind, rest.peek()) {
        return Ok(None);
    }
    rest.expect(kind)?;
    let found = expr(alloc, rest, depth, Level::Whole)?;
    Ok(Some(found))
}

#[tactic(auto, unfolding(pgql_grammar::specs::QueryReader::some_groups))]
fn some_groups(alloc: Global, rest: &mut Rest<'_>, depth: usize) -> Result<List<Expr>, Stop>
    ensures { Reads (rule.some_groups (inside.nested depth Level.Whole) rest.old) result rest.new }
{
    rest.expect(Sym::Group)?;
    rest.expect(Sym::By)?;
    let found = group_list(alloc, rest, depth)?;
    Ok(found)
}

#[tactic(auto, unfolding(pgql_grammar::specs::Reading::separated, pgql_grammar::specs::Reading::all, pgql_grammar::specs::Reading::turns))]
fn group_list(alloc: Global, rest: &mut Rest<'_>, depth: usize) -> Result<List<Expr>, Stop>
    ensures { Reads (separated Sym.Comma (inside.nested depth Level.Whole) rest.old) result rest.new }
{
    let mut found = List::new(alloc);
    found.push(expr(alloc, rest, depth, Level::Whole)?)?;
    let most = rest.len();
    for _turn in 0..most {
        if !is(Sym::Comma, rest.peek()) {
            return Ok(found);
        }
        rest.expect(Sym::Comma)?;
        found.push(expr(alloc, rest, depth, Level::Whole)?)?;
    }
    Ok(found)
}

#[tactic(auto, unfolding(pgql_grammar::specs::QueryReader::groups))]
fn groups(alloc: Global, rest: &mut Rest<'_>, depth: usize) -> Result<List<Expr>, Stop>
    ensures { Reads (rule.groups (inside.nested depth Level.Whole) rest.old) result rest.new }
{
    if is(Sym::Group, rest.peek()) {
        return some_groups(alloc, rest, depth);
    }
    Ok(List::new(alloc))
}

/// Whether a key descends.
#[tactic(auto, unfolding(pgql_grammar::specs::QueryReader::direction))]
fn direction(rest: &mut Rest<'_>) -> Result<bool, Stop>
    ensures { Reads (rule.direction rest.old) result rest.new }
{
    if !is(Sym::Asc, rest.peek()) {
        return rest.maybe(Sym::Desc);
    }
    rest.expect(Sym::Asc)?;
    Ok(false)
}

#[tactic(auto, unfolding(pgql_grammar::specs::QueryReader::key))]
fn key(alloc: Global, rest: &mut Rest<'_>, depth: usize) -> Result<Key, Stop>
    ensures { Reads (rule.key (inside.nested depth Level.Whole) rest.old) result rest.new }
{
    let value = expr(alloc, rest, depth, Level::Whole)?;
    let descending = direction(rest)?;
    Ok(Key { value, descending })
}

#[tactic(auto, unfolding(pgql_grammar::specs::Reading::separated, pgql_grammar::specs::Reading::all, pgql_grammar::specs::Reading::turns))]
fn key_list(alloc: Global, rest: &mut Rest<'_>, depth: usize) -> Result<List<Key>, Stop>
    ensures { Reads (separated Sym.Comma (rule.key (inside.nested depth Level.Whole)) rest.old) result rest.new }
{
    let mut found = List::new(alloc);
    found.push(key(alloc, rest, depth)?)?;
    let most = rest.len();
    for _turn in 0..most {
        if !is(Sym::Comma, rest.peek()) {
            return Ok(found);
        }
        rest.expect(Sym::Comma)?;
        found.push(key(alloc, rest, depth)?)?;
    }
    Ok(found)
}

#[tactic(auto, unfolding(pgql_grammar::specs::QueryReader::some_keys))]
fn some_keys(alloc: Global, rest: &mut Rest<'_>, depth: usize) -> Result<List<Key>, Stop>
    ensures { Reads (rule.some_keys (inside.nested depth Level.Whole) rest.old) result rest.new }
{
    rest.expect(Sym::Order)?;
    rest.expect(Sym::By)?;
    let found = key_list(alloc, rest, depth)?;
    Ok(found)
}

#[tactic(auto, unfolding(pgql_grammar::specs::QueryReader::keys))]
fn keys(alloc: Global, rest: &mut Rest<'_>, depth: usize) -> Result<List<Key>, Stop>
    ensures { Reads (rule.keys (inside.nested depth Level.Whole) rest.old) result rest.new }
{
    if is(Sym::Order, rest.peek()) {
        return some_keys(alloc, rest, depth);
    }
    Ok(List::new(alloc))
}

/// A query whose expressions nest at most so deep.
#[tactic(auto, unfolding(pgql_grammar::specs::QueryReader::query))]
pub fn query(alloc: Global, rest: &mut Rest<'_>, depth: usize) -> Result<Query, Stop>
    ensures { Reads (rule.query (inside.nested depth Level.Whole) rest.old) result rest.new }
{
    rest.expect(Sym::Select)?;
    let distinct = rest.maybe(Sym::Distinct)?;
    let items = item_list(alloc, rest, depth)?;
    rest.expect(Sym::From)?;
    let matches = pattern_list(alloc, rest)?;
    let condition = optional_expr(alloc, rest, depth, Sym::Where)?;
    let groups = groups(alloc, rest, depth)?;
    let having = optional_expr(alloc, rest, depth, Sym::Having)?;
    let keys = keys(alloc, rest, depth)?;
    let (limit, offset) = cut(rest)?;
    Ok(Query {
        distinct,
        items,
        matches,
        condition,
        groups,
        having,
        keys,
        limit,
        offset,
    })
}
