//! Patterns, rule by rule.
ghost use Rattle.std.specs.Prelude.{◌≡◌, IfOk};
ghost use Rattle.pgql_grammar.specs.Clauses as spec;
ghost use Rattle.pgql_grammar.specs.QueryReader as rule;
ghost use Rattle.pgql_grammar.specs.Reading.{separated, optional};
ghost use Rattle.pgql_parse.specs.Steps.{Reads};

use crate::nodes::text_of;
use crate::rest::{Rest, Stop};
use crate::sorts::{is, is_edge};
use column_types::{List, NoMemory, Text};
use pgql_ast::{Element, Label, Match, PathStep, Way};
use pgql_grammar::{Piece, Sym};
use std::alloc::Global;

fn named(alloc: Global, x: &Piece) -> Result<Label, NoMemory>
    ensures { IfOk result (λ label. label ≡ record { name = x.now.text; place = x.now.place }) }
{
    let name = text_of(alloc, x)?;
    Ok(Label {
        name,
        place: x.place,
    })
}

#[tactic(auto, unfolding(pgql_grammar::specs::QueryReader::graph_name))]
fn graph_name(alloc: Global, rest: &mut Rest<'_>) -> Result<Label, Stop>
    ensures { Reads (rule.graph_name rest.old) result rest.new }
{
    let x = rest.expect(Sym::Name)?;
    Ok(named(alloc, x)?)
}

#[tactic(auto, unfolding(pgql_grammar::specs::QueryReader::label))]
fn label(alloc: Global, rest: &mut Rest<'_>) -> Result<Label, Stop>
    ensures { Reads (rule.label rest.old) result rest.new }
{
    let x = rest.expect_label()?;
    Ok(named(alloc, x)?)
}

#[tactic(auto, unfolding(pgql_grammar::specs::Reading::separated, pgql_grammar::specs::Reading::all, pgql_grammar::specs::Reading::turns))]
fn label_list(alloc: Global, rest: &mut Rest<'_>) -> Result<List<Label>, Stop>
    ensures { Reads (separated Sym.Bar rule.label rest.old) result rest.new }
{
    let mut found = List::new(alloc);
    found.push(label(alloc, rest)?)?;
    let most = rest.len();
    for _turn in 0..most {
        if !is(Sym::Bar, rest.peek()) {
            return Ok(found);
        }
        rest.expect(Sym::Bar)?;
        found.push(label(alloc, rest)?)?;
    }
    Ok(found)
}

#[tactic(auto, unfolding(pgql_grammar::specs::QueryReader::some_labels))]
fn some_labels(alloc: Global, rest: &mut Rest<'_>) -> Result<List<Label>, Stop>
    ensures { Reads (rule.some_labels rest.old) result rest.new }
{
    rest.expect(Sym::Colon)?;
    let found = label_list(alloc, rest)?;
    Ok(found)
}

#[tactic(auto, unfolding(pgql_grammar::specs::QueryReader::labels))]
fn labels(alloc: Global, rest: &mut Rest<'_>) -> Result<List<Label>, Stop>
    ensures { Reads (rule.labels rest.old) result rest.new }
{
    if is(Sym::Colon, rest.peek()) {
        return some_labels(alloc, rest);
    }
    Ok(List::new(alloc))
}

#[tactic(auto, unfolding(pgql_grammar::specs::QueryReader::some_name))]
fn some_name(alloc: Global, rest: &mut Rest<'_>) -> Result<Option<Text>, Stop>
    ensures { Reads (rule.some_name rest.old) result rest.new }
{
    let x = rest.expect(Sym::Name)?;
    let name = text_of(alloc, x)?;
    Ok(Some(name))
}

#[tactic(auto, unfolding(pgql_grammar::specs::QueryReader::variable))]
fn variable(alloc: Global, rest: &mut Rest<'_>) -> Result<Option<Text>, Stop>
    ensures { Reads (rule.variable rest.old) result rest.new }
{
    if is(Sym::Name, rest.peek()) {
        return some_name(alloc, rest);
    }
    Ok(None)
}

/// The name and the labels of an element that begins with the piece `x`.
#[tactic(auto, unfolding(pgql_grammar::specs::QueryReader::element))]
fn element(alloc: Global, rest: &mut Rest<'_>, x: &Piece) -> Result<Element, Stop>
    ensures { Reads (rule.element x.now rest.old) result rest.new }
{
    let name = variable(alloc, rest)?;
    let labels = labels(alloc, rest)?;
    Ok(Element {
        place: x.place,
        name,
        labels,
    })
}

#[tactic(auto, unfolding(pgql_grammar::specs::QueryReader::vertex))]
fn vertex(alloc: Global, rest: &mut Rest<'_>) -> Result<Element, Stop>
    ensures { Reads (rule.vertex rest.old) result rest.new }
{
    let x = rest.expect(Sym::Open)?;
    let found = element(alloc, rest, x)?;
    rest.expect(Sym::Close)?;
    Ok(found)
}

#[tactic(auto, unfolding(pgql_grammar::specs::QueryReader::inner))]
fn inner(alloc: Global, rest: &mut Rest<'_>, x: &Piece) -> Result<Element, Stop>
    ensures { Reads (rule.inner x.now rest.old) result rest.new }
{
    rest.expect(Sym::OpenSquare)?;
    let found = element(alloc, rest, x)?;
    rest.expect(Sym::CloseSquare)?;
    Ok(found)
}

#[tactic(auto, unfolding(pgql_grammar::specs::QueryReader::described))]
fn described(alloc: Global, rest: &mut Rest<'_>, x: &Piece) -> Result<Element, Stop>
    ensures { Reads (rule.described x.now rest.old) result rest.new }
{
    let found = inner(alloc, rest, x)?;
    rest.expect(Sym::Minus)?;
    Ok(found)
}

fn nameless(alloc: Global, x: &Piece) -> Element
    ensures { result ≡ spec.nameless x.now }
{
    Element {
        place: x.place,
        name: None,
        labels: List::new(alloc),
    }
}

/// What stands between the two ends of an edge that begins with the piece `x`.
#[tactic(auto, unfolding(pgql_grammar::specs::QueryReader::middle))]
fn middle(alloc: Global, rest: &mut Rest<'_>, x: &Piece) -> Result<Element, Stop>
    ensures { Reads (rule.middle x.now rest.old) result rest.new }
{
    if is(Sym::OpenSquare, rest.peek()) {
        return described(alloc, rest, x);
    }
    Ok(nameless(alloc, x))
}

#[tactic(auto, unfolding(pgql_grammar::specs::QueryReader::arrow, pgql_grammar::specs::QueryReader::pointed))]
fn arrow(rest: &mut Rest<'_>) -> Result<Way, Stop>
    ensures { Reads (rule.arrow rest.old) result rest.new }
{
    if !is(Sym::Greater, rest.peek()) {
        return Ok(Way::Either);
    }
    rest.expect(Sym::Greater)?;
    Ok(Way::Right)
}

/// An edge behind its first piece, a dash.
#[tactic(auto, unfolding(pgql_grammar::specs::QueryReader::forward))]
fn forward(alloc: Global, rest: &mut Rest<'_>, x: &Piece) -> Result<(Way, Element), Stop>
    ensures { Reads (rule.forward x.now rest.old) result rest.new }
{
    let found = middle(alloc, rest, x)?;
    let way = arrow(rest)?;
    Ok((way, found))
}

/// An edge behind its first piece, `<`.
#[tactic(auto, unfolding(pgql_grammar::specs::QueryReader::backward))]
fn backward(alloc: Global, rest: &mut Rest<'_>, x: &Piece) -> Result<(Way, Element), Stop>
    ensures { Reads (rule.backward x.now rest.old) result rest.new }
{
    rest.expect(Sym::Minus)?;
    let found = middle(alloc, rest, x)?;
    Ok((Way::Left, found))
}

#[tactic(auto, unfolding(pgql_grammar::specs::QueryReader::behind))]
fn behind(alloc: Global, rest: &mut Rest<'_>, x: &Piece) -> Result<(Way, Element), Stop>
    ensures { Reads (rule.behind x.now rest.old) result rest.new }
{
    if is(Sym::Minus, x.sym) {
        forward(alloc, rest, x)
    } else {
        backward(alloc, rest, x)
    }
}

/// An edge and the vertex on its right, behind the edge's first piece.
#[tactic(auto, unfolding(pgql_grammar::specs::QueryReader::step))]
fn step(alloc: Global, rest: &mut Rest<'_>, x: &Piece) -> Result<PathStep, Stop>
    ensures { Reads (rule.step x.now rest.old) result rest.new }
{
    let (way, edge) = behind(alloc, rest, x)?;
    let vertex = vertex(alloc, rest)?;
    Ok(PathStep { way, edge, vertex })
}

#[tactic(auto, unfolding(pgql_grammar::specs::QueryReader::steps, pgql_grammar::specs::Reading::all, pgql_grammar::specs::Reading::turns))]
fn steps(alloc: Global, rest: &mut Rest<'_>) -> Result<List<PathStep>, Stop>
    ensures { Reads (rule.steps rest.old) result rest.new }
{
    let mut found = List::new(alloc);
    let most = rest.len();
    for _turn in 0..most {
        if !is_edge(rest.peek()) {
            return Ok(found);
        }
        let x = rest.expect_edge()?;
        found.push(step(alloc, rest, x)?)?;
    }
    Ok(found)
}

#[tactic(auto, unfolding(pgql_grammar::specs::Reading::optional))]
fn optional_graph(alloc: Global, rest: &mut Rest<'_>) -> Result<Option<Label>, Stop>
    ensures { Reads (optional Sym.On rule.graph_name rest.old) result rest.new }
{
    if !is(Sym::On, rest.peek()) {
        return Ok(None);
    }
    rest.expect(Sym::On)?;
    let graph = graph_name(alloc, rest)?;
    Ok(Some(graph))
}

#[tactic(auto, unfolding(pgql_grammar::specs::QueryReader::pattern))]
fn pattern(alloc: Global, rest: &mut Rest<'_>) -> Result<Match, Stop>
    ensures { Reads (rule.pattern rest.old) result rest.new }
{
    rest.expect(Sym::Match)?;
    let first = vertex(alloc, rest)?;
    let steps = steps(alloc, rest)?;
    let graph = optional_graph(alloc, rest)?;
    Ok(Match {
        first,
        steps,
        graph,
    })
}

/// The patterns of a query.
#[tactic(auto, unfolding(pgql_grammar::specs::Reading::separated, pgql_grammar::specs::Reading::all, pgql_grammar::specs::Reading::turns))]
pub fn pattern_list(alloc: Global, rest: &mut Rest<'_>) -> Result<List<Match>, Stop>
    ensures { Reads (separated Sym.Comma rule.pattern rest.old) result rest.new }
{
    let mut found = List::new(alloc);
    found.push(pattern(alloc, rest)?)?;
    let most = rest.len();
    for _turn in 0..most {
        if !is(Sym::Comma, rest.peek()) {
            return Ok(found);
        }
        rest.expect(Sym::Comma)?;
        found.push(pattern(alloc, rest)?)?;
    }
    Ok(found)
}
