//! The rules that have no expression inside.
ghost use Rattle.std.specs.Prelude.{◌≡◌};
ghost use Rattle.pgql_grammar.specs.ExpressionReader as rule;
ghost use Rattle.pgql_grammar.specs.Reading.{choose};
ghost use Rattle.pgql_grammar.specs.Sorts as spec;
ghost use Rattle.pgql_parse.specs.Steps.{Reads};

use crate::nodes::{at, text_of};
use crate::rest::{Rest, Stop};
use crate::sorts::{is, is_text, is_truth};
use pgql_ast::{Expr, Node};
use pgql_grammar::{Piece, Sym};
use sqlite_items::Boxed;
use std::alloc::Global;

#[tactic(auto, unfolding(pgql_grammar::specs::ExpressionReader::number))]
pub fn number(rest: &mut Rest<'_>) -> Result<Expr, Stop>
    ensures { Reads (rule.number rest.old) result rest.new }
{
    let x = rest.expect(Sym::Number)?;
    Ok(at(x.place, Node::Number(x.number)))
}

#[tactic(auto, unfolding(pgql_grammar::specs::ExpressionReader::text))]
fn text(alloc: Global, rest: &mut Rest<'_>) -> Result<Expr, Stop>
    ensures { Reads (rule.text rest.old) result rest.new }
{
    let x = rest.expect_text()?;
    let chars = text_of(alloc, x)?;
    Ok(at(x.place, Node::Chars(chars)))
}

#[tactic(auto, unfolding(pgql_grammar::specs::ExpressionReader::truth))]
fn truth(rest: &mut Rest<'_>) -> Result<Expr, Stop>
    ensures { Reads (rule.truth rest.old) result rest.new }
{
    let x = rest.expect_truth()?;
    Ok(at(x.place, Node::Truth(is(Sym::True, x.sym))))
}

#[tactic(auto, unfolding(pgql_grammar::specs::ExpressionReader::null))]
fn null(rest: &mut Rest<'_>) -> Result<Expr, Stop>
    ensures { Reads (rule.null rest.old) result rest.new }
{
    let x = rest.expect(Sym::Null)?;
    Ok(at(x.place, Node::Null))
}

#[tactic(auto, unfolding(pgql_grammar::specs::ExpressionReader::date))]
fn date(rest: &mut Rest<'_>) -> Result<Expr, Stop>
    ensures { Reads (rule.date rest.old) result rest.new }
{
    let x = rest.expect(Sym::Date)?;
    let day = rest.expect(Sym::Day)?;
    Ok(at(x.place, Node::Date(day.day)))
}

/// `TRUE`, `FALSE`, `NULL` or a date.
fn fixed(rest: &mut Rest<'_>) -> Result<Expr, Stop>
    ensures { Reads (choose spec.is_truth rule.truth (choose (spec.is Sym.Null) rule.null rule.date) rest.old) result rest.new }
{
    if is_truth(rest.peek()) {
        return truth(rest);
    }
    if is(Sym::Null, rest.peek()) {
        return null(rest);
    }
    date(rest)
}

#[tactic(auto, unfolding(pgql_grammar::specs::ExpressionReader::literal))]
pub fn literal(alloc: Global, rest: &mut Rest<'_>) -> Result<Expr, Stop>
    ensures { Reads (rule.literal rest.old) result rest.new }
{
    if is(Sym::Number, rest.peek()) {
        return number(rest);
    }
    if is_text(rest.peek()) {
        return text(alloc, rest);
    }
    fixed(rest)
}

#[tactic(auto, unfolding(pgql_grammar::specs::ExpressionReader::property))]
pub fn property(alloc: Global, rest: &mut Rest<'_>, x: &Piece) -> Result<Expr, Stop>
    ensures { Reads (rule.property x.now rest.old) result rest.new }
{
    rest.expect(Sym::Dot)?;
    let label = rest.expect_label()?;
    let name = text_of(alloc, x)?;
    Ok(at(x.place, Node::Prop(name, text_of(alloc, label)?)))
}

#[tactic(auto, unfolding(pgql_grammar::specs::ExpressionReader::count_all))]
pub fn count_all(rest: &mut Rest<'_>, x: &Piece) -> Result<Expr, Stop>
    ensures { Reads (rule.count_all x.now rest.old) result rest.new }
{
    rest.expect(Sym::Star)?;
    rest.expect(Sym::Close)?;
    Ok(at(x.place, Node::CountAll))
}

#[tactic(auto, unfolding(pgql_grammar::specs::ExpressionReader::null_test))]
pub fn null_test(alloc: Global, rest: &mut Rest<'_>, left: Expr) -> Result<Expr, Stop>
    ensures { Reads (rule.null_test left rest.old) result rest.new }
{
    rest.expect(Sym::Is)?;
    let negative = rest.maybe(Sym::Not)?;
    rest.expect(Sym::Null)?;
    let place = left.place;
    Ok(at(place, Node::IsNull(negative, Boxed::new(alloc, left)?)))
}
