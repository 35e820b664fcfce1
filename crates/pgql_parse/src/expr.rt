//! Expressions, rule by rule. The rules take the reader of the expressions inside as a parameter, so that each is proved by itself.
ghost use Rattle.std.specs.Prelude.{◌≡◌, ℕ, List, [], ◌∷◌};
ghost use Rattle.pgql_grammar.specs.Reading.{all, choose, pure};
ghost use Rattle.pgql_grammar.specs.Sorts as spec;
ghost use Rattle.pgql_grammar.specs.ExpressionReader as rule;
ghost use Rattle.pgql_parse.specs.Steps.{Reads, Nests};

use crate::atoms::{count_all, literal, null_test, number, property};
use crate::nodes::{and_of, at, or_of, product_of, small_text_of, sum_of, text_of};
use crate::rest::{Rest, Stop};
use crate::sorts::{
    aggregate_of, is, is_addition, is_aggregate, is_comparison, is_literal, is_member,
    is_multiplication, op_of,
};
use pgql_ast::{Expr, Node, Op};
use pgql_grammar::{Level, Piece, Sym};
use sqlite_items::{Boxed, Items};
use std::alloc::Global;

#[derive(Clone, Copy)]
struct Grammar<F> {
    alloc: Global,
    depth: usize,
    expr: F,
}

impl<F: Fn(Global, &mut Rest<'_>, usize, Level) -> Result<Expr, Stop>> Grammar<F> {
    fn inner(&self, rest: &mut Rest<'_>, level: Level) -> Result<Expr, Stop>
        requires { Nests self.now.depth (F.pre self.now.expr) (F.post self.now.expr) }
        ensures { Reads (rule.nested self.now.depth level rest.old) result rest.new }
    {
        (self.expr)(self.alloc, rest, self.depth, level)
    }

    #[tactic(auto, unfolding(pgql_grammar::specs::ExpressionReader::bracketed))]
    fn bracketed(&self, rest: &mut Rest<'_>) -> Result<Expr, Stop>
        requires { Nests self.now.depth (F.pre self.now.expr) (F.post self.now.expr) }
        ensures { Reads (rule.bracketed (rule.nested self.now.depth) rest.old) result rest.new }
    {
        rest.expect(Sym::Open)?;
        let e = self.inner(rest, Level::Whole)?;
        rest.expect(Sym::Close)?;
        Ok(e)
    }

    #[tactic(auto, unfolding(pgql_grammar::specs::ExpressionReader::comma_list, pgql_grammar::specs::Reading::separated, pgql_grammar::specs::Reading::all, pgql_grammar::specs::Reading::turns))]
    fn comma_list(&self, rest: &mut Rest<'_>) -> Result<Items<Expr>, Stop>
        requires { Nests self.now.depth (F.pre self.now.expr) (F.post self.now.expr) }
        ensures { Reads (rule.comma_list (rule.nested self.now.depth) rest.old) result rest.new }
    {
        let mut found = Items::new(self.alloc);
        found.push(self.inner(rest, Level::Whole)?)?;
        let most = rest.len();
        for _turn in 0..most {
            if !is(Sym::Comma, rest.peek()) {
                return Ok(found);
            }
            rest.expect(Sym::Comma)?;
            found.push(self.inner(rest, Level::Whole)?)?;
        }
        Ok(found)
    }

    #[tactic(auto, unfolding(pgql_grammar::specs::ExpressionReader::values_of))]
    fn values_of(&self, rest: &mut Rest<'_>, x: &Piece) -> Result<Expr, Stop>
        requires { Nests self.now.depth (F.pre self.now.expr) (F.post self.now.expr) }
        ensures { Reads (rule.values_of (rule.nested self.now.depth) x.now rest.old) result rest.new }
    {
        let distinct = rest.maybe(Sym::Distinct)?;
        let e = self.inner(rest, Level::Whole)?;
        rest.expect(Sym::Close)?;
        let e = Boxed::new(self.alloc, e)?;
        Ok(at(x.place, Node::Aggregate(aggregate_of(x.sym), distinct, e)))
    }

    #[tactic(auto, unfolding(pgql_grammar::specs::ExpressionReader::arguments))]
    fn arguments(&self, rest: &mut Rest<'_>) -> Result<Items<Expr>, Stop>
        requires { Nests self.now.depth (F.pre self.now.expr) (F.post self.now.expr) }
        ensures { Reads (rule.arguments (rule.nested self.now.depth) rest.old) result rest.new }
    {
        if is(Sym::Close, rest.peek()) {
            return Ok(Items::new(self.alloc));
        }
        self.comma_list(rest)
    }

    #[tactic(auto, unfolding(pgql_grammar::specs::ExpressionReader::call))]
    fn call(&self, rest: &mut Rest<'_>, x: &Piece) -> Result<Expr, Stop>
        requires { Nests self.now.depth (F.pre self.now.expr) (F.post self.now.expr) }
        ensures { Reads (rule.call (rule.nested self.now.depth) x.now rest.old) result rest.new }
    {
        rest.expect(Sym::Open)?;
        let found = self.arguments(rest)?;
        rest.expect(Sym::Close)?;
        let name = small_text_of(self.alloc, x)?;
        Ok(at(x.place, Node::Function(name, found)))
    }

    #[tactic(auto, unfolding(pgql_grammar::specs::ExpressionReader::after_name))]
    fn after_name(&self, rest: &mut Rest<'_>, x: &Piece) -> Result<Expr, Stop>
        requires { Nests self.now.depth (F.pre self.now.expr) (F.post self.now.expr) }
        ensures { Reads (rule.after_name (rule.nested self.now.depth) x.now rest.old) result rest.new }
    {
        if is(Sym::Dot, rest.peek()) {
            return property(self.alloc, rest, x);
        }
        if is(Sym::Open, rest.peek()) {
            return self.call(rest, x);
        }
        let name = text_of(self.alloc, x)?;
        Ok(at(x.place, Node::Name(name)))
    }

    #[tactic(auto, unfolding(pgql_grammar::specs::ExpressionReader::named))]
    fn named(&self, rest: &mut Rest<'_>) -> Result<Expr, Stop>
        requires { Nests self.now.depth (F.pre self.now.expr) (F.post self.now.expr) }
        ensures { Reads (rule.named (rule.nested self.now.depth) rest.old) result rest.new }
    {
        let x = rest.expect(Sym::Name)?;
        self.after_name(rest, x)
    }

    #[tactic(auto, unfolding(pgql_grammar::specs::ExpressionReader::after_aggregate))]
    fn after_aggregate(&self, rest: &mut Rest<'_>, x: &Piece) -> Result<Expr, Stop>
        requires { Nests self.now.depth (F.pre self.now.expr) (F.post self.now.expr) }
        ensures { Reads (rule.after_aggregate (rule.nested self.now.depth) x.now rest.old) result rest.new }
    {
        if is(Sym::Count, x.sym) && is(Sym::Star, rest.peek()) {
            return count_all(rest, x);
        }
        self.values_of(rest, x)
    }

    #[tactic(auto, unfolding(pgql_grammar::specs::ExpressionReader::aggregate))]
    fn aggregate(&self, rest: &mut Rest<'_>) -> Result<Expr, Stop>
        requires { Nests self.now.depth (F.pre self.now.expr) (F.post self.now.expr) }
        ensures { Reads (rule.aggregate (rule.nested self.now.depth) rest.old) result rest.new }
    {
        let x = rest.expect_aggregate()?;
        rest.expect(Sym::Open)?;
        self.after_aggregate(rest, x)
    }

    /// An aggregate or an expression in brackets.
    fn enclosed(&self, rest: &mut Rest<'_>) -> Result<Expr, Stop>
        requires { Nests self.now.depth (F.pre self.now.expr) (F.post self.now.expr) }
        ensures { Reads (choose spec.is_aggregate (rule.aggregate (rule.nested self.now.depth)) (rule.bracketed (rule.nested self.now.depth)) rest.old) result rest.new }
    {
        if is_aggregate(rest.peek()) {
            return self.aggregate(rest);
        }
        self.bracketed(rest)
    }

    #[tactic(auto, unfolding(pgql_grammar::specs::ExpressionReader::prim))]
    fn prim(&self, rest: &mut Rest<'_>) -> Result<Expr, Stop>
        requires { Nests self.now.depth (F.pre self.now.expr) (F.post self.now.expr) }
        ensures { Reads (rule.prim (rule.nested self.now.depth) rest.old) result rest.new }
    {
        if is_literal(rest.peek()) {
            return literal(self.alloc, rest);
        }
        if is(Sym::Name, rest.peek()) {
            return self.named(rest);
        }
        self.enclosed(rest)
    }

    #[tactic(auto, unfolding(pgql_grammar::specs::ExpressionReader::negated))]
    fn negated(&self, rest: &mut Rest<'_>) -> Result<Expr, Stop>
        requires { Nests self.now.depth (F.pre self.now.expr) (F.post self.now.expr) }
        ensures { Reads (rule.negated (rule.nested self.now.depth) rest.old) result rest.new }
    {
        let x = rest.expect(Sym::Minus)?;
        let e = self.inner(rest, Level::Minus)?;
        let e = Boxed::new(self.alloc, e)?;
        Ok(at(x.place, Node::Negate(e)))
    }

    #[tactic(auto, unfolding(pgql_grammar::specs::ExpressionReader::minus))]
    fn minus(&self, rest: &mut Rest<'_>) -> Result<Expr, Stop>
        requires { Nests self.now.depth (F.pre self.now.expr) (F.post self.now.expr) }
        ensures { Reads (rule.minus (rule.nested self.now.depth) rest.old) result rest.new }
    {
        if is(Sym::Minus, rest.peek()) {
            self.negated(rest)
        } else {
            self.prim(rest)
        }
    }

    #[tactic(auto, unfolding(pgql_grammar::specs::ExpressionReader::factor))]
    fn factor(&self, rest: &mut Rest<'_>, x: &Piece) -> Result<(Op, Expr), Stop>
        requires { Nests self.now.depth (F.pre self.now.expr) (F.post self.now.expr) }
        ensures { Reads (rule.factor (rule.nested self.now.depth) x.now rest.old) result rest.new }
    {
        let e = self.minus(rest)?;
        Ok((op_of(x.sym), e))
    }

    #[tactic(auto, unfolding(pgql_grammar::specs::Reading::all, pgql_grammar::specs::Reading::turns))]
    fn factors(&self, rest: &mut Rest<'_>) -> Result<Items<(Op, Expr)>, Stop>
        requires { Nests self.now.depth (F.pre self.now.expr) (F.post self.now.expr) }
        ensures { Reads (all spec.is_multiplication (rule.factor (rule.nested self.now.depth)) rest.old) result rest.new }
    {
        let mut found = Items::new(self.alloc);
        let most = rest.len();
        for _turn in 0..most {
            if !is_multiplication(rest.peek()) {
                return Ok(found);
            }
            let x = rest.expect_multiplication()?;
            found.push(self.factor(rest, x)?)?;
        }
        Ok(found)
    }

    #[tactic(auto, unfolding(pgql_grammar::specs::ExpressionReader::product))]
    fn product(&self, rest: &mut Rest<'_>) -> Result<Expr, Stop>
        requires { Nests self.now.depth (F.pre self.now.expr) (F.post self.now.expr) }
        ensures { Reads (rule.product (rule.nested self.now.depth) rest.old) result rest.new }
    {
        let first = self.minus(rest)?;
        let more = self.factors(rest)?;
        Ok(product_of(self.alloc, first, more)?)
    }

    #[tactic(auto, unfolding(pgql_grammar::specs::ExpressionReader::term))]
    fn term(&self, rest: &mut Rest<'_>, x: &Piece) -> Result<(Op, Expr), Stop>
        requires { Nests self.now.depth (F.pre self.now.expr) (F.post self.now.expr) }
        ensures { Reads (rule.term (rule.nested self.now.depth) x.now rest.old) result rest.new }
    {
        let e = self.product(rest)?;
        Ok((op_of(x.sym), e))
    }

    #[tactic(auto, unfolding(pgql_grammar::specs::Reading::all, pgql_grammar::specs::Reading::turns))]
    fn terms(&self, rest: &mut Rest<'_>) -> Result<Items<(Op, Expr)>, Stop>
        requires { Nests self.now.depth (F.pre self.now.expr) (F.post self.now.expr) }
        ensures { Reads (all spec.is_addition (rule.term (rule.nested self.now.depth)) rest.old) result rest.new }
    {
        let mut found = Items::new(self.alloc);
        let most = rest.len();
        for _turn in 0..most {
            if !is_addition(rest.peek()) {
                return Ok(found);
            }
            let x = rest.expect_addition()?;
            found.push(self.term(rest, x)?)?;
        }
        Ok(found)
    }

    #[tactic(auto, unfolding(pgql_grammar::specs::ExpressionReader::sum))]
    fn sum(&self, rest: &mut Rest<'_>) -> Result<Expr, Stop>
        requires { Nests self.now.depth (F.pre self.now.expr) (F.post self.now.expr) }
        ensures { Reads (rule.sum (rule.nested self.now.depth) rest.old) result rest.new }
    {
        let first = self.product(rest)?;
        let more = self.terms(rest)?;
        Ok(sum_of(self.alloc, first, more)?)
    }

    #[tactic(auto, unfolding(pgql_grammar::specs::ExpressionReader::comparison))]
    fn comparison(&self, rest: &mut Rest<'_>, left: Expr) -> Result<Expr, Stop>
        requires { Nests self.now.depth (F.pre self.now.expr) (F.post self.now.expr) }
        ensures { Reads (rule.comparison (rule.nested self.now.depth) left rest.old) result rest.new }
    {
        let x = rest.expect_comparison()?;
        let right = self.sum(rest)?;
        let place = left.place;
        let left = Boxed::new(self.alloc, left)?;
        let right = Boxed::new(self.alloc, right)?;
        Ok(at(place, Node::Compare(op_of(x.sym), left, right)))
    }

    #[tactic(auto, unfolding(pgql_grammar::specs::ExpressionReader::member))]
    fn member(&self, rest: &mut Rest<'_>, left: Expr) -> Result<Expr, Stop>
        requires { Nests self.now.depth (F.pre self.now.expr) (F.post self.now.expr) }
        ensures { Reads (rule.member (rule.nested self.now.depth) left rest.old) result rest.new }
    {
        let negative = rest.maybe(Sym::Not)?;
        rest.expect(Sym::In)?;
        rest.expect(Sym::Open)?;
        let found = self.comma_list(rest)?;
        rest.expect(Sym::Close)?;
        let place = left.place;
        let left = Boxed::new(self.alloc, left)?;
        Ok(at(place, Node::Member(negative, left, found)))
    }

    /// `IN` or `NOT IN` behind an operand, if that is next.
    fn member_if_any(&self, rest: &mut Rest<'_>, left: Expr) -> Result<Expr, Stop>
        requires { Nests self.now.depth (F.pre self.now.expr) (F.post self.now.expr) }
        ensures { Reads (choose rule.is_member (rule.member (rule.nested self.now.depth) left) (pure left) rest.old) result rest.new }
    {
        if is_member(rest.peek()) {
            return self.member(rest, left);
        }
        Ok(left)
    }

    #[tactic(auto, unfolding(pgql_grammar::specs::ExpressionReader::tested))]
    fn tested(&self, rest: &mut Rest<'_>, left: Expr) -> Result<Expr, Stop>
        requires { Nests self.now.depth (F.pre self.now.expr) (F.post self.now.expr) }
        ensures { Reads (rule.tested (rule.nested self.now.depth) left rest.old) result rest.new }
    {
        if is_comparison(rest.peek()) {
            return self.comparison(rest, left);
        }
        if is(Sym::Is, rest.peek()) {
            return null_test(self.alloc, rest, left);
        }
        self.member_if_any(rest, left)
    }

    #[tactic(auto, unfolding(pgql_grammar::specs::ExpressionReader::sum_test))]
    fn test(&self, rest: &mut Rest<'_>) -> Result<Expr, Stop>
        requires { Nests self.now.depth (F.pre self.now.expr) (F.post self.now.expr) }
        ensures { Reads (rule.sum_test (rule.nested self.now.depth) rest.old) result rest.new }
    {
        let left = self.sum(rest)?;
        self.tested(rest, left)
    }

    #[tactic(auto, unfolding(pgql_grammar::specs::ExpressionReader::refused))]
    fn refused(&self, rest: &mut Rest<'_>) -> Result<Expr, Stop>
        requires { Nests self.now.depth (F.pre self.now.expr) (F.post self.now.expr) }
        ensures { Reads (rule.refused (rule.nested self.now.depth) rest.old) result rest.new }
    {
        let x = rest.expect(Sym::Not)?;
        let e = self.inner(rest, Level::Negation)?;
        let e = Boxed::new(self.alloc, e)?;
        Ok(at(x.place, Node::Not(e)))
    }

    #[tactic(auto, unfolding(pgql_grammar::specs::ExpressionReader::negation))]
    fn negation(&self, rest: &mut Rest<'_>) -> Result<Expr, Stop>
        requires { Nests self.now.depth (F.pre self.now.expr) (F.post self.now.expr) }
        ensures { Reads (rule.negation (rule.nested self.now.depth) rest.old) result rest.new }
    {
        if is(Sym::Not, rest.peek()) {
            self.refused(rest)
        } else {
            self.test(rest)
        }
    }

    #[tactic(auto, unfolding(pgql_grammar::specs::Reading::all, pgql_grammar::specs::Reading::turns))]
    fn negations(&self, rest: &mut Rest<'_>) -> Result<Items<Expr>, Stop>
        requires { Nests self.now.depth (F.pre self.now.expr) (F.post self.now.expr) }
        ensures { Reads (all (spec.is Sym.And) (λ _. rule.negation (rule.nested self.now.depth)) rest.old) result rest.new }
    {
        let mut found = Items::new(self.alloc);
        let most = rest.len();
        for _turn in 0..most {
            if !is(Sym::And, rest.peek()) {
                return Ok(found);
            }
            rest.expect(Sym::And)?;
            found.push(self.negation(rest)?)?;
        }
        Ok(found)
    }

    #[tactic(auto, unfolding(pgql_grammar::specs::ExpressionReader::conjunction))]
    fn conjunction(&self, rest: &mut Rest<'_>) -> Result<Expr, Stop>
        requires { Nests self.now.depth (F.pre self.now.expr) (F.post self.now.expr) }
        ensures { Reads (rule.conjunction (rule.nested self.now.depth) rest.old) result rest.new }
    {
        let first = self.negation(rest)?;
        let more = self.negations(rest)?;
        Ok(and_of(self.alloc, first, more)?)
    }

    #[tactic(auto, unfolding(pgql_grammar::specs::Reading::all, pgql_grammar::specs::Reading::turns))]
    fn conjunctions(&self, rest: &mut Rest<'_>) -> Result<Items<Expr>, Stop>
        requires { Nests self.now.depth (F.pre self.now.expr) (F.post self.now.expr) }
        ensures { Reads (all (spec.is Sym.Or) (λ _. rule.conjunction (rule.nested self.now.depth)) rest.old) result rest.new }
    {
        let mut found = Items::new(self.alloc);
        let most = rest.len();
        for _turn in 0..most {
            if !is(Sym::Or, rest.peek()) {
                return Ok(found);
            }
            rest.expect(Sym::Or)?;
            found.push(self.conjunction(rest)?)?;
        }
        Ok(found)
    }

    #[tactic(auto, unfolding(pgql_grammar::specs::ExpressionReader::whole))]
    fn whole(&self, rest: &mut Rest<'_>) -> Result<Expr, Stop>
        requires { Nests self.now.depth (F.pre self.now.expr) (F.post self.now.expr) }
        ensures { Reads (rule.whole (rule.nested self.now.depth) rest.old) result rest.new }
    {
        let first = self.conjunction(rest)?;
        let more = self.conjunctions(rest)?;
        Ok(or_of(self.alloc, first, more)?)
    }

    fn at_level(&self, rest: &mut Rest<'_>, level: Level) -> Result<Expr, Stop>
        requires { Nests self.now.depth (F.pre self.now.expr) (F.post self.now.expr) }
        ensures { Reads (rule.at_level (rule.nested self.now.depth) level rest.old) result rest.new }
    {
        match level {
            Level::Whole => self.whole(rest),
            Level::Negation => self.negation(rest),
            Level::Minus => self.minus(rest),
        }
    }
}

/// An expression that nests at most so deep.
pub fn expr(alloc: Global, rest: &mut Rest<'_>, depth: usize, level: Level) -> Result<Expr, Stop>
    ensures { Reads (rule.nested depth level rest.old) result rest.new }
{
    if depth == 0 {
        return number(rest);
    }
    Grammar {
        alloc,
        depth: depth - 1,
        expr,
    }
    .at_level(rest, level)
}
