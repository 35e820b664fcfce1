//! Sorts of tokens, and what single sorts stand for.
ghost use Rattle.std.specs.Prelude.{◌≡◌};
ghost use Rattle.pgql_grammar.specs.Sorts as spec;
ghost use Rattle.pgql_grammar.specs.ExpressionReader as rule;

use pgql_ast::{Aggregate, Op};
use pgql_grammar::Sym;

#[tactic(auto, unfolding(pgql_grammar::specs::Sorts::is))]
pub fn is(kind: Sym, sym: Sym) -> bool
    ensures { result ≡ spec.is kind sym }
{
    kind == sym
}

/// `+` and `-`
pub fn is_addition(sym: Sym) -> bool
    ensures { result ≡ spec.is_addition sym }
{
    matches!(sym, Sym::Plus | Sym::Minus)
}

/// `*`, `/` and `%`
pub fn is_multiplication(sym: Sym) -> bool
    ensures { result ≡ spec.is_multiplication sym }
{
    matches!(sym, Sym::Star | Sym::Slash | Sym::Percent)
}

/// `=`, `<>`, `<`, `<=`, `>` and `>=`
pub fn is_comparison(sym: Sym) -> bool
    ensures { result ≡ spec.is_comparison sym }
{
    matches!(
        sym,
        Sym::Equal | Sym::Unequal | Sym::Less | Sym::AtMost | Sym::Greater | Sym::AtLeast
    )
}

/// A text, be it a date or not.
pub fn is_text(sym: Sym) -> bool
    ensures { result ≡ spec.is_text sym }
{
    matches!(sym, Sym::Chars | Sym::Day)
}

pub fn is_truth(sym: Sym) -> bool
    ensures { result ≡ spec.is_truth sym }
{
    matches!(sym, Sym::True | Sym::False)
}

pub fn is_aggregate(sym: Sym) -> bool
    ensures { result ≡ spec.is_aggregate sym }
{
    matches!(sym, Sym::Count | Sym::Min | Sym::Max | Sym::Sum)
}

/// What an edge pattern begins with.
pub fn is_edge(sym: Sym) -> bool
    ensures { result ≡ spec.is_edge sym }
{
    matches!(sym, Sym::Minus | Sym::Less)
}

/// What a literal begins with.
pub fn is_literal(sym: Sym) -> bool
    ensures { result ≡ rule.is_literal sym }
{
    matches!(
        sym,
        Sym::Number | Sym::Chars | Sym::Day | Sym::True | Sym::False | Sym::Null | Sym::Date
    )
}

/// What `IN` and `NOT IN` begin with.
pub fn is_member(sym: Sym) -> bool
    ensures { result ≡ rule.is_member sym }
{
    matches!(sym, Sym::Not | Sym::In)
}

fn is_keyword(sym: Sym) -> bool
    ensures { result ≡ spec.is_keyword sym }
{
    matches!(
        sym,
        Sym::Select
            | Sym::Distinct
            | Sym::From
            | Sym::Match
            | Sym::On
            | Sym::Where
            | Sym::Group
            | Sym::By
            | Sym::Having
            | Sym::Order
            | Sym::Asc
            | Sym::Desc
            | Sym::Limit
            | Sym::Offset
            | Sym::As
            | Sym::And
            | Sym::Or
            | Sym::Not
            | Sym::Is
            | Sym::Null
            | Sym::True
            | Sym::False
            | Sym::In
            | Sym::Date
            | Sym::Count
            | Sym::Min
            | Sym::Max
            | Sym::Sum
    )
}

/// A name or a keyword.
#[tactic(auto, unfolding(pgql_grammar::specs::Sorts::is_label))]
pub fn is_label(sym: Sym) -> bool
    ensures { result ≡ spec.is_label sym }
{
    is(Sym::Name, sym) || is_keyword(sym)
}

/// The operator that a sign between two operands writes.
pub fn op_of(sym: Sym) -> Op
    ensures { result ≡ spec.op_of sym }
{
    match sym {
        Sym::Plus => Op::Add,
        Sym::Minus => Op::Subtract,
        Sym::Star => Op::Multiply,
        Sym::Slash => Op::Divide,
        Sym::Percent => Op::Remainder,
        Sym::Unequal => Op::Unequal,
        Sym::Less => Op::Less,
        Sym::AtMost => Op::AtMost,
        Sym::Greater => Op::Greater,
        Sym::AtLeast => Op::AtLeast,
        _ => Op::Equal,
    }
}

/// The aggregate that a keyword names.
pub fn aggregate_of(sym: Sym) -> Aggregate
    ensures { result ≡ spec.aggregate_of sym }
{
    match sym {
        Sym::Min => Aggregate::Min,
        Sym::Max => Aggregate::Max,
        Sym::Sum => Aggregate::Sum,
        _ => Aggregate::Count,
    }
}
