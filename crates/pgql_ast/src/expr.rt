//! Expressions.

use column_types::Text;
use sqlite_items::{Boxed, Items};

/// A function over the rows of a group.
#[derive(Clone, Copy, Debug, PartialEq, Eq)]
pub enum Aggregate {
    Count,
    Min,
    Max,
    Sum,
}

/// An operator between two operands.
#[derive(Clone, Copy, Debug, PartialEq, Eq)]
pub enum Op {
    Add,
    Subtract,
    Multiply,
    Divide,
    Remainder,
    Equal,
    Unequal,
    Less,
    AtMost,
    Greater,
    AtLeast,
}

/// An expression and its first byte, counted from 0, without the brackets round it.
#[cycle(ast)]
#[derive(Drop)]
pub struct Expr {
    pub place: u32,
    pub node: Node,
}

/// The form of an expression. Brackets make no node, and a chain of operators of one level is one node.
#[cycle(ast)]
#[derive(Drop)]
pub enum Node {
    Number(i64),
    /// A text, without its quotes.
    Chars(Text),
    Truth(bool),
    Null,
    /// Days since 1970-01-01.
    Date(i32),
    /// A variable, or an alias where one is allowed.
    Name(Text),
    /// A property: the variable and the name of the property.
    Prop(Text, Text),
    /// A function in small letters and its arguments.
    Function(Text, Items<Expr>),
    /// `COUNT(*)`
    CountAll,
    /// An aggregate, whether DISTINCT stands in it, and its argument.
    Aggregate(Aggregate, bool, Boxed<Expr>),
    Negate(Boxed<Expr>),
    Not(Boxed<Expr>),
    /// A chain of `*`, `/` and `%`: the first operand, then each operator with its right operand.
    Product(Boxed<Expr>, Items<(Op, Expr)>),
    /// A chain of `+` and `-`: the first operand, then each operator with its right operand.
    Sum(Boxed<Expr>, Items<(Op, Expr)>),
    Compare(Op, Boxed<Expr>, Boxed<Expr>),
    /// `IS NULL`, or `IS NOT NULL` where the flag is set.
    IsNull(bool, Boxed<Expr>),
    /// `IN`, or `NOT IN` where the flag is set: the operand and the list.
    Member(bool, Boxed<Expr>, Items<Expr>),
    And(Items<Expr>),
    Or(Items<Expr>),
}
