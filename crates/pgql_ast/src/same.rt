//! Equality of expressions without their places.
ghost use Rattle.std.specs.Prelude.{◌≡◌, map};
ghost use Rattle.pgql_ast.specs.Same as spec;

use crate::{Expr, Node, Op};

/// Whether the expressions are equal but for their places: as trees of nodes, with equal texts, numbers and operators.
#[cycle(same)]
pub fn is_same_tree(a: &Expr, b: &Expr) -> bool
    ensures { result ≡ spec.same_tree a.now b.now }
{
    is_same_node(&a.node, &b.node)
}

#[cycle(same)]
fn is_same_list(a: &[Expr], b: &[Expr]) -> bool
    ensures { result ≡ spec.same_list (map spec.same_tree a.now) b.now }
{
    if a.len() != b.len() {
        return false;
    }
    for i in 0..a.len() {
        if !is_same_tree(&a[i], &b[i]) {
            return false;
        }
    }
    true
}

#[cycle(same)]
fn is_same_pairs(a: &[(Op, Expr)], b: &[(Op, Expr)]) -> bool
    ensures { result ≡ spec.same_pairs (map (λ p. (p.0, spec.same_tree p.1)) a.now) b.now }
{
    if a.len() != b.len() {
        return false;
    }
    for i in 0..a.len() {
        if a[i].0 != b[i].0 || !is_same_tree(&a[i].1, &b[i].1) {
            return false;
        }
    }
    true
}

#[cycle(same)]
fn is_same_node(a: &Node, b: &Node) -> bool
    ensures { result ≡ spec.same_node_tree a.now b.now }
{
    match (a, b) {
        (Node::Number(n), Node::Number(m)) => n == m,
        (Node::Chars(t), Node::Chars(u)) => t == u,
        (Node::Truth(t), Node::Truth(u)) => t == u,
        (Node::Null, Node::Null) => true,
        (Node::Date(n), Node::Date(m)) => n == m,
        (Node::Name(t), Node::Name(u)) => t == u,
        (Node::Prop(t, p), Node::Prop(u, q)) => t == u && p == q,
        (Node::Function(t, xs), Node::Function(u, ys)) => {
            t == u && is_same_list(xs.as_slice(), ys.as_slice())
        }
        (Node::CountAll, Node::CountAll) => true,
        (Node::Aggregate(f, d, x), Node::Aggregate(g, e, y)) => {
            f == g && d == e && is_same_tree(x.get(), y.get())
        }
        (Node::Negate(x), Node::Negate(y)) => is_same_tree(x.get(), y.get()),
        (Node::Not(x), Node::Not(y)) => is_same_tree(x.get(), y.get()),
        (Node::Product(x, xs), Node::Product(y, ys)) => {
            is_same_tree(x.get(), y.get()) && is_same_pairs(xs.as_slice(), ys.as_slice())
        }
        (Node::Sum(x, xs), Node::Sum(y, ys)) => {
            is_same_tree(x.get(), y.get()) && is_same_pairs(xs.as_slice(), ys.as_slice())
        }
        (Node::Compare(o, x, v), Node::Compare(p, y, w)) => {
            o == p && is_same_tree(x.get(), y.get()) && is_same_tree(v.get(), w.get())
        }
        (Node::IsNull(n, x), Node::IsNull(m, y)) => n == m && is_same_tree(x.get(), y.get()),
        (Node::Member(n, x, xs), Node::Member(m, y, ys)) => {
            n == m && is_same_tree(x.get(), y.get()) && is_same_list(xs.as_slice(), ys.as_slice())
        }
        (Node::And(xs), Node::And(ys)) => is_same_list(xs.as_slice(), ys.as_slice()),
        (Node::Or(xs), Node::Or(ys)) => is_same_list(xs.as_slice(), ys.as_slice()),
        _ => false,
    }
}
