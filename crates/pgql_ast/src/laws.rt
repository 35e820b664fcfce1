//! Equality without places, in words of its own.
ghost use Rattle.std.specs.Prelude.{◌≡◌, ◌↔◌, true};
ghost use Rattle.pgql_ast.specs.declared.expr.Expr.{Expr};
ghost use Rattle.pgql_ast.specs.Same.{same_tree, without_places};

/// Two expressions pass the test of [`is_same_tree`](crate::is_same_tree) exactly where they are equal once each place in
/// them is 0.
pub fn same_trees_are_equal_without_places()
    ensures { (a b : Expr) → (same_tree a b ≡ true) ↔ (without_places a ≡ without_places b) }
{}
