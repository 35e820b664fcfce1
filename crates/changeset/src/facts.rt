//! What changes make of what tells whether they fit.
ghost use Rattle.std.specs.Prelude.{◌≡◌, None};
ghost use Rattle.graph_model.specs.declared.change.Change.{Change as AChange};
ghost use Rattle.graph_model.specs.Change.{misfit, changed};
ghost use Rattle.changeset.specs.Facts.{facts, misfit_of, noted};

use graph_model::Graph;

/// Keys, ends and numbers tell of each change whether it fits a graph, and for what cause it does not.
pub fn facts_tell_misfits(graph: &Graph)
    ensures { (c : AChange) → misfit graph.now c ≡ misfit_of graph.now.schema (facts graph.now) c }
{
    graph.sound();
}

/// What a change that fits makes of them is told by them alone.
pub fn facts_follow_changes(graph: &Graph)
    ensures { (c : AChange) → misfit graph.now c ≡ None → facts (changed graph.now c) ≡ noted graph.now.schema (facts graph.now) c }
{
    graph.sound();
}
