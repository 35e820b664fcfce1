//! Laws of the definitions of a fold: what the clauses of these functions say holds, and the functions do nothing.
ghost use Rattle.std.specs.Prelude.{◌≡◌, ◌≤◌, ◌++◌, ℕ, false, None, Some, List as Items, length, slice_get};
ghost use Rattle.graph_model.specs.declared.change.Change.{Change as AChange};
ghost use Rattle.graph_model.specs.Graph.{GraphData};
ghost use Rattle.graph_model.specs.Change.{misfit, after};
ghost use Rattle.graph_slots.specs.declared.slot.SlotName.{SlotName as AName};
ghost use Rattle.graph_slots.specs.Meaning.{slot_value};
ghost use Rattle.graph_slots.specs.Touched.{touched, skipped};
ghost use Rattle.delta_fold.specs.Folded.{folded};

use graph_model::Graph;

/// The graph after a list of changes is the one after its first n changes, where n is its length, and a list may be folded in two
/// parts, one after the other.
pub fn folds_are_last_prefixes()
    ensures last { (g : GraphData) (changes : Items AChange) → folded g changes ≡ after g changes (length changes) }
    ensures parts { (g : GraphData) (first rest : Items AChange) → folded g (first ++ rest) ≡ folded (folded g first) rest }
{}

/// No change is skipped exactly where each of them fits the graph after those before it. No more are skipped than there are.
pub fn changes_that_fit_are_not_skipped()
    ensures all_fit { (g : GraphData) (changes : Items AChange) → ((k : ℕ) (c : AChange) → slice_get changes k ≡ Some c → misfit (after g changes k) c ≡ None) → skipped g changes ≡ 0 }
    ensures none_skipped { (g : GraphData) (changes : Items AChange) → skipped g changes ≡ 0 → (k : ℕ) (c : AChange) → slice_get changes k ≡ Some c → misfit (after g changes k) c ≡ None }
    ensures few { (g : GraphData) (changes : Items AChange) → skipped g changes ≤ length changes }
{}

/// A slot that none of the changes that fit touches holds the same after the changes as before them.
pub fn untouched_slots_stay(graph: &Graph)
    ensures { (changes : Items AChange) (x : AName) → touched graph.now changes x ≡ false → slot_value (folded graph.now changes) x ≡ slot_value graph.now x }
{
    graph.sound();
}
