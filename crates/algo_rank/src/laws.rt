//! What the definitions mean, in words of their own.
ghost use Rattle.std.specs.Prelude.{◌≡◌, ◌↔◌, ℕ, ◌/◌, ◌≤◌, sum_by};
ghost use Rattle.std.specs.List.{range_with_len};
ghost use Rattle.algo_digraph.specs.Digraph.{Digraph, IsClosed};
ghost use Rattle.algo_rank.specs.Ranks.{rank_after};
ghost use Rattle.algo_rank.specs.Classes.{AreStrong, IsStrongLabel};

/// The ranks of all vertices together are at most the whole, after however many rounds, and with no rounds all are the same
/// quotient of it.
pub fn ranks_share_the_whole()
    ensures sum { (g : Digraph) (rounds : ℕ) → IsClosed g → sum_by (rank_after g rounds) (range_with_len 0 g.vertices) ≤ 4294967296 }
    ensures start { (g : Digraph) (v : ℕ) → rank_after g 0 v ≡ 4294967296 / g.vertices }
{}

/// A vertex has at most one strong label, and two vertices have the same one exactly where walks lead both ways between them. The
/// label is one of the vertices that have it.
pub fn strong_labels_tell_components()
    ensures one { (g : Digraph) (v l m : ℕ) → IsStrongLabel g v l → IsStrongLabel g v m → l ≡ m }
    ensures same { (g : Digraph) (a b l m : ℕ) → IsStrongLabel g a l → IsStrongLabel g b m → (l ≡ m) ↔ AreStrong g a b }
    ensures own { (g : Digraph) (v l : ℕ) → IsStrongLabel g v l → IsStrongLabel g l l }
{}
