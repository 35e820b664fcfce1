//! What rows mean, in words of their own.
ghost use Rattle.std.specs.Prelude.{◌≡◌, ◌≢◌, ◌↔◌, ℕ, ◌+◌, [], length, slice_get, Some, Contains};
ghost use Rattle.std.specs.List.Sorted.{IsStrictlyIncreasing};
ghost use Rattle.csr_rows.specs.Rows.{rows_of, row_at, places_of};

/// Row `i` of the rows of `ends` is the list of the places of `i`: these are exactly the places whose end is `i`, they
/// rise, and the last row has one.
pub fn rows_list_the_places_of_their_ends(ends: &[u32])
    ensures row { (i : ℕ) → row_at (rows_of ends.now) i ≡ places_of ends.now i }
    ensures exact { (i e : ℕ) → Contains (places_of ends.now i) e ↔ (slice_get ends.now e ≡ Some i) }
    ensures rising { (i : ℕ) → IsStrictlyIncreasing (places_of ends.now i) }
    ensures trimmed { (i : ℕ) → length (rows_of ends.now) ≡ i + 1 → row_at (rows_of ends.now) i ≢ [] }
{}
