//! What becomes of rows, in words of their own.
ghost use Rattle.std.specs.Prelude.{◌≡◌, ◌↔◌, ℕ, ◌+◌, ◌-◌, ◌<◌, ◌≤◌, ◌^◌, [], ◌∷◌, ◌++◌, List as Items, All, if◌then◌else◌, ◌==◌};
ghost use Rattle.std.specs.List.{list_any};
ghost use Rattle.column_reclaim.specs.declared.row.RegistryRow.{RegistryRow as Row};
ghost use Rattle.column_reclaim.specs.Registry.{Rises, IsListed, times, ids_of, has_id, count_of, item_of, raised, lowered};

/// A row that is added under a greater id is found under it, and under each other id what was found before.
#[tactic(auto, using(crate::proofs::Finds::count_push, crate::proofs::Finds::item_push))]
pub fn rows_are_added_under_new_ids<T>()
    ensures counts { (rows : Items (Row T)) (r : Row T) (id : ℕ) → All (λ s. s.id < r.id) rows
        → count_of (rows ++ r ∷ []) id ≡ count_of rows id + (if has_id id r then r.count else 0) }
    ensures items { (rows : Items (Row T)) (r : Row T) (id : ℕ) → All (λ s. s.id < r.id) rows
        → item_of (rows ++ r ∷ []) id ≡ (if has_id id r then Some r.item else item_of rows id) }
{}

/// Retaining raises the count of each id by how often it comes. The ids stay, and each has its item.
#[tactic(auto, using(crate::proofs::Finds::count_raised, crate::proofs::Finds::item_raised, crate::proofs::Changes::ids_raised))]
pub fn retaining_raises_counts<T>()
    ensures counts { (rows : Items (Row T)) (ids : Items ℕ) (id : ℕ) → All (IsListed rows) ids
        → count_of (raised ids rows) id ≡ count_of rows id + times id ids }
    ensures items { (rows : Items (Row T)) (ids : Items ℕ) (id : ℕ) → item_of (raised ids rows) id ≡ item_of rows id }
    ensures ids { (rows : Items (Row T)) (ids : Items ℕ) → ids_of (raised ids rows) ≡ ids_of rows }
{}

/// After a release an id is listed exactly where its count was above how often it was released. It then has its item, and
/// its count is the difference.
#[tactic(auto, using(crate::proofs::Finds::listed_lowered, crate::proofs::Finds::count_lowered, crate::proofs::Finds::item_lowered))]
pub fn releasing_keeps_what_is_used<T>()
    ensures listed { (rows : Items (Row T)) (ids : Items ℕ) (id : ℕ) → Rises rows
        → IsListed (lowered ids rows) id ↔ (times id ids < count_of rows id) }
    ensures counts { (rows : Items (Row T)) (ids : Items ℕ) (id : ℕ) → Rises rows
        → count_of (lowered ids rows) id ≡ count_of rows id - times id ids }
    ensures items { (rows : Items (Row T)) (ids : Items ℕ) (id : ℕ) → Rises rows → IsListed (lowered ids rows) id
        → item_of (lowered ids rows) id ≡ item_of rows id }
{}

/// Rows are as before once what was retained is released.
#[tactic(auto, using(crate::proofs::Finds::lowered_raised))]
pub fn releasing_undoes_retaining<T>()
    ensures { (rows : Items (Row T)) (ids : Items ℕ) → All (λ r. 0 < r.count) rows → lowered ids (raised ids rows) ≡ rows }
{}

/// Ids that differ come once or not at all. They may be retained where counts are below the greatest number, and released
/// where counts are above 0, as they are in each registry.
#[tactic(auto, using(crate::proofs::Times::times_distinct))]
pub fn distinct_ids_may_be_counted<T>()
    ensures once { (ids : Items ℕ) (id : ℕ) → times id ids ≤ 1 → times id ids ≡ (if list_any (λ k. k == id) ids then 1 else 0) }
    ensures room { (rows : Items (Row T)) (ids : Items ℕ) → ((id : ℕ) → times id ids ≤ 1) → All (λ r. r.count < 2 ^ 64 - 1) rows
        → All (λ r. r.count + times r.id ids < 2 ^ 64) rows }
    ensures used { (rows : Items (Row T)) (ids : Items ℕ) → ((id : ℕ) → times id ids ≤ 1) → All (λ r. 0 < r.count) rows
        → All (λ r. times r.id ids ≤ r.count) rows }
{}
