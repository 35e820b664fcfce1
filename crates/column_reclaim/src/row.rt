//! A row, and how the counts of rows change.
ghost use Rattle.std.specs.Prelude.{◌≡◌, ◌≢◌, ◌+◌, ◌<◌, ◌≤◌, ◌^◌, [], ◌∷◌, length, All, HoldsAt, IfSome, IfNone, filter, vec_len, vec_capacity};
ghost use Rattle.column_reclaim.specs.Registry.{Rises, is_counted, raised, lowered_all};

/// An item under its id, with its count.
#[derive(Debug, Drop)]
pub struct RegistryRow<T> {
    pub id: u64,
    pub count: u64,
    pub item: T,
}

/// The place of the row of an id.
fn place_of<T>(rows: &[RegistryRow<T>], id: u64) -> Option<usize>
    requires { Rises rows.now }
    ensures within { IfSome result (λ place. place < length rows.now) }
    ensures found { IfSome result (HoldsAt (λ r. r.id ≡ id) rows.now) }
    ensures missing { IfNone result (All (λ r. r.id ≢ id) rows.now) }
{
    rows.binary_search_by_key(&id, |row| row.id).ok()
}

/// Raises the count of an id by 1.
pub(crate) fn raise<T>(rows: &mut Vec<RegistryRow<T>>, id: u64)
    requires rises { Rises rows.old.items }
    requires room { All (λ r. r.id ≡ id → r.count + 1 < 2 ^ 64) rows.old.items }
    ensures rows { rows.new.items ≡ raised (id ∷ []) rows.old.items }
    ensures len { vec_len rows.new ≡ vec_len rows.old }
    ensures capacity { vec_capacity rows.new ≡ vec_capacity rows.old }
{
    if let Some(place) = place_of(rows.as_slice(), id) {
        let row = &mut rows[place];
        row.count += 1;
    }
}

/// Lowers the count of an id by 1.
pub(crate) fn lower<T>(rows: &mut Vec<RegistryRow<T>>, id: u64)
    requires rises { Rises rows.old.items }
    requires used { All (λ r. r.id ≡ id → 0 < r.count) rows.old.items }
    ensures rows { rows.new.items ≡ lowered_all (id ∷ []) rows.old.items }
    ensures len { vec_len rows.new ≡ vec_len rows.old }
    ensures capacity { vec_capacity rows.new ≡ vec_capacity rows.old }
{
    if let Some(place) = place_of(rows.as_slice(), id) {
        let row = &mut rows[place];
        row.count -= 1;
    }
}

/// Drops the rows whose count is 0.
pub(crate) fn drop_unused<T: Drop>(rows: &mut Vec<RegistryRow<T>>)
    ensures rows { rows.new.items ≡ filter is_counted rows.old.items }
    ensures len { vec_len rows.new ≤ vec_len rows.old }
    ensures capacity { vec_capacity rows.new ≡ vec_capacity rows.old }
{
    rows.retain(|row| row.count > 0);
}
