//! Runs of consecutive keys.
ghost use Rattle.std.specs.Prelude.{◌≡◌, ◌↔◌, ◌+ℤ◌, pos, IsTrue};
ghost use Rattle.key_places.specs.Places.{place_in_run};

/// The place of a key in the run of so many keys, from the first one on.
pub(crate) fn place_in(first: i64, length: u32, key: i64) -> Option<u32>
    ensures { result ≡ place_in_run first length key }
{
    match key.checked_sub(first) {
        Some(offset) if 0 <= offset && offset < i64::from(length) => Some(offset as u32),
        _ => None,
    }
}

/// Whether a key comes right behind the run of so many keys, from the first one on.
pub(crate) fn is_behind(first: i64, length: u32, key: i64) -> bool
    ensures { IsTrue result ↔ (key ≡ first +ℤ pos length) }
{
    key.checked_sub(first) == Some(i64::from(length))
}
