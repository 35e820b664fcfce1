//! Two lists that grow together.
ghost use Rattle.std.specs.Prelude.{◌≡◌, ◌≤◌, vec_len, insert, OnOk, OnErr};

use column_types::NoMemory;

/// Puts an item into each of two lists, at one place, or into neither where memory runs out.
pub fn insert_both<S: Drop, T: Drop>(
    firsts: &mut Vec<S>,
    seconds: &mut Vec<T>,
    place: usize,
    first: S,
    second: T,
) -> Result<(), NoMemory>
    requires first_place { place ≤ vec_len firsts.old }
    requires second_place { place ≤ vec_len seconds.old }
    ensures firsts_grow { OnOk result (firsts.new.items ≡ insert firsts.old.items place first) }
    ensures seconds_grow { OnOk result (seconds.new.items ≡ insert seconds.old.items place second) }
    ensures firsts_stay { OnErr result (firsts.new.items ≡ firsts.old.items) }
    ensures seconds_stay { OnErr result (seconds.new.items ≡ seconds.old.items) }
{
    firsts.reserve(1)?;
    seconds.reserve(1)?;
    // There is room in both, so neither of these fails.
    firsts.insert(place, first)?;
    seconds.insert(place, second)?;
    Ok(())
}
