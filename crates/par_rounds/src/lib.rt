//! A round of work: a function at each of the numbers 0 to n - 1, by several threads.
//!
//! [`round`] gives the list of what the function gives at each number, in order, whichever thread computes it. There are at
//! most `workers` pieces, each of at least 2,048 numbers, so a round over fewer than 4,096 starts no thread.
#![tactic(auto)]

ghost use Rattle.std.specs.Prelude.{◌≡◌, ℕ, ◌<◌, ◌≤◌, IfOk, length, slice_index_or};
ghost use Rattle.std.specs.List.{AllZip, range_with_len};

use column_types::{List, NoMemory};
use rayon::prelude::*;
use std::alloc::Global;
use std::thread::Threads;

/// How many numbers are worth a thread of their own.
const LEAST_PIECE: usize = 2048;

/// What `f` gives at the numbers 0 to `n - 1`, in order, by at most `workers` threads at a time.
pub fn round<R: Threads + Sync, T: Send + Drop, F: Fn(u32) -> T + Sync>(
    rt: &R,
    alloc: Global,
    workers: u32,
    n: u32,
    f: F,
) -> Result<List<T>, NoMemory>
    requires workers { (1 ≤ workers) × (workers ≤ 64) }
    requires callable { (i : ℕ) → i < n → F.pre f i }
    ensures list { IfOk result (λ items. AllZip (F.post f) (range_with_len 0 n) items) }
    ensures len { IfOk result (λ items. length items ≡ n) }
    ensures at { IfOk result (λ items. (i : ℕ) (d : T) → i < n → F.post f i (slice_index_or items i d)) }
{
    let each = &f;
    let least = (n.div_ceil(workers) as usize).max(LEAST_PIECE);
    let found = (0..n)
        .into_par_iter()
        .map(
            |i: u32| -> T
                requires { F.pre each.now i }
                ensures { F.post each.entry.now i result }
            { each(i) },
        )
        .with_min_len(least)
        .collect::<Vec<T>>(rt, alloc)?;
    Ok(List::from_vec(found))
}
