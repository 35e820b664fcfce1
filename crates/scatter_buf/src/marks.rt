//! One bit for each place.
ghost use Rattle.std.specs.Prelude.{◌≡◌, ◌≢◌, ℕ, ◌+◌, ◌*◌, ◌/◌, ◌<◌, ◌≤◌, true, false, length, IfOk};
ghost use Rattle.scatter_buf.specs.Marks.{is_marked};

use std::alloc::{AllocError, Global};

/// Words for so many places, none of which is marked.
pub fn no_marks(alloc: Global, count: u32) -> Result<Vec<u64>, AllocError>
    ensures covered { IfOk result (λ words. count ≤ 64 * length words.items) }
    ensures none { IfOk result (λ words. (place : ℕ) → is_marked words.items place ≡ false) }
{
    Vec::from_elem(alloc, 0, count.div_ceil(64) as usize)
}

pub fn is_marked(words: &[u64], place: u32) -> bool
    requires { place / 64 < length words.now }
    ensures { result ≡ is_marked words.now place }
{
    (words[place as usize / 64] >> (place % 64)) & 1 == 1
}

pub fn mark(words: &mut [u64], place: u32)
    requires { place / 64 < length words.old }
    ensures marked { is_marked words.new place ≡ true }
    ensures others { (other : ℕ) → other ≢ place → is_marked words.new other ≡ is_marked words.old other }
{
    words[place as usize / 64] |= 1 << (place % 64);
}
