//! The blocks of a search's path.
ghost use Rattle.std.specs.Prelude.{◌≡◌, ◌↔◌, ℕ, ◌<◌, ◌-◌, ◌++◌, [], ◌∷◌, AllPairs, Contains, IsTrue, List as Items, length, slice_index, take};
ghost use Rattle.algo_rank.specs.Search.{AreUpTo, IsFrom, IsLabelling, IsLeast};

use crate::search::Stage;
use column_types::List;

/// Joins the blocks that begin after a place to the one before them.
pub(crate) fn join_blocks(heads: &mut Vec<u32>, place: u32)
    requires { AllPairs (λ a b. a < b) heads.old.items }
    ensures { AreUpTo place heads.old.items heads.new.items }
{
    'heads: while ends_past(heads.as_slice(), place) {
        heads.pop();
    }
}

/// Whether the last of some numbers is greater than a number.
fn ends_past(heads: &[u32], place: u32) -> bool
    ensures { IsTrue result ↔ ((front : Items ℕ) × (h : ℕ) × (heads.now ≡ front ++ h ∷ []) × (place < h)) }
{
    match heads.last() {
        Some(head) => *head > place,
        None => false,
    }
}

/// Whether the last of some numbers is this number.
pub(crate) fn ends_with(heads: &[u32], place: u32) -> bool
    ensures { IsTrue result ↔ ((front : Items ℕ) × (heads.now ≡ front ++ place ∷ [])) }
{
    match heads.last() {
        Some(head) => *head == place,
        None => false,
    }
}

/// Gives the vertices of the last block, which begins at a place, the least of their indexes as their label, and takes the block off
/// the path.
pub(crate) fn close_block(
    stages: &mut List<Stage>,
    path: &mut Vec<u32>,
    heads: &mut Vec<u32>,
    place: u32,
)
    requires place { place < length path.old.items }
    requires within { (p : ℕ) → p < length path.old.items → slice_index path.old.items p < length stages.old }
    ensures stages { (label : ℕ) × IsLabelling (IsFrom path.old.items place) label stages.old stages.new × IsLeast (IsFrom path.old.items place) label }
    ensures path { path.new.items ≡ take place path.old.items }
    ensures heads { heads.new.items ≡ take (length heads.old.items - 1) heads.old.items }
{
    let block = &path.as_slice()[place as usize..];
    let label = least(block);
    give_label(stages, block, label);
    path.truncate(place as usize);
    heads.pop();
}

/// The least of some numbers.
fn least(block: &[u32]) -> u32
    requires { 0 < length block.now }
    ensures { IsLeast (Contains block.now) result }
{
    let mut least = block[0];
    for v in block {
        least = least.min(*v);
    }
    least
}

/// Gives vertices a label.
fn give_label(stages: &mut List<Stage>, block: &[u32], label: u32)
    requires { (v : ℕ) → Contains block.now v → v < length stages.old }
    ensures { IsLabelling (Contains block.now) label stages.old stages.new }
{
    for v in block {
        stages.set(*v as usize, Stage::Closed(label));
    }
}
