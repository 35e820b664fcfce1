//! What holds of every history of a desk.
ghost use Rattle.std.specs.Prelude.{◌≡◌, ℕ, List, [], ◌++◌};
ghost use Rattle.turn_hall.specs.declared.entry.Entry.{Entry};
ghost use Rattle.turn_hall.specs.Replay.{replay, IsLegal, entries_of, EndsWith};
ghost use Rattle.turn_hall.specs.Seen.{own_part};

use crate::Desk;

/// Two histories put together lead through the first and then through the second, and are legal where each of them is.
pub fn histories_are_joined<D: Desk>()
    ensures replay { (s : D.State) (xs ys : List (Entry D.Note D.Reply)) → replay D.step s (xs ++ ys) ≡ replay D.step (replay D.step s xs) ys }
    ensures legal { (s : D.State) (xs ys : List (Entry D.Note D.Reply)) → IsLegal D.step s xs → IsLegal D.step (replay D.step s xs) ys → IsLegal D.step s (xs ++ ys) }
    ensures front { (s : D.State) (xs ys : List (Entry D.Note D.Reply)) → IsLegal D.step s (xs ++ ys) → IsLegal D.step s xs }
{}

/// A history leaves the opening state, since each step does.
pub fn what_each_step_keeps_stays<D: Desk>()
    ensures { (s : D.State) (xs : List (Entry D.Note D.Reply)) → D.opening (replay D.step s xs) ≡ D.opening s }
{}

/// The own part of a history is its front up to the last entry of a number: it is empty or ends with one, and none comes after it.
pub fn the_own_part_ends_with_the_last_own_entry<D: Desk>()
    ensures ends { (who : ℕ) (xs : List (Entry D.Note D.Reply)) → EndsWith who (own_part who xs) }
    ensures rest { (who : ℕ) (xs : List (Entry D.Note D.Reply)) → (rest : List (Entry D.Note D.Reply)) × (xs ≡ own_part who xs ++ rest)
        × (entries_of who rest ≡ []) }
{}
