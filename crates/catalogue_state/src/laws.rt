//! Laws of the catalogue's histories, in words of their own.
ghost use Rattle.std.specs.Prelude.{◌≡◌, ◌≢◌, ℕ, ◌<◌, ◌++◌, ◌↔◌, [], List as Items, Option as Optional, Contains};
ghost use Rattle.std.specs.List.Sorted.{IsStrictlyIncreasing};
ghost use Rattle.turn_hall.specs.declared.entry.Entry.{Entry};
ghost use Rattle.turn_hall.specs.Replay.{replay, entries_of};
ghost use Rattle.catalogue_state.specs.declared.ask.Ask.{Ask as AnAsk};
ghost use Rattle.catalogue_state.specs.declared.reply.Reply.{Reply as AReply};
ghost use Rattle.catalogue_state.specs.declared.reply.Reply.TheVariants.{Refused};
ghost use Rattle.catalogue_state.specs.declared.reply.Refusal.{Refusal as ARefusal};
ghost use Rattle.catalogue_state.specs.declared.parts.Snap.{Snap as ASnap};
ghost use Rattle.catalogue_state.specs.State.{Name, State, holds, roots, reach, count};
ghost use Rattle.catalogue_state.specs.Step.{step};
ghost use Rattle.catalogue_state.specs.Bound.{opening};
ghost use Rattle.catalogue_state.specs.Law.{sid_sources, HasPrefixes};

/// A refused call leaves the state.
pub fn refusals_leave_the_state()
    ensures { (m : State) (who : ℕ) (ask : AnAsk) (r : ARefusal) → (step m who ask).0 ≡ Refused r → (step m who ask).1 ≡ m }
{}

/// What a caller holds changes by its own calls alone.
pub fn held_changes_by_its_own_calls()
    ensures one { (m : State) (who other : ℕ) (ask : AnAsk) → other ≢ who → holds (step m other ask).1 who ≡ holds m who }
    ensures all { (m : State) (who : ℕ) (es : Items (Entry AnAsk AReply)) → entries_of who es ≡ [] → holds (replay step m es) who ≡ holds m who }
{}

/// An id names one snapshot, which never changes, in a history and in all that begin with it. The published graphs and the
/// private graphs that have the snapshot of an id have one and the same source, or all none.
pub fn an_id_names_one_snapshot()
    ensures snapshot { (m : State) (es more : Items (Entry AnAsk AReply)) (a b : ASnap) → opening m ≡ m
        → Contains (roots (replay step m es)) a → Contains (roots (replay step m (es ++ more))) b → a.sid ≡ b.sid → a ≡ b }
    ensures source { (m : State) (es more : Items (Entry AnAsk AReply)) (sid : ℕ) (x y : Optional Name) → opening m ≡ m
        → Contains (sid_sources (replay step m es)) (sid, x) → Contains (sid_sources (replay step m (es ++ more))) (sid, y) → x ≡ y }
{}

/// A graph that was placed from a source, and a snapshot of a published graph with a source, is the source's opening graph
/// with its first changes applied, as many as the snapshot's front.
pub fn a_front_is_a_prefix()
    ensures { (m : State) (es : Items (Entry AnAsk AReply)) → opening m ≡ m → HasPrefixes (replay step m es) }
{}

/// The list of the columns in use rises, and has a number exactly where some snapshot in use has it.
pub fn the_columns_in_use_are_listed()
    ensures rises { (m : State) → IsStrictlyIncreasing (reach m) }
    ensures used { (m : State) (c : ℕ) → Contains (reach m) c ↔ (0 < count m c) }
{}
