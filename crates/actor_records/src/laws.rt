//! What holds of the walk, and of phases.
ghost use Rattle.std.specs.Prelude.{ℕ, List, ◌<◌, ◌≤◌, IsTrue};
ghost use Rattle.turn_hall.specs.declared.entry.Entry.{Entry};
ghost use Rattle.actor_records.specs.declared.record.Record.{Record};
ghost use Rattle.actor_records.specs.declared.record.Did.{Did};
ghost use Rattle.actor_records.specs.Records.{is_core};
ghost use Rattle.actor_records.specs.Journal.{AreRecords, WalksToJournal};
ghost use Rattle.actor_records.specs.Calls.{InPhase};

/// What decides which calls actors make, and what is replied.
pub trait Ruled {
    type Note;

    type Reply;

    type Command;

    type Answer;

    type Head;

    ghost use Rattle.actor_records.specs.Rules.{Rules};

    // The shared state, what an actor has in mind, and what it holds.
    ghost State: { Type 0 };

    ghost Mind: { Type 0 };

    ghost Held: { Type 0 };

    ghost rules: { Rules State Self.Note Self.Reply Self.Command Self.Answer Self.Head Mind Held };

    // An actor with this in mind has no call left.
    ghost finished: { Mind → Type 0 };
}

/// The walk over records that agree with one legal history is a journal: one order of all calls with the replies of one
/// thread in that order, in which each actor has exactly its records.
pub fn the_walk_is_a_journal<D: Ruled>()
    ensures { (start : D.State) (minds : ℕ → D.Mind)
        (history : List (Entry D.Note D.Reply)) (records : List (List (Record D.Note D.Reply D.Command D.Answer D.Head)))
        → AreRecords D.rules start minds D.finished history records
        → WalksToJournal D.rules start minds D.finished history records }
{}

/// Where the ends of phases do not fall, each core number of a phase is less than each core number of a later phase.
pub fn phases_are_apart<N, R, C, A, T>()
    ensures { (ends : ℕ → ℕ) → ((p q : ℕ) → p ≤ q → ends p ≤ ends q)
        → (p q n k : ℕ) (did other : Did N R C A T) → p < q → IsTrue (is_core did) → IsTrue (is_core other)
        → InPhase ends p n did → InPhase ends q k other → n < k }
{}
