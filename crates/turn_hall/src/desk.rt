//! What answers calls, one at a time.
ghost use Rattle.std.specs.Prelude.{◌≡◌, ℕ, ◌<◌, ◌++◌, [], List, length, IfOk, OnErr};
ghost use Rattle.turn_hall.specs.declared.entry.Entry.{Entry};
ghost use Rattle.turn_hall.specs.Replay.{replay, IsLegal, entries_of, EndsWith};

use crate::entry::Served;
use column_types::{NoMemory, Steps};
use std::alloc::Global;
use std::sync::ledger::Ledger;

/// What answers calls, one at a time. It stands for a plain state, which each call that it serves leads on by one step.
pub trait Desk: Drop {
    /// A call with all that the caller hands over.
    type Call: Drop;

    /// The plain part of a call: what was asked, as data.
    type Note: Drop;

    type Reply: Drop;

    /// Shared values that are handed out beside the reply.
    type Gift: Drop;

    // What the desk stands for.
    ghost State: { Type 0 };

    ghost state: { Self → State };

    ghost note_of: { Self.Call → Self.Note };

    // The reply to a note, and the state after it.
    ghost step: { State → ℕ → Self.Note → Self.Reply × State };

    // The state before any call from which a state comes.
    ghost opening: { State → State };

    // What is handed out, read from the state after the step.
    ghost gives: { State → ℕ → Self.Note → Self.Reply → Self.Gift → Type 0 };

    // What a caller owes: of the opening state, of what it had seen up to its own last entry, and of its call.
    ghost may_ask: { State → List (Entry Self.Note Self.Reply) → Self.Call → Type 0 };

    // What the desk needs to serve a call.
    ghost ready: { State → ℕ → Self.Call → Type 0 };

    // What a turn may cost: the state and the call, and the count of steps before and after.
    ghost short: { State → ℕ → Self.Note → ℕ → ℕ → Type 0 };

    /// Answers a call of the caller `who`. Where memory runs out the state is as before.
    fn serve<L: Ledger>(
        &mut self,
        alloc: Global,
        who: u32,
        call: Self::Call,
        steps: &mut Steps<L>,
    ) -> Result<Served<Self::Note, Self::Reply, Self::Gift>, NoMemory>
        requires ready { ready (state self.old) who call }
        ensures note { IfOk result (λ s. s.note ≡ note_of call) }
        ensures kept { IfOk result (λ s. s.kept ≡ s.reply) }
        ensures step { IfOk result (λ s. step (state self.old) who (note_of call) ≡ (s.reply, state self.new)) }
        ensures gift { IfOk result (λ s. gives (state self.new) who (note_of call) s.reply s.gift) }
        ensures short { short (state self.old) who (note_of call) steps.old steps.new }
        ensures err { OnErr result (state self.new ≡ state self.old) };

    // A step leaves the state that all calls came from.
    ghost keeps_opening: { (s : State) (who : ℕ) (note : Self.Note) → opening (step s who note).1 ≡ opening s };

    // A call that may be asked is ready whenever its turn comes.
    ghost gets_ready: { (s : State) (own more : List (Entry Self.Note Self.Reply)) (who : ℕ) (call : Self.Call)
        → opening s ≡ s → IsLegal step s (own ++ more) → length (own ++ more) < 33554432 → EndsWith who own → entries_of who more ≡ []
        → may_ask s own call → ready (replay step s (own ++ more)) who call };
}
