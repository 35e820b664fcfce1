//! That rules of records can be given.
ghost use Rattle.std.specs.Prelude.{◌+◌, ℕ, ⊤};
ghost use Rattle.actor_records.specs.Rules.{Rules};

use actor_records::{Ruled, phases_are_apart, the_walk_is_a_journal};
use column_types::Text;

/// A number that all add to, and of which nobody holds anything.
struct Adding;

impl Ruled for Adding {
    type Note = u64;

    type Reply = u64;

    type Command = u64;

    type Answer = u64;

    type Head = Text;

    ghost State = { ℕ };

    ghost Mind = { ℕ };

    ghost Held = { ℕ };

    ghost rules = { record {
      step = λ s who note. (s + note, s + note);
      holds = λ s who. s;
      told = λ m note reply. reply;
      local = λ m held command. (m, m);
      starved = λ m. m;
      Due = λ place m did. ⊤;
    } };

    ghost finished = { λ m. ⊤ };
}

#[test]
fn rules_can_be_given() {
    the_walk_is_a_journal::<Adding>();
    phases_are_apart::<u64, u64, u64, u64, Text>();
}
