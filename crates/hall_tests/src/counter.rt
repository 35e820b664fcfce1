//! The smallest desk, a counter that is added to.
ghost use Rattle.std.specs.Prelude.{◌+◌, ◌-◌, ◌^◌, ◌≡◌, min, refl, ⊤, ℕ};

use column_types::{NoMemory, Steps};
use std::alloc::Global;
use std::sync::ledger::Ledger;
use turn_hall::{Booked, Desk, Served};

/// It answers so many calls with out of memory before it serves one.
#[derive(Drop)]
pub struct Counter {
    pub count: u64,
    pub refusals: u64,
}

pub fn counter_at(count: u64) -> Counter
    ensures { result.count ≡ count }
{
    Counter { count, refusals: 0 }
}

impl Desk for Counter {
    type Call = u64;

    type Note = u64;

    type Reply = u64;

    type Gift = ();

    ghost State = { ℕ };

    ghost state = { λ c. c.count };

    ghost note_of = { λ by. by };

    ghost step = { λ count who by. (min (count + by) (2 ^ 64 - 1), min (count + by) (2 ^ 64 - 1)) };

    ghost opening = { λ count. 0 };

    ghost gives = { λ count who by reply gift. ⊤ };

    ghost may_ask = { λ count own by. ⊤ };

    ghost ready = { λ count who by. ⊤ };

    ghost short = { λ count who by before after. after ≡ before + 1 };

    fn serve<L: Ledger>(
        &mut self,
        _alloc: Global,
        _who: u32,
        call: u64,
        steps: &mut Steps<L>,
    ) -> Result<Served<u64, u64, ()>, NoMemory> {
        steps.tick();
        if self.refusals > 0 {
            self.refusals -= 1;
            return Err(NoMemory);
        }
        self.count = self.count.saturating_add(call);
        Ok(Served {
            note: call,
            kept: self.count,
            reply: self.count,
            gift: (),
        })
    }

    ghost keeps_opening = { λ count who by. refl };

    ghost gets_ready = { λ count own more who call first legal short mine none may. tt };
}

/// Whether a book has so many entries, each of which added one and replied its place.
pub fn counts_up_to(booked: &Booked<Counter>, count: usize) -> bool {
    let book = booked.book();
    let mut place = 0u64;
    let mut counts = book.len() == count;
    for entry in book {
        place = place.saturating_add(1);
        counts = counts && entry.note == 1 && entry.reply == place;
    }
    counts
}

/// How many entries of a number are in a book.
pub fn entries_under(booked: &Booked<Counter>, who: u32) -> u64 {
    let mut found = 0u64;
    for entry in booked.book() {
        if entry.who == who {
            found = found.saturating_add(1);
        }
    }
    found
}
