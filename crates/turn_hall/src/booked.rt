//! A desk with the history of its calls.
ghost use Rattle.std.specs.Prelude.{◌≡◌, ◌⊎◌, ◌++◌, ◌∷◌, [], IfOk, OnOk, OnErr, length};
ghost use Rattle.turn_hall.specs.Replay.{replay, IsLegal, entry};

use crate::desk::Desk;
use crate::entry::{Entry, Served};
use column_types::{NoMemory, Steps};
use std::alloc::Global;
use std::marker::Model;
use std::sync::ledger::Ledger;

/// A desk with its book, the list of the calls that it served. Contracts see both. Replaying the book from the opening state
/// gives the replies and the state.
#[derive(Drop)]
pub struct Booked<D: Desk> {
    desk: D,
    book: Vec<Entry<D::Note, D::Reply>>,
}

impl<D: Desk> Model for Booked<D> {
    ghost use Rattle.turn_hall.specs.Handle.{DeskHistory, IsHistoryOf};

    ghost Value = { DeskHistory D D.Note D.Reply };

    ghost view = { λ b. record { desk = b.desk; book = b.book.items } };

    ghost invariant = { λ b. IsHistoryOf D.step D.opening (D.state b.desk) b.book.items };
}

impl<D: Desk> Booked<D> {
    /// A desk in its opening state, which has served no call.
    pub(crate) fn new(alloc: Global, desk: D) -> Booked<D>
        requires opening { D.opening (D.state desk) ≡ D.state desk }
        ensures { result ≡ record { desk = desk; book = [] } }
    {
        Booked {
            desk,
            book: Vec::new(alloc),
        }
    }

    /// The calls that were served, in order.
    pub fn book(&self) -> &[Entry<D::Note, D::Reply>]
        ensures { result.now ≡ self.now.book }
    {
        self.book.as_slice()
    }

    pub(crate) fn desk(&self) -> &D
        ensures { result.now ≡ self.now.desk }
    {
        &self.desk
    }

    /// What every book keeps: it is legal from the opening state, and leads to the desk's state.
    pub fn sound(&self)
        ensures legal { IsLegal D.step (D.opening (D.state self.now.desk)) self.now.book }
        ensures state { replay D.step (D.opening (D.state self.now.desk)) self.now.book ≡ D.state self.now.desk }
    {
        let _ = &self.book;
    }

    pub(crate) fn count(&self) -> u64
        ensures { result ≡ length self.now.book }
    {
        self.book.len() as u64
    }

    /// Serves one call, which is one entry, or none where memory runs out. The entry's place is made before the desk works. The
    /// steps are those that the desk counts; where memory runs out before the desk works there are none.
    pub(crate) fn serve<L: Ledger>(
        &mut self,
        alloc: Global,
        who: u32,
        call: D::Call,
        steps: &mut Steps<L>,
    ) -> Result<(D::Reply, D::Gift), NoMemory>
        requires ready { D.ready (D.state self.old.desk) who call }
        ensures book { IfOk result (λ r. self.new.book ≡ self.old.book ++ entry who (D.note_of call) r.0 ∷ []) }
        ensures step { IfOk result (λ r. D.step (D.state self.old.desk) who (D.note_of call) ≡ (r.0, D.state self.new.desk)) }
        ensures gift { IfOk result (λ r. D.gives (D.state self.new.desk) who (D.note_of call) r.0 r.1) }
        ensures short { OnOk result (D.short (D.state self.old.desk) who (D.note_of call) steps.old steps.new) }
        ensures err { OnErr result ((self.new.book ≡ self.old.book) × (D.state self.new.desk ≡ D.state self.old.desk)) }
        ensures tried { OnErr result ((steps.new ≡ steps.old) ⊎ D.short (D.state self.old.desk) who (D.note_of call) steps.old steps.new) }
    {
        self.book.reserve(1)?;
        let served = self.desk.serve(alloc, who, call, steps)?;
        let Served {
            note,
            kept,
            reply,
            gift,
        } = served;
        self.book.push_reserved(Entry {
            who,
            note,
            reply: kept,
        });
        Ok((reply, gift))
    }
}
