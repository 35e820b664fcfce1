//! A desk that one thread calls.
ghost use Rattle.std.specs.Prelude.{◌≡◌, ◌<◌, [], ◌∷◌, ◌++◌, IfOk, OnErr};
ghost use Rattle.turn_hall.specs.Replay.{replay, IsLegal, entry};
ghost use Rattle.turn_hall.specs.OneThread.{RepliesAreSteps};

use crate::booked::Booked;
use crate::desk::Desk;
use crate::entry::Entry;
use column_types::{NoMemory, Steps};
use std::alloc::Global;
use std::marker::{Brand, Model};
use std::sync::ledger::{Blank, Ledger};
use std::thread::Threads;

/// A desk with the book of its calls, all made by one thread. Contracts see both. The desk is lent for reading alone, so every call that
/// it serves is in the book.
#[derive(Drop)]
pub struct OneThread<D: Desk> {
    booked: Booked<D>,
}

impl<D: Desk> Model for OneThread<D> {
    ghost use Rattle.turn_hall.specs.Handle.{DeskHistory};

    ghost Value = { DeskHistory D D.Note D.Reply };

    ghost view = { λ o. o.booked };
}

impl<D: Desk> OneThread<D> {
    /// A desk in its opening state, which has served no call.
    pub fn new(alloc: Global, desk: D) -> OneThread<D>
        requires opening { D.opening (D.state desk) ≡ D.state desk }
        ensures { result ≡ record { desk = desk; book = [] } }
    {
        OneThread {
            booked: Booked::new(alloc, desk),
        }
    }

    /// Makes a call of the caller `who`. It is one step, and one entry more in the book. Where memory runs out it is not made, and state
    /// and book are as before.
    pub fn call<R: Threads + Sync>(
        &mut self,
        rt: &R,
        alloc: Global,
        who: u32,
        call: D::Call,
    ) -> Result<(D::Reply, D::Gift), NoMemory>
        requires ready { D.ready (D.state self.old.desk) who call }
        ensures opening { D.opening (D.state self.new.desk) ≡ D.opening (D.state self.old.desk) }
        ensures book { IfOk result (λ r. self.new.book ≡ self.old.book ++ entry who (D.note_of call) r.0 ∷ []) }
        ensures step { IfOk result (λ r. D.step (D.state self.old.desk) who (D.note_of call) ≡ (r.0, D.state self.new.desk)) }
        ensures gift { IfOk result (λ r. D.gives (D.state self.new.desk) who (D.note_of call) r.0 r.1) }
        ensures err { OnErr result ((self.new.book ≡ self.old.book) × (D.state self.new.desk ≡ D.state self.old.desk)) }
    {
        self.call_by_counter::<Brand, R>(rt, alloc, Blank::new(1), who, call)
    }

    /// Makes a call by a counter of steps that nobody reads.
    fn call_by_counter<L: Ledger, R: Threads + Sync>(
        &mut self,
        rt: &R,
        alloc: Global,
        blank: Blank,
        who: u32,
        call: D::Call,
    ) -> Result<(D::Reply, D::Gift), NoMemory>
        requires name { blank.name ≡ L.name }
        requires parts { blank.parts ≡ L.parts }
        requires some { 0 < blank.parts }
        requires ready { D.ready (D.state self.old.desk) who call }
        ensures opening { D.opening (D.state self.new.desk) ≡ D.opening (D.state self.old.desk) }
        ensures book { IfOk result (λ r. self.new.book ≡ self.old.book ++ entry who (D.note_of call) r.0 ∷ []) }
        ensures step { IfOk result (λ r. D.step (D.state self.old.desk) who (D.note_of call) ≡ (r.0, D.state self.new.desk)) }
        ensures gift { IfOk result (λ r. D.gives (D.state self.new.desk) who (D.note_of call) r.0 r.1) }
        ensures err { OnErr result ((self.new.book ≡ self.old.book) × (D.state self.new.desk ≡ D.state self.old.desk)) }
    {
        let mut steps = Steps::<L>::new(rt, blank);
        self.booked.serve(alloc, who, call, &mut steps)
    }

    /// The calls made so far, with their replies, in order.
    pub fn book(&self) -> &[Entry<D::Note, D::Reply>]
        ensures { result.now ≡ self.now.book }
    {
        self.booked.book()
    }

    /// The desk, in the state after all calls.
    pub fn desk(&self) -> &D
        ensures { result.now ≡ self.now.desk }
    {
        self.booked.desk()
    }

    /// What one thread's calls keep: they begin in an opening state, the reply to each is the step's in the state after the calls
    /// before it, and they lead to the desk's state.
    pub fn sound(&self)
        ensures opening { D.opening (D.opening (D.state self.now.desk)) ≡ D.opening (D.state self.now.desk) }
        ensures replies { RepliesAreSteps D.step (D.opening (D.state self.now.desk)) self.now.book }
        ensures legal { IsLegal D.step (D.opening (D.state self.now.desk)) self.now.book }
        ensures state { replay D.step (D.opening (D.state self.now.desk)) self.now.book ≡ D.state self.now.desk }
    {
        self.booked.sound();
    }
}
