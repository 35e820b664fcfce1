//! The steps of the ticket lock, and one call in the critical section.
ghost use Rattle.std.specs.Prelude.{◌≡◌, ◌+◌, ◌<◌, ◌≤◌, ◌^◌, ◌≢◌, true, false, [], ◌∷◌, ◌++◌, length, IfOk, OnOk, OnErr, IfSome, Some, None};
ghost use Rattle.turn_hall.specs.Replay.{replay, IsLegal, entries_of, entry};
ghost use Rattle.turn_hall.specs.Queue.{not_waiting, waiting};
ghost use Rattle.turn_hall.specs.Rule.{holding, not_holding, Knows, Begins, Joined};
ghost use Rattle.turn_hall.specs.Steps.{with_ticket, with_desk, after_release, after_call, after_split, made_pass, Acquired};
ghost use Rattle.turn_hall.specs.Seen.{has, own_part, Extends};
ghost use Rattle.turn_hall.specs.Handle.{FitsDesk, book_of, IsIdle};

use crate::booked::Booked;
use crate::desk::Desk;
use crate::hall::{Answer, Hall};
use crate::rule::{
    Commit, DrawTicket, LookAtServing, Release, SplitArguments, SplitHandle, TellJoin,
};
use crate::view::View;
use atomic_table::Seat;
use column_types::{NoMemory, Steps};
use std::alloc::Global;
use std::sync::Wait;
use std::sync::ledger::{Blank, Ledger};
use std::thread;
use std::thread::Threads;

/// A client handle's seat at the table of a lock.
pub(crate) type LockSeat<D> = Seat<
    Option<Booked<D>>,
    View<D, <D as Desk>::Note, <D as Desk>::Reply>,
>;

impl<D: Desk> Hall<D> {
    fn draw_ticket(&self, seat: &mut LockSeat<D>) -> u64
        requires table { seat.old.table_id ≡ self.now }
        requires ticket { seat.old.me.0.waiter ≡ not_waiting }
        ensures table { seat.new.table_id ≡ seat.old.table_id }
        ensures me { seat.new.me ≡ (with_ticket seat.old.me.0 result, seat.old.me.1) }
    {
        self.table.shared.fetch_add::<DrawTicket>(seat, 0, 1)
    }

    /// Waits until the ticket is served. The desk is then this seat's.
    fn wait_until_served<R: Wait>(&self, rt: &R, seat: &mut LockSeat<D>, ticket: u64)
        requires table { seat.old.table_id ≡ self.now }
        requires ticket { seat.old.me.0.waiter ≡ waiting ticket }
        requires holder { seat.old.me.0.holder ≡ not_holding }
        requires live { seat.old.me.0.identity.live ≡ true }
        ensures table { seat.new.table_id ≡ seat.old.table_id }
        ensures me { Acquired (FitsDesk D.state D.step D.opening) book_of seat.old.me seat.new.me }
    {
        for _ in rt.forever() {
            if self.table.shared.load::<LookAtServing>(seat, 1) == ticket {
                return;
            }
            thread::yield_now();
        }
        unreachable!()
    }

    fn take_desk(&self, seat: &mut LockSeat<D>) -> Booked<D>
        requires table { seat.old.table_id ≡ self.now }
        requires desk { (b : _) × (seat.old.me.1 ≡ (0, Some b) ∷ []) }
        ensures table { seat.new.table_id ≡ seat.old.table_id }
        ensures desk { seat.old.me.1 ≡ (0, Some result) ∷ [] }
        ensures me { seat.new.me ≡ (seat.old.me.0, (0, None) ∷ []) }
    {
        match self.table.shared.exchange(seat, 0, None) {
            Some(booked) => booked,
            None => unreachable!(),
        }
    }

    fn put_desk(&self, seat: &mut LockSeat<D>, booked: Booked<D>)
        requires table { seat.old.table_id ≡ self.now }
        requires desk { seat.old.me.1 ≡ (0, None) ∷ [] }
        ensures table { seat.new.table_id ≡ seat.old.table_id }
        ensures me { seat.new.me ≡ (seat.old.me.0, (0, Some booked) ∷ []) }
    {
        drop(self.table.shared.exchange(seat, 0, Some(booked)));
    }

    /// Draws a ticket, waits for it, and takes the desk. Its history begins with what was seen.
    fn acquire<R: Wait>(&self, rt: &R, seat: &mut LockSeat<D>) -> Booked<D>
        requires table { seat.old.table_id ≡ self.now }
        requires idle { IsIdle seat.old.me }
        ensures table { seat.new.table_id ≡ seat.old.table_id }
        ensures me { (t : _) × (seat.new.me ≡ (with_desk (with_ticket seat.old.me.0 t) result.book, (0, None) ∷ [])) }
        ensures comes { (start : _) × (seat.old.me.0.opening ≡ Some start) × FitsDesk D.state D.step D.opening start result }
        ensures begins { Begins result.book seat.old.me.0.identity seat.old.me.0.seen }
        ensures knows { Knows seat.old.me.0.identity seat.old.me.0.identity.number }
        ensures room { 0 < seat.old.me.0.left → length result.book < 33554432 }
    {
        let ticket = self.draw_ticket(seat);
        self.wait_until_served(rt, seat, ticket);
        self.take_desk(seat)
    }

    /// The desk goes back as it came, and the next ticket is served.
    fn release(&self, seat: &mut LockSeat<D>, booked: Booked<D>)
        requires table { seat.old.table_id ≡ self.now }
        requires desk { seat.old.me.1 ≡ (0, None) ∷ [] }
        requires waiter { seat.old.me.0.waiter ≡ waiting seat.old.me.0.waiter.ticket }
        requires live { seat.old.me.0.identity.live ≡ true }
        requires holder { seat.old.me.0.holder ≡ holding booked.book }
        requires comes { (start : _) × (seat.old.me.0.opening ≡ Some start) × FitsDesk D.state D.step D.opening start booked }
        ensures table { seat.new.table_id ≡ seat.old.table_id }
        ensures me { seat.new.me ≡ (after_release seat.old.me.0, []) }
    {
        self.put_desk(seat, booked);
        self.table.shared.fetch_add::<Release>(seat, 1, 1);
    }

    /// The desk goes back with one more entry, and the next ticket is served.
    fn commit(&self, seat: &mut LockSeat<D>, booked: Booked<D>)
        requires table { seat.old.table_id ≡ self.now }
        requires desk { seat.old.me.1 ≡ (0, None) ∷ [] }
        requires waiter { seat.old.me.0.waiter ≡ waiting seat.old.me.0.waiter.ticket }
        requires live { seat.old.me.0.identity.live ≡ true }
        requires grown { (old : _) × (e : _) × (seat.old.me.0.holder ≡ holding old) × (booked.book ≡ old ++ e ∷ [])
            × (e.who ≡ seat.old.me.0.identity.number) }
        requires comes { (start : _) × (seat.old.me.0.opening ≡ Some start) × FitsDesk D.state D.step D.opening start booked }
        requires left { 0 < seat.old.me.0.left }
        ensures table { seat.new.table_id ≡ seat.old.table_id }
        ensures me { seat.new.me ≡ (after_call seat.old.me.0 booked.book, []) }
    {
        self.put_desk(seat, booked);
        self.table.shared.fetch_add::<Commit>(seat, 1, 1);
    }

    /// One call of the number `who`, in the critical section.
    pub(crate) fn call_in_turn<L: Ledger, R: Threads + Wait + Sync>(
        &self,
        rt: &R,
        alloc: Global,
        blank: Blank,
        seat: &mut LockSeat<D>,
        who: u32,
        call: D::Call,
    ) -> Result<Answer<D>, NoMemory>
        requires name { blank.name ≡ L.name }
        requires parts { blank.parts ≡ L.parts }
        requires some { 0 < blank.parts }
        requires table { seat.old.table_id ≡ self.now }
        requires idle { IsIdle seat.old.me }
        requires who { seat.old.me.0.identity.number ≡ who }
        requires left { 0 < seat.old.me.0.left }
        requires may { IfSome seat.old.me.0.opening (λ start. D.may_ask (D.state start) (own_part who seat.old.me.0.seen) call) }
        ensures table { seat.new.table_id ≡ seat.old.table_id }
        ensures history { IfOk result (λ a. Extends (Knows seat.old.me.0.identity) seat.old.me.0.seen seat.new.me.0.seen
            (entry who (D.note_of call) a.reply)) }
        ensures own { IfOk result (λ a. entries_of who seat.new.me.0.seen
            ≡ entries_of who seat.old.me.0.seen ++ entry who (D.note_of call) a.reply ∷ []) }
        ensures legal { OnOk result (IfSome seat.old.me.0.opening (λ start. IsLegal D.step (D.state start) seat.new.me.0.seen)) }
        ensures number { IfOk result (λ a. a.number ≡ length seat.new.me.0.seen) }
        ensures gift { IfOk result (λ a. IfSome seat.old.me.0.opening (λ start.
            D.gives (replay D.step (D.state start) seat.new.me.0.seen) who (D.note_of call) a.reply a.gift)) }
        ensures me { OnOk result (seat.new.me ≡ (after_call seat.old.me.0 seat.new.me.0.seen, [])) }
        ensures err { OnErr result (seat.new.me ≡ seat.old.me) }
    {
        let mut booked = self.acquire(rt, seat);
        let mut steps = Steps::<L>::new(rt, blank);
        match booked.serve(alloc, who, call, &mut steps) {
            Ok((reply, gift)) => {
                let number = booked.count();
                self.commit(seat, booked);
                Ok(Answer {
                    number,
                    reply,
                    gift,
                })
            }
            Err(fault) => {
                self.release(seat, booked);
                Err(fault)
            }
        }
    }

    /// The root makes a handle, whose number and calls the type `J` tells the rule.
    pub(crate) fn split_seat<J: SplitArguments>(
        &self,
        seat: &mut LockSeat<D>,
        who: u32,
        calls: u64,
    ) -> LockSeat<D>
        requires picked { (J.who ≡ who) × (J.calls ≡ calls) }
        requires table { seat.old.table_id ≡ self.now }
        requires root { seat.old.me.0.identity.root ≡ true }
        requires who { (who ≢ 0) × (has who seat.old.me.0.identity.out ≡ false) }
        requires calls { calls ≤ seat.old.me.0.left }
        requires made { seat.old.me.0.identity.made + 1 < 2 ^ 32 }
        ensures root { (seat.new.table_id ≡ seat.old.table_id) × (seat.new.me ≡ (after_split who calls seat.old.me.0, seat.old.me.1)) }
        ensures pass { (result.table_id ≡ seat.old.table_id) × (result.me ≡ (made_pass who calls seat.old.me.0, [])) }
    {
        self.table.shared.split_seat::<SplitHandle<J>>(seat)
    }

    /// A look after the root took in a handle, which tells what that join was.
    pub(crate) fn tell_join(&self, seat: &mut LockSeat<D>)
        requires table { seat.old.table_id ≡ self.now }
        ensures table { seat.new.table_id ≡ seat.old.table_id }
        ensures me { seat.new.me ≡ seat.old.me }
        ensures joined { Joined seat.new.me.0.last_join }
    {
        self.table.shared.load::<TellJoin>(seat, 0);
    }
}
