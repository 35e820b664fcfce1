//! Halls: a desk that threads call, one at a time, through passes.
ghost use Rattle.std.specs.Prelude.{◌≡◌, ℕ, ◌+◌, ◌≤◌, ◌<◌, ◌^◌, ◌≢◌, true, false, [], ◌∷◌, ◌++◌, length, IfOk, OnOk, OnErr, IfSome, IsSome, ◌⊎◌};
ghost use Rattle.turn_hall.specs.Replay.{replay, IsLegal, entries_of, entry};
ghost use Rattle.turn_hall.specs.Seen.{has, own_part, StartsWith, Extends};
ghost use Rattle.turn_hall.specs.Handle.{first_handle, called, split_root, split_pass, joined_root, KnownTo};

use crate::booked::Booked;
use crate::desk::Desk;
use crate::lock::LockSeat;
use crate::rule::{JoinHandle, Start, TicketLock};
use crate::view::View;
use atomic_table::{Refused, Table};
use column_types::NoMemory;
use std::alloc::Global;
use std::marker::{Brand, Model};
use std::snapshot::Snapshot;
use std::sync::Wait;
use std::sync::ledger::Blank;
use std::thread::Threads;

/// A desk that threads call, one at a time. Contracts see which hall it is.
#[derive(Drop)]
pub struct Hall<D: Desk> {
    pub(crate) table: Table<
        Option<Booked<D>>,
        View<D, D::Note, D::Reply>,
        Start<D>,
        TicketLock,
        Global,
    >,
}

impl<D: Desk> Model for Hall<D> {
    ghost use Rattle.std.specs.Prelude.{◌≡◌};
    ghost use Rattle.atomic_table.specs.Seated.{TableId};

    ghost Value = { TableId };

    ghost view = { λ h. h.table.shared.table_id };

    ghost invariant = { λ h. (h.table.shared.table_id.words ≡ 2) × (h.table.shared.table_id.slots ≡ 1) };
}

/// A client handle: the right to make a number of calls under one number. Contracts see its hall, its number, the calls left, and
/// the history that it has seen.
#[derive(Drop)]
pub struct Pass<D: Desk> {
    who: u32,
    seat: LockSeat<D>,
}

impl<D: Desk> Model for Pass<D> {
    ghost use Rattle.turn_hall.specs.Replay.{IsLegal};
    ghost use Rattle.turn_hall.specs.Handle.{Handle, handle_of, IsPass};

    ghost Value = { Handle D D.Note D.Reply };

    ghost view = { λ p. handle_of p.seat.table_id p.seat.me.0 };

    ghost invariant = { λ p. IsPass (λ start seen. IsLegal D.step (D.state start) seen) p.seat.me p.who };
}

impl<D: Desk> Pass<D> {
    /// What every pass keeps: it knows the desk as it was at first, what it has seen is legal from there, and the root has number 0.
    pub fn sound(&self)
        ensures opening { IsSome self.now.opening }
        ensures legal { IfSome self.now.opening (λ start. IsLegal D.step (D.state start) self.now.seen) }
        ensures root { self.now.root ≡ true → self.now.number ≡ 0 }
    {
        let _ = &self.who;
    }
}

/// A reply, and the call's place in the history, from 1.
#[derive(Drop)]
pub struct Answer<D: Desk> {
    pub number: u64,
    pub reply: D::Reply,
    pub gift: D::Gift,
}

impl<D: Desk> Hall<D> {
    /// A hall of a desk in its opening state, for so many calls in all, and its root pass.
    pub fn new(alloc: Global, desk: D, calls: u64) -> Result<(Hall<D>, Pass<D>), NoMemory>
        requires opening { D.opening (D.state desk) ≡ D.state desk }
        requires calls { calls ≤ 33554432 }
        ensures root { IfOk result (λ r. r.1 ≡ first_handle r.0 desk calls) }
    {
        let start = Start {
            calls,
            first: Snapshot::of(&desk),
        };
        let booked = Booked::new(alloc, desk);
        let mut slots = Vec::with_capacity(alloc, 1)?;
        slots.push_reserved(Some(booked));
        match Table::new(alloc, &[0, 0], slots, &start) {
            Ok((table, seat)) => Ok((Hall { table }, Pass { who: 0, seat })),
            Err(Refused { slots: _ }) => Err(NoMemory),
        }
    }

    /// One call. There is one legal history that begins with all that the pass had seen and ends with this call, and of the pass's
    /// number it has one entry more than the pass had seen. The pass has then seen it. It may wait for the calls of others.
    pub fn call<R: Threads + Wait + Sync>(
        &self,
        rt: &R,
        alloc: Global,
        pass: &mut Pass<D>,
        call: D::Call,
    ) -> Result<Answer<D>, NoMemory>
        requires hall { pass.old.hall ≡ self.now }
        requires left { 0 < pass.old.left }
        requires may { IfSome pass.old.opening (λ start. D.may_ask (D.state start) (own_part pass.old.number pass.old.seen) call) }
        ensures history { IfOk result (λ a. Extends (KnownTo pass.old) pass.old.seen pass.new.seen
            (entry pass.old.number (D.note_of call) a.reply)) }
        ensures own { IfOk result (λ a. entries_of pass.old.number pass.new.seen
            ≡ entries_of pass.old.number pass.old.seen ++ entry pass.old.number (D.note_of call) a.reply ∷ []) }
        ensures legal { OnOk result (IfSome pass.old.opening (λ start. IsLegal D.step (D.state start) pass.new.seen)) }
        ensures number { IfOk result (λ a. a.number ≡ length pass.new.seen) }
        ensures gift { IfOk result (λ a. IfSome pass.old.opening (λ start.
            D.gives (replay D.step (D.state start) pass.new.seen) pass.old.number (D.note_of call) a.reply a.gift)) }
        ensures pass { OnOk result (pass.new ≡ called pass.new.seen pass.old) }
        ensures err { OnErr result (pass.new ≡ pass.old) }
    {
        let who = pass.who;
        self.call_in_turn::<Brand, R>(rt, alloc, Blank::new(1), &mut pass.seat, who, call)
    }

    /// A pass of the number `who` with so many of the root's calls. It has seen what the root has seen.
    pub fn split(&self, root: &mut Pass<D>, who: u32, calls: u64) -> Pass<D>
        requires hall { root.old.hall ≡ self.now }
        requires root { root.old.root ≡ true }
        requires positive { who ≢ 0 }
        requires free { has who root.old.out ≡ false }
        requires calls { calls ≤ root.old.left }
        requires made { root.old.made + 1 < 2 ^ 32 }
        ensures root { root.new ≡ split_root who calls root.old }
        ensures pass { result ≡ split_pass who calls root.old }
    {
        let seat = self.split_seat::<Brand>(&mut root.seat, who, calls);
        Pass { who, seat }
    }

    /// The root takes in a pass. One of the two histories that they had seen begins the other, and the root has then seen the longer
    /// one. It has no entry of the pass's number that the pass had not seen, nor one of a number of which no pass is out that the root
    /// had not seen.
    pub fn join(&self, root: &mut Pass<D>, pass: Pass<D>)
        requires hall { root.old.hall ≡ self.now }
        requires pass_hall { pass.hall ≡ self.now }
        requires root { root.old.root ≡ true }
        requires pass { pass.root ≡ false }
        ensures root { root.new ≡ joined_root root.old pass }
        ensures begins { StartsWith root.old.seen pass.seen ⊎ StartsWith pass.seen root.old.seen }
        ensures its { entries_of pass.number root.new.seen ≡ entries_of pass.number pass.seen }
        ensures others { (k : ℕ) → has k root.old.out ≡ false → entries_of k root.new.seen ≡ entries_of k root.old.seen }
    {
        let Pass { who: _, seat } = pass;
        self.table
            .shared
            .join_seat::<JoinHandle>(&mut root.seat, seat);
        self.tell_join(&mut root.seat);
    }

    /// The desk with its book, which is what the root has seen, where every pass was joined.
    pub fn close(self, root: Pass<D>) -> Booked<D>
        requires hall { root.hall ≡ self }
        requires root { root.root ≡ true }
        requires joined { root.out ≡ [] }
        ensures book { result.book ≡ root.seen }
        ensures opening { IfSome root.opening (λ start. D.opening (D.state result.desk) ≡ D.state start) }
    {
        let Hall { table } = self;
        let Pass { who: _, seat } = root;
        let mut closed = table.close_with(seat);
        let slot = closed.take(0);
        closed.free();
        match slot {
            Some(booked) => booked,
            None => unreachable!(),
        }
    }
}
