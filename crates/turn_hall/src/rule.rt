//! The rule of the lock's table, and the names of its steps.
ghost use Rattle.std.specs.Prelude.{ℕ};
ghost use Rattle.turn_hall.specs.Rule.{Rule};
ghost use Rattle.turn_hall.specs.Steps.{drawn, looked, released, committed, told, first_view, after_split, made_pass, after_join, spent_view};
ghost use Rattle.turn_hall.specs.Handle.{FitsDesk, book_of};

use crate::booked::Booked;
use crate::desk::Desk;
use crate::view::View;
use atomic_table::{Join, Play, Split, TableRule};
use std::marker::{Brand, PhantomData};
use std::snapshot::Snapshot;

/// What a lock starts from: the desk as it was at first, and how many calls there may be.
#[derive(Drop)]
pub(crate) struct Start<D> {
    pub calls: u64,
    pub first: Snapshot<D>,
}

/// The ticket lock's rule.
pub(crate) struct TicketLock;

impl<D: Desk> TableRule<Option<Booked<D>>, View<D, D::Note, D::Reply>, Start<D>> for TicketLock {
    ghost holds = { λ key. Rule (FitsDesk D.state D.step D.opening) book_of key.first.value key.calls };

    ghost first = { λ key. first_view key.first.value key.calls };
}

/// A ticket is drawn.
pub(crate) struct DrawTicket;

impl<D: Desk> Play<Option<Booked<D>>, View<D, D::Note, D::Reply>> for DrawTicket {
    ghost then = { drawn (FitsDesk D.state D.step D.opening) book_of };
}

/// A look at the ticket that is served. Who finds its own takes the desk.
pub(crate) struct LookAtServing;

impl<D: Desk> Play<Option<Booked<D>>, View<D, D::Note, D::Reply>> for LookAtServing {
    ghost then = { looked (FitsDesk D.state D.step D.opening) book_of };
}

/// The next ticket is served, and the desk goes back as it came.
pub(crate) struct Release;

impl<D: Desk> Play<Option<Booked<D>>, View<D, D::Note, D::Reply>> for Release {
    ghost then = { released (FitsDesk D.state D.step D.opening) book_of };
}

/// The next ticket is served, and the desk goes back with one more entry: this is the event.
pub(crate) struct Commit;

impl<D: Desk> Play<Option<Booked<D>>, View<D, D::Note, D::Reply>> for Commit {
    ghost then = { committed (FitsDesk D.state D.step D.opening) book_of };
}

/// A look that tells the root of its last join.
pub(crate) struct TellJoin;

impl<D: Desk> Play<Option<Booked<D>>, View<D, D::Note, D::Reply>> for TellJoin {
    ghost then = { told (FitsDesk D.state D.step D.opening) book_of };
}

/// The number of a new handle, and its calls. Each split picks them.
pub(crate) trait SplitArguments {
    ghost who: { ℕ };

    ghost calls: { ℕ };
}

impl SplitArguments for Brand {
    ghost who = { 0 };

    ghost calls = { 0 };
}

/// The root makes a handle.
pub(crate) struct SplitHandle<J: SplitArguments> {
    of: PhantomData<J>,
}

impl<S, N, R, J: SplitArguments> Split<View<S, N, R>> for SplitHandle<J> {
    ghost left = { after_split J.who J.calls };

    ghost right = { made_pass J.who J.calls };
}

/// The root takes in a handle.
pub(crate) struct JoinHandle;

impl<S, N, R> Join<View<S, N, R>> for JoinHandle {
    ghost both = { after_join };

    ghost spent = { spent_view };
}
