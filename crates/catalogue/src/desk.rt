//! The catalogue serves one call at a time.
ghost use Rattle.std.specs.Prelude.{◌≡◌, true, false, IfOk, OnErr};
ghost use Rattle.catalogue_state.specs.State.{holds};
ghost use Rattle.catalogue_state.specs.Bound.{IsReady};
ghost use Rattle.catalogue_state.specs.Ready.{IsMadeFor};
ghost use Rattle.catalogue.specs.Response.{is_derived, IsServed, RunsOut};

use crate::response::Response;
use crate::{Ask, Call, Catalogue, Gift, Made, Reply};
use column_types::{NoMemory, Steps};
use std::alloc::Global;
use std::sync::ledger::Ledger;
use turn_hall::{Desk, Served};

/// Whether a call derives a snapshot from another one.
#[tactic(auto, unfolding(crate::specs::Response::is_derived))]
fn is_derived(ask: &Ask) -> bool
    ensures { result ≡ is_derived ask.now }
{
    match ask {
        Ask::Derive { .. } | Ask::Append { .. } => true,
        Ask::OpenSession
        | Ask::CloseSession
        | Ask::Peek { .. }
        | Ask::Place { .. }
        | Ask::Publish { .. }
        | Ask::Unpublish { .. }
        | Ask::Get { .. }
        | Ask::Checkout { .. }
        | Ask::Release { .. }
        | Ask::Columns
        | Ask::Lines => false,
    }
}

/// The response to a call that derives a snapshot.
#[tactic(auto, unfolding(crate::specs::Response::is_derived))]
fn respond_derived(
    catalogue: &mut Catalogue,
    alloc: Global,
    who: u32,
    ask: &Ask,
    made: Made,
) -> Result<Response, NoMemory>
    requires ready { IsReady catalogue.old }
    requires derived { is_derived ask.now ≡ true }
    requires made { IsMadeFor (holds catalogue.old who) ask.now made }
    ensures ok { IfOk result (IsServed catalogue.old who ask.now catalogue.new) }
    ensures err { OnErr result (catalogue.new ≡ catalogue.old) }
    ensures surely { OnErr result (RunsOut catalogue.old who ask.now) }
{
    match ask {
        Ask::Derive { name, base, how } => catalogue.derive(alloc, who, name, base, how, made),
        Ask::Append { name, changes } => catalogue.append(alloc, who, name, changes, made),
        Ask::OpenSession
        | Ask::CloseSession
        | Ask::Peek { .. }
        | Ask::Place { .. }
        | Ask::Publish { .. }
        | Ask::Unpublish { .. }
        | Ask::Get { .. }
        | Ask::Checkout { .. }
        | Ask::Release { .. }
        | Ask::Columns
        | Ask::Lines => unreachable!(),
    }
}

/// The response to a call that derives none.
#[tactic(auto, unfolding(crate::specs::Response::is_derived))]
fn respond_plain(
    catalogue: &mut Catalogue,
    alloc: Global,
    who: u32,
    ask: &Ask,
) -> Result<Response, NoMemory>
    requires ready { IsReady catalogue.old }
    requires derived { is_derived ask.now ≡ false }
    ensures ok { IfOk result (IsServed catalogue.old who ask.now catalogue.new) }
    ensures err { OnErr result (catalogue.new ≡ catalogue.old) }
    ensures surely { OnErr result (RunsOut catalogue.old who ask.now) }
{
    match ask {
        Ask::OpenSession => catalogue.open_session(alloc, who),
        Ask::CloseSession => catalogue.close_session(who),
        Ask::Peek { source } => catalogue.peek(alloc, source),
        Ask::Place {
            name,
            source,
            front,
        } => catalogue.place(alloc, who, name, source, *front),
        Ask::Publish {
            name,
            line,
            keep,
            threshold,
        } => catalogue.publish(alloc, who, name, line, *keep, *threshold),
        Ask::Unpublish { line } => catalogue.unpublish(alloc, who, line),
        Ask::Get { line, name } => catalogue.get(alloc, who, line, name),
        Ask::Checkout { name, target } => catalogue.check_out(alloc, who, name, target),
        Ask::Release { name } => catalogue.release(alloc, who, name),
        Ask::Columns => catalogue.columns(alloc),
        Ask::Lines => catalogue.list_lines(alloc),
        Ask::Derive { .. } | Ask::Append { .. } => unreachable!(),
    }
}

/// The response to a call.
fn respond(
    catalogue: &mut Catalogue,
    alloc: Global,
    who: u32,
    ask: &Ask,
    made: Made,
) -> Result<Response, NoMemory>
    requires ready { IsReady catalogue.old }
    requires made { IsMadeFor (holds catalogue.old who) ask.now made }
    ensures ok { IfOk result (IsServed catalogue.old who ask.now catalogue.new) }
    ensures err { OnErr result (catalogue.new ≡ catalogue.old) }
    ensures surely { OnErr result (RunsOut catalogue.old who ask.now) }
{
    if is_derived(ask) {
        respond_derived(catalogue, alloc, who, ask, made)
    } else {
        respond_plain(catalogue, alloc, who, ask)
    }
}

impl Desk for Catalogue {
    ghost use Rattle.std.specs.Prelude.{◌≡◌, IfOk, OnErr};
    ghost use Rattle.catalogue_state.specs.State.{State};
    ghost use Rattle.catalogue_state.specs.Step.{step};
    ghost use Rattle.catalogue_state.specs.Gift.{gift_of};
    ghost use Rattle.catalogue_state.specs.Bound.{opening};
    ghost use Rattle.catalogue_state.specs.Ready.{CanServe, MayAsk};
    ghost use Rattle.catalogue.specs.Response.{RunsOut};
    ghost use Rattle.catalogue_state.proofs.Bounds.{opening_stays};
    ghost use Rattle.catalogue_state.proofs.Ready.{asked_is_ready};

    type Call = Call;

    type Note = Ask;

    type Reply = Reply;

    type Gift = Gift;

    ghost State = { State };

    ghost state = { λ m. m };

    ghost note_of = { λ call. call.ask };

    ghost step = { step };

    ghost opening = { opening };

    ghost gives = { λ m who ask reply gift. gift ≡ gift_of m who ask reply };

    ghost may_ask = { MayAsk };

    ghost ready = { CanServe };

    ghost short = { λ m who ask before after. after ≡ before };

    /// Answers a call by `step`. It makes no column and no row, so it counts no step: what is derived comes with the call. Where memory
    /// runs out the state is as before; it does not where graphs are given up, nor where a refusal hands on no name.
    fn serve<L: Ledger>(
        &mut self,
        alloc: Global,
        who: u32,
        call: Call,
        steps: &mut Steps<L>,
    ) -> Result<Served<Ask, Reply, Gift>, NoMemory>
        requires ready { CanServe self.old who call }
        ensures note { IfOk result (λ s. s.note ≡ call.ask) }
        ensures kept { IfOk result (λ s. s.kept ≡ s.reply) }
        ensures step { IfOk result (λ s. step self.old who call.ask ≡ (s.reply, self.new)) }
        ensures gift { IfOk result (λ s. s.gift ≡ gift_of self.new who call.ask s.reply) }
        ensures short { steps.new ≡ steps.old }
        ensures err { OnErr result (self.new ≡ self.old) }
        ensures surely { OnErr result (RunsOut self.old who call.ask) }
    {
        let _ = steps;
        let Call { ask, made } = call;
        let Response { kept, reply, gift } = respond(self, alloc, who, &ask, made)?;
        Ok(Served {
            note: ask,
            kept,
            reply,
            gift,
        })
    }

    ghost keeps_opening = { opening_stays };

    ghost gets_ready = { λ m own more who call first legal short mine none may. asked_is_ready m own more who call first short mine none may };
}
