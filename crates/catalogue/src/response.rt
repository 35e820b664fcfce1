//! How a call ends.
ghost use Rattle.std.specs.Prelude.{◌≡◌, IfOk, OnErr};
ghost use Rattle.catalogue_state.specs.declared.reply.Refusal.TheVariants.{NoSource, NameTaken, NoName, NotPrivate, LineTaken, NoLine, NotOwner, Sourced, NotPinned};
ghost use Rattle.catalogue.specs.Response.{TellsRefusal, IsRefusal, RefusalTakesMemory, done_response, told_response, sid_response};

use crate::{Gift, Refusal, Reply, Snap};
use column_types::{NoMemory, Shared, Text};
use std::alloc::Global;

/// A reply with a copy of it for the book, and what is handed out beside it.
#[derive(Drop)]
pub(crate) struct Response {
    pub(crate) kept: Reply,
    pub(crate) reply: Reply,
    pub(crate) gift: Gift,
}

/// Why a call does not go on.
#[derive(Drop)]
pub(crate) enum Fault {
    Refused(Refusal),
    NoMemory,
}

impl From<NoMemory> for Fault {
    ghost use Rattle.catalogue.specs.declared.response.Fault.TheVariants.{NoMemory};

    ghost from_gives = { λ _ e. e ≡ NoMemory };

    fn from(_error: NoMemory) -> Fault {
        Fault::NoMemory
    }
}

/// Tells that a call was done. It takes no memory.
pub(crate) fn done() -> Response
    ensures { result ≡ done_response }
{
    Response {
        kept: Reply::Done,
        reply: Reply::Done,
        gift: Gift::Nothing,
    }
}

/// Tells the id of a snapshot that came, and hands nothing out. It takes no memory.
pub(crate) fn told(sid: u64) -> Response
    ensures { result ≡ told_response sid }
{
    Response {
        kept: Reply::Sid(sid),
        reply: Reply::Sid(sid),
        gift: Gift::Nothing,
    }
}

/// Tells the id of a snapshot that came, and hands it out. It takes no memory.
pub(crate) fn came(snap: Shared<Snap>) -> Response
    ensures { result ≡ sid_response snap }
{
    let sid = snap.get().sid;
    Response {
        kept: Reply::Sid(sid),
        reply: Reply::Sid(sid),
        gift: Gift::Snap(snap),
    }
}

/// A copy of a refusal. Only a name takes memory.
fn copied(refusal: &Refusal) -> Result<Refusal, NoMemory>
    ensures ok { IfOk result (λ copy. copy ≡ refusal.now) }
    ensures err { OnErr result (RefusalTakesMemory refusal.now) }
{
    Ok(match refusal {
        Refusal::TooBig => Refusal::TooBig,
        Refusal::BadRow(row, cause) => Refusal::BadRow(*row, *cause),
        Refusal::BadChange(place, why) => Refusal::BadChange(*place, *why),
        Refusal::MixedEnds(name) => Refusal::MixedEnds(name.clone()?),
        Refusal::KeysSpent => Refusal::KeysSpent,
        Refusal::SessionsFull => Refusal::SessionsFull,
        Refusal::NoSource(name) => Refusal::NoSource(name.clone()?),
        Refusal::NameTaken(name) => Refusal::NameTaken(name.clone()?),
        Refusal::GraphsFull => Refusal::GraphsFull,
        Refusal::NoName(name) => Refusal::NoName(name.clone()?),
        Refusal::NotPrivate(name) => Refusal::NotPrivate(name.clone()?),
        Refusal::LineTaken(name) => Refusal::LineTaken(name.clone()?),
        Refusal::LinesFull => Refusal::LinesFull,
        Refusal::NoLine(name) => Refusal::NoLine(name.clone()?),
        Refusal::NotOwner(name) => Refusal::NotOwner(name.clone()?),
        Refusal::NoSnapshot(sid) => Refusal::NoSnapshot(*sid),
        Refusal::Sourced(name) => Refusal::Sourced(name.clone()?),
        Refusal::NotLatest(sid) => Refusal::NotLatest(*sid),
        Refusal::NotVisible(front) => Refusal::NotVisible(*front),
        Refusal::NotPinned(name) => Refusal::NotPinned(name.clone()?),
        Refusal::NotOpen => Refusal::NotOpen,
        Refusal::AlreadyOpen => Refusal::AlreadyOpen,
    })
}

/// Tells the refusal, of which the book gets a copy.
pub(crate) fn refused(fault: Fault) -> Result<Response, NoMemory>
    ensures { TellsRefusal fault result }
{
    match fault {
        Fault::Refused(refusal) => Ok(Response {
            kept: Reply::Refused(copied(&refusal)?),
            reply: Reply::Refused(refusal),
            gift: Gift::Nothing,
        }),
        Fault::NoMemory => Err(NoMemory),
    }
}

/// The refusal that hands on the name of a source.
pub(crate) fn no_source(alloc: Global, name: &Text) -> Fault
    ensures { IsRefusal (NoSource name.now) result }
{
    match Text::from_str(alloc, name.as_str()) {
        Ok(name) => Fault::Refused(Refusal::NoSource(name)),
        Err(_) => Fault::NoMemory,
    }
}

/// The refusal that hands on a name that is taken.
pub(crate) fn name_taken(alloc: Global, name: &Text) -> Fault
    ensures { IsRefusal (NameTaken name.now) result }
{
    match Text::from_str(alloc, name.as_str()) {
        Ok(name) => Fault::Refused(Refusal::NameTaken(name)),
        Err(_) => Fault::NoMemory,
    }
}

/// The refusal that hands on a name that no graph has.
pub(crate) fn no_name(alloc: Global, name: &Text) -> Fault
    ensures { IsRefusal (NoName name.now) result }
{
    match Text::from_str(alloc, name.as_str()) {
        Ok(name) => Fault::Refused(Refusal::NoName(name)),
        Err(_) => Fault::NoMemory,
    }
}

/// The refusal that hands on the name of a pin.
pub(crate) fn not_private(alloc: Global, name: &Text) -> Fault
    ensures { IsRefusal (NotPrivate name.now) result }
{
    match Text::from_str(alloc, name.as_str()) {
        Ok(name) => Fault::Refused(Refusal::NotPrivate(name)),
        Err(_) => Fault::NoMemory,
    }
}

/// The refusal that hands on the name of a published graph.
pub(crate) fn line_taken(alloc: Global, name: &Text) -> Fault
    ensures { IsRefusal (LineTaken name.now) result }
{
    match Text::from_str(alloc, name.as_str()) {
        Ok(name) => Fault::Refused(Refusal::LineTaken(name)),
        Err(_) => Fault::NoMemory,
    }
}

/// The refusal that hands on a name that no published graph has.
pub(crate) fn no_line(alloc: Global, name: &Text) -> Fault
    ensures { IsRefusal (NoLine name.now) result }
{
    match Text::from_str(alloc, name.as_str()) {
        Ok(name) => Fault::Refused(Refusal::NoLine(name)),
        Err(_) => Fault::NoMemory,
    }
}

/// The refusal that hands on the name of a published graph of another caller.
pub(crate) fn not_owner(alloc: Global, name: &Text) -> Fault
    ensures { IsRefusal (NotOwner name.now) result }
{
    match Text::from_str(alloc, name.as_str()) {
        Ok(name) => Fault::Refused(Refusal::NotOwner(name)),
        Err(_) => Fault::NoMemory,
    }
}

/// The refusal that hands on the name of a published graph that has a source.
pub(crate) fn sourced(alloc: Global, name: &Text) -> Fault
    ensures { IsRefusal (Sourced name.now) result }
{
    match Text::from_str(alloc, name.as_str()) {
        Ok(name) => Fault::Refused(Refusal::Sourced(name)),
        Err(_) => Fault::NoMemory,
    }
}

/// The refusal that hands on the name of a graph that is no pin.
pub(crate) fn not_pinned(alloc: Global, name: &Text) -> Fault
    ensures { IsRefusal (NotPinned name.now) result }
{
    match Text::from_str(alloc, name.as_str()) {
        Ok(name) => Fault::Refused(Refusal::NotPinned(name)),
        Err(_) => Fault::NoMemory,
    }
}
