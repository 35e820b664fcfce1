//! The catalogue.
ghost use Rattle.std.specs.Prelude.{◌≡◌, ℕ, ◌+◌, ◌≤◌, ◌<◌, ◌^◌, IfOk, OnOk, OnErr, IsTrue, ◌↔◌, length, map, find, Some, None, position, Contains, []};
ghost use Rattle.std.specs.Option.{option_copied};
ghost use Rattle.std.specs.List.{All, range_with_len};
ghost use Rattle.graph_slots.specs.Slots.{slots};
ghost use Rattle.catalogue_state.specs.declared.ask.Ask.{Ask};
ghost use Rattle.catalogue_state.specs.declared.parts.Session.{Session as SessionData};
ghost use Rattle.catalogue_state.specs.declared.reply.Reply.TheVariants.{Sid, Done};
ghost use Rattle.catalogue_state.specs.State.{named, of_who, session_of, source_of, line_of, holds, change_first, roots, drop_first, reach, count};
ghost use Rattle.catalogue_state.specs.Step.{step, hold_more, let_go, placed, private_graph, drawn, with_one_more, without_session, with_session};
ghost use Rattle.catalogue_state.specs.Bound.{unfed, opened, HasSmall, IsReady, NamesDiffer};
ghost use Rattle.catalogue_state.specs.Ready.{IsMadeFor};
ghost use Rattle.catalogue.specs.Kept.{IsKept, MayHold};
ghost use Rattle.column_reclaim.specs.Registry.{ids_of, count_of};
ghost use Rattle.catalogue_state.specs.declared.parts.Snap.{Snap as SnapData};
ghost use Rattle.catalogue.specs.Registry.{Comes, HasParts};
ghost use Rattle.catalogue.specs.Response.{IsServed, RunsOut, Tests, TestsSurely, sid_response};

use crate::arrivals::Coming;
use crate::columns::{count_columns, listed, release_graphs, release_snap, shared_parts};
use crate::lines::Lines;
use crate::response::{Fault, Response, came, done, name_taken, no_name, no_source, refused};
use crate::sessions::{Sessions, held_as};
use crate::sources::Sources;
use crate::{Gift, Held, Hold, How, Line, Made, Refusal, Reply, Session, Snap, Source, SourceData};
use column_reclaim::{Registry, RegistryRow};
use column_types::{List, NoMemory, Shared, Text};
use graph_slots::Part;
use std::alloc::Global;
use std::marker::Model;

/// The most open sessions.
const MOST_SESSIONS: usize = 64;

/// The most graphs of a session.
pub(crate) const MOST_HELD: usize = 256;

/// The sources, the published graphs and the sessions with the graphs that they hold. What it keeps is `IsKept`.
#[derive(Drop)]
pub struct Catalogue {
    pub(crate) sources: Sources,
    pub(crate) lines: Lines,
    pub(crate) sessions: Sessions,
    pub(crate) next_sid: u64,
    pub(crate) next_column: u64,
    pub(crate) registry: Registry<Part>,
}

impl Model for Catalogue {
    ghost use Rattle.catalogue_state.specs.State.{State};
    ghost use Rattle.catalogue_state.specs.State.{roots_of};
    ghost use Rattle.catalogue.specs.Kept.{IsKept};
    ghost use Rattle.catalogue.specs.Registry.{IsRegistry};

    ghost Value = { State };

    ghost view = { λ c. record { sources = c.sources; lines = c.lines; sessions = c.sessions; next_sid = c.next_sid; next_column = c.next_column } };

    ghost invariant = { λ c. record {
      kept : IsKept (record { sources = c.sources; lines = c.lines; sessions = c.sessions; next_sid = c.next_sid; next_column = c.next_column });
      registry : IsRegistry c.registry.rows (roots_of c.lines c.sessions);
    } };
}

/// So many numbers from the first on.
fn numbers(alloc: Global, first: u64, count: u32) -> Result<List<u64>, NoMemory>
    requires { first + count < 2 ^ 64 }
    ensures { IfOk result (λ made. made ≡ range_with_len first count) }
{
    let mut made = List::new(alloc);
    for place in 0..count {
        made.push(first + place as u64)?;
    }
    Ok(made)
}

/// A graph that a session holds for itself.
fn private(alloc: Global, name: &Text, source: Option<&Text>, snap: Snap) -> Result<Held, NoMemory>
    ensures { IfOk result (λ held. held ≡ private_graph name.now (option_copied source.entry) snap) }
{
    let name = Text::from_str(alloc, name.as_str())?;
    let source = match source {
        Some(source) => Some(Text::from_str(alloc, source.as_str())?),
        None => None,
    };
    Ok(Held {
        name,
        hold: Hold::Private(source),
        snap: Shared::new(alloc, snap)?,
    })
}

impl Catalogue {
    /// The catalogue of these sources, with no session and none of their changes to be seen.
    pub fn new(alloc: Global, sources: List<Shared<SourceData>>) -> Result<Catalogue, NoMemory>
        requires { NamesDiffer sources }
        ensures opened { IfOk result (λ c. c ≡ opened sources) }
        ensures small { OnOk result (HasSmall (opened sources)) }
    {
        let sources = Sources::unfed(alloc, sources.as_slice())?;
        Ok(Catalogue {
            sources,
            lines: Lines::new(alloc),
            sessions: Sessions::new(alloc),
            next_sid: 1,
            next_column: 1,
            registry: Registry::new(alloc),
        })
    }

    /// Tells a proof what every catalogue keeps.
    pub fn sound(&self)
        ensures { IsKept self.now }
    {
        let _ = &self.sessions;
    }

    /// Whether there are numbers left for one more snapshot and its columns, as there are at each of the first 33,554,432 calls.
    pub fn is_ready(&self) -> bool
        ensures { IsTrue result ↔ IsReady self.now }
    {
        self.next_sid <= 33_554_432 && self.next_column <= 2208 * self.next_sid
    }

    /// The session of the caller.
    pub(crate) fn session(&self, who: u32) -> Option<&Session>
        ensures { option_copied result ≡ session_of self.now who }
    {
        self.sessions.of(who)
    }

    /// The source of that name.
    fn source(&self, name: &Text) -> Option<&Source>
        ensures { option_copied result ≡ source_of self.now name.now }
    {
        self.sources.named(name)
    }

    /// The published graph of that name.
    pub(crate) fn line(&self, name: &Text) -> Option<&Line>
        ensures { option_copied result ≡ line_of self.now name.now }
    {
        self.lines.named(name)
    }

    // ---- sessions

    #[tactic(auto, unfolding(catalogue_state::specs::Step::unless))]
    fn test_open(&self, who: u32) -> Result<(), Refusal>
        ensures room { OnOk result (length self.now.sessions < 64) }
        ensures new { OnOk result (session_of self.now who ≡ None) }
        ensures tests { TestsSurely self.now (step self.now who Ask.OpenSession) (λ _. (Done, with_one_more self.now who)) result }
    {
        if self.session(who).is_some() {
            return Err(Refusal::AlreadyOpen);
        }
        if self.sessions.len() >= MOST_SESSIONS {
            return Err(Refusal::SessionsFull);
        }
        Ok(())
    }

    pub(crate) fn open_session(&mut self, alloc: Global, who: u32) -> Result<Response, NoMemory>
        ensures ok { IfOk result (IsServed self.old who Ask.OpenSession self.new) }
        ensures err { OnErr result (self.new ≡ self.old) }
        ensures surely { OnErr result (RunsOut self.old who Ask.OpenSession) }
    {
        match self.test_open(who) {
            Ok(()) => {
                self.sessions.open(alloc, who)?;
                Ok(done())
            }
            Err(refusal) => refused(Fault::Refused(refusal)),
        }
    }

    #[tactic(auto, unfolding(catalogue_state::specs::Step::given))]
    fn test_close(&self, who: u32) -> Result<(), Refusal>
        ensures { TestsSurely self.now (step self.now who Ask.CloseSession) (λ _. (Done, without_session self.now who)) result }
    {
        if self.session(who).is_none() {
            return Err(Refusal::NotOpen);
        }
        Ok(())
    }

    pub(crate) fn close_session(&mut self, who: u32) -> Result<Response, NoMemory>
        ensures ok { IfOk result (IsServed self.old who Ask.CloseSession self.new) }
        ensures err { OnErr result (self.new ≡ self.old) }
        ensures surely { OnErr result (RunsOut self.old who Ask.CloseSession) }
    {
        match self.test_close(who) {
            Ok(()) => {
                if let Some(session) = self.sessions.close(who) {
                    release_graphs(&mut self.registry, session.held.as_slice());
                }
                Ok(done())
            }
            Err(refusal) => refused(Fault::Refused(refusal)),
        }
    }

    // ---- sources

    #[tactic(auto, unfolding(catalogue_state::specs::Step::given))]
    pub(crate) fn peek(&self, alloc: Global, source: &Text) -> Result<Response, NoMemory>
        ensures ok { IfOk result (λ r. (who : ℕ) → IsServed self.now who (Ask.Peek source.now) self.now r) }
        ensures surely { OnErr result ((who : ℕ) → RunsOut self.now who (Ask.Peek source.now)) }
    {
        match self.source(source) {
            Some(from) => {
                let gift = from.data.share()?;
                Ok(Response {
                    kept: Reply::Front(from.visible),
                    reply: Reply::Front(from.visible),
                    gift: Gift::Source(gift),
                })
            }
            None => refused(no_source(alloc, source)),
        }
    }

    // ---- graphs that come

    /// The snapshot of a source's graph. No change of it is to be seen yet, so it shares the opening graph, under new numbers.
    fn placed(&self, alloc: Global, from: &Source, front: u64) -> Result<Snap, NoMemory>
        requires ready { IsReady self.now }
        requires from { Contains self.now.sources from.now }
        requires front { front ≤ from.now.visible }
        ensures snap { IfOk result (λ snap. snap ≡ placed self.now from.now front) }
        ensures few { IfOk result (λ snap. length snap.columns ≤ 2208) }
    {
        let opening = &from.data.get().opening;
        let count = opening.slot_count();
        Ok(Snap {
            sid: self.next_sid,
            front,
            shot: opening.share(alloc)?,
            columns: numbers(alloc, self.next_column, count)?,
        })
    }

    /// Tests whether a graph may be placed, and makes its snapshot.
    #[tactic(auto, unfolding(catalogue_state::specs::Step::given, catalogue_state::specs::Step::unless))]
    fn snap_to_place(
        &self,
        alloc: Global,
        who: u32,
        name: &Text,
        source: &Text,
        front: u64,
    ) -> Result<Snap, Fault>
        requires { IsReady self.now }
        ensures tests { Tests self.now (step self.now who (Ask.Place name.now source.now front)) (λ snap. (Sid snap.sid, drawn self.now who (private_graph name.now (Some source.now) snap) (length snap.columns))) result }
        ensures may { IfOk result (λ snap. MayHold self.now who name.now snap (length snap.columns)) }
        ensures new { IfOk result (λ snap. snap.columns ≡ range_with_len self.now.next_column (length snap.columns)) }
    {
        self.sound();
        let Some(session) = self.session(who) else {
            return Err(Fault::Refused(Refusal::NotOpen));
        };
        let Some(from) = self.source(source) else {
            return Err(no_source(alloc, source));
        };
        if held_as(session.held.as_slice(), name).is_some() {
            return Err(name_taken(alloc, name));
        }
        if from.visible < front {
            return Err(Fault::Refused(Refusal::NotVisible(from.visible)));
        }
        if session.held.len() >= MOST_HELD {
            return Err(Fault::Refused(Refusal::GraphsFull));
        }
        Ok(self.placed(alloc, from, front)?)
    }

    /// Tests whether a graph may be derived, and makes its snapshot of what was built.
    #[tactic(auto, unfolding(catalogue_state::specs::Step::given, catalogue_state::specs::Step::unless, catalogue_state::specs::Step::unless_refused))]
    fn snap_to_derive(
        &self,
        alloc: Global,
        who: u32,
        name: &Text,
        base: &Text,
        how: &How,
        made: Made,
    ) -> Result<Coming, Fault>
        requires ready { IsReady self.now }
        requires made { IsMadeFor (holds self.now who) (Ask.Derive name.now base.now how.now) made }
        ensures tests { Tests self.now (step self.now who (Ask.Derive name.now base.now how.now)) (λ c. (Sid c.snap.sid, drawn self.now who (private_graph name.now None c.snap) (length c.new))) result }
        ensures may { IfOk result (λ c. MayHold self.now who name.now c.snap (length c.new)) }
        ensures comes { IfOk result (λ c. Comes (roots self.now) self.now.next_column c.snap c.kept c.new) }
    {
        self.sound();
        let Some(session) = self.session(who) else {
            return Err(Fault::Refused(Refusal::NotOpen));
        };
        let Some(graph) = held_as(session.held.as_slice(), base) else {
            return Err(no_name(alloc, base));
        };
        if held_as(session.held.as_slice(), name).is_some() {
            return Err(name_taken(alloc, name));
        }
        if session.held.len() >= MOST_HELD {
            return Err(Fault::Refused(Refusal::GraphsFull));
        }
        self.coming(alloc, graph.snap.get(), made)
    }

    /// The session of the caller holds one more graph. Its snapshot keeps some columns of others, and has new parts.
    fn draw(
        &mut self,
        who: u32,
        held: Held,
        kept: &[u64],
        new: List<Part>,
    ) -> Result<Response, NoMemory>
        requires ready { IsReady self.old }
        requires may { MayHold self.old who held.name held.snap (length new) }
        requires comes { Comes (roots self.old) self.old.next_column held.snap kept.now new }
        ensures ok { IfOk result (λ r. (r ≡ sid_response held.snap) × (self.new ≡ drawn self.old who held (length new))) }
        ensures err { OnErr result (self.new ≡ self.old) }
    {
        let gift = held.snap.share()?;
        let count = new.len() as u32;
        self.registry.reserve(count)?;
        self.sessions.hold(who, held)?;
        count_columns(&mut self.registry, kept, self.next_column, new);
        self.next_sid += 1;
        self.next_column += count as u64;
        Ok(came(gift))
    }

    pub(crate) fn place(
        &mut self,
        alloc: Global,
        who: u32,
        name: &Text,
        source: &Text,
        front: u64,
    ) -> Result<Response, NoMemory>
        requires { IsReady self.old }
        ensures ok { IfOk result (IsServed self.old who (Ask.Place name.now source.now front) self.new) }
        ensures err { OnErr result (self.new ≡ self.old) }
        ensures surely { OnErr result (RunsOut self.old who (Ask.Place name.now source.now front)) }
    {
        match self.snap_to_place(alloc, who, name, source, front) {
            Ok(snap) => {
                let new = shared_parts(alloc, &snap.shot)?;
                let held = private(alloc, name, Some(source), snap)?;
                self.draw(who, held, &[], new)
            }
            Err(fault) => refused(fault),
        }
    }

    pub(crate) fn derive(
        &mut self,
        alloc: Global,
        who: u32,
        name: &Text,
        base: &Text,
        how: &How,
        made: Made,
    ) -> Result<Response, NoMemory>
        requires ready { IsReady self.old }
        requires made { IsMadeFor (holds self.old who) (Ask.Derive name.now base.now how.now) made }
        ensures ok { IfOk result (IsServed self.old who (Ask.Derive name.now base.now how.now) self.new) }
        ensures err { OnErr result (self.new ≡ self.old) }
        ensures surely { OnErr result (RunsOut self.old who (Ask.Derive name.now base.now how.now)) }
    {
        match self.snap_to_derive(alloc, who, name, base, how, made) {
            Ok(coming) => {
                let new = coming.new;
                let kept = coming.kept;
                let held = private(alloc, name, None, coming.snap)?;
                self.draw(who, held, kept.as_slice(), new)
            }
            Err(fault) => refused(fault),
        }
    }

    // ---- graphs that go

    #[tactic(auto, unfolding(catalogue_state::specs::Step::given))]
    fn test_release(&self, alloc: Global, who: u32, name: &Text) -> Result<(), Fault>
        ensures { Tests self.now (step self.now who (Ask.Release name.now)) (λ _. (Done, with_session self.now who (let_go name.now))) result }
    {
        let held = match self.session(who) {
            Some(session) => held_as(session.held.as_slice(), name),
            None => return Err(Fault::Refused(Refusal::NotOpen)),
        };
        if held.is_none() {
            return Err(no_name(alloc, name));
        }
        Ok(())
    }

    pub(crate) fn release(
        &mut self,
        alloc: Global,
        who: u32,
        name: &Text,
    ) -> Result<Response, NoMemory>
        ensures ok { IfOk result (IsServed self.old who (Ask.Release name.now) self.new) }
        ensures err { OnErr result (self.new ≡ self.old) }
        ensures surely { OnErr result (RunsOut self.old who (Ask.Release name.now)) }
    {
        match self.test_release(alloc, who, name) {
            Ok(()) => {
                if let Some(graph) = self.sessions.let_go(who, name) {
                    release_snap(&mut self.registry, graph.snap.get());
                }
                Ok(done())
            }
            Err(fault) => refused(fault),
        }
    }

    // ---- columns

    /// The columns in use by their numbers, each with how many snapshots have it, and with what it holds: the numbers are exactly
    /// those that can be reached from published graphs and sessions.
    pub fn registry(&self) -> &[RegistryRow<Part>]
        ensures numbers { ids_of result.now ≡ reach self.now }
        ensures counts { (c : ℕ) → count_of result.now c ≡ count self.now c }
        ensures parts { (s : SnapData) → Contains (roots self.now) s → HasParts result.now s }
    {
        self.registry.list()
    }

    pub(crate) fn columns(&self, alloc: Global) -> Result<Response, NoMemory>
        ensures { IfOk result (λ r. (who : ℕ) → IsServed self.now who Ask.Columns self.now r) }
    {
        let kept = listed(alloc, self.registry())?;
        let reply = List::from_slice(alloc, kept.as_slice())?;
        Ok(Response {
            kept: Reply::Columns(kept),
            reply: Reply::Columns(reply),
            gift: Gift::Nothing,
        })
    }
}
