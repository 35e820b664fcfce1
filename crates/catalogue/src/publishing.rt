//! Published graphs: they are published by one session, and others hold pins of their snapshots.
ghost use Rattle.std.specs.Prelude.{◌≡◌, ℕ, IfOk, OnOk, OnErr, Some, Contains, find, length};
ghost use Rattle.std.specs.Option.{option_copied};
ghost use Rattle.catalogue_state.specs.declared.ask.Ask.{Ask};
ghost use Rattle.catalogue_state.specs.declared.reply.Reply.TheVariants.{Sid, Done};
ghost use Rattle.catalogue_state.specs.declared.ask.How.TheVariants.{Changes};
ghost use Rattle.catalogue_state.specs.State.{roots, holds, named, line_of};
ghost use Rattle.catalogue_state.specs.Derived.{IsBuilt};
ghost use Rattle.catalogue_state.specs.Step.{step, hold_more, with_session, move_to, published, without_line, appended, pin, new_line, sid_asked};
ghost use Rattle.catalogue_state.specs.Bound.{IsReady};
ghost use Rattle.catalogue_state.specs.Ready.{IsMadeFor};
ghost use Rattle.catalogue.specs.Kept.{MayPublish, MayPin, MayMove, MayAppend};
ghost use Rattle.catalogue.specs.Registry.{Comes};
ghost use Rattle.catalogue.specs.Coming.{Arrives, append_to};
ghost use Rattle.catalogue.specs.Response.{IsServed, RunsOut, Tests, sid_response};

use crate::arrivals::Coming;
use crate::catalogue::MOST_HELD;
use crate::columns::{count_columns, release_gone, release_snap, release_snaps, retain_snap};
use crate::lines::snap_asked;
use crate::response::{
    Fault, Response, came, done, line_taken, name_taken, no_line, no_name, not_owner, not_pinned,
    not_private, refused, sourced, told,
};
use crate::sessions::held_as;
use crate::{Catalogue, Gift, Held, Hold, Line, Made, Refusal, Reply, Snap, Target};
use changeset::ChangeList;
use column_types::{List, NoMemory, Shared, Text};
use std::alloc::Global;

/// The most published graphs.
const MOST_LINES: usize = 256;

/// The id that is asked for.
fn sid_asked(target: &Target) -> u64
    ensures { result ≡ sid_asked target.now }
{
    match target {
        Target::Sid(sid) => *sid,
        Target::Latest => 0,
    }
}

/// A pin of a published graph.
fn pin(alloc: Global, name: &Text, line: &Text, snap: &Shared<Snap>) -> Result<Held, NoMemory>
    ensures { IfOk result (λ held. held ≡ pin name.now line.now snap.now) }
{
    Ok(Held {
        name: Text::from_str(alloc, name.as_str())?,
        hold: Hold::Pin(Text::from_str(alloc, line.as_str())?),
        snap: snap.share()?,
    })
}

/// A graph as it is first published: its only snapshot is the one that its owner holds.
fn new_line(
    alloc: Global,
    who: u32,
    line: &Text,
    source: Option<&Text>,
    snap: &Shared<Snap>,
) -> Result<Line, NoMemory>
    ensures { IfOk result (λ made. made ≡ new_line who line.now 0 0 (option_copied source.entry) snap.now) }
{
    let source = match source {
        Some(source) => Some(Text::from_str(alloc, source.as_str())?),
        None => None,
    };
    let mut snaps = List::new(alloc);
    snaps.push(snap.share()?)?;
    Ok(Line {
        name: Text::from_str(alloc, line.as_str())?,
        owner: who,
        source,
        keep: 0,
        threshold: 0,
        snaps,
    })
}

impl Catalogue {
    /// How many graphs are published.
    fn line_count(&self) -> usize
        ensures { result ≡ length self.now.lines }
    {
        self.lines.len()
    }

    // ---- publish

    /// Tests whether a graph may be published, and makes the published graph. Its snapshot comes beside it.
    #[tactic(auto, unfolding(catalogue_state::specs::Step::given, catalogue_state::specs::Step::unless))]
    fn line_to_publish(
        &self,
        alloc: Global,
        who: u32,
        name: &Text,
        line: &Text,
        keep: u32,
        threshold: u64,
    ) -> Result<(Line, Shared<Snap>), Fault>
        ensures tests { Tests self.now (step self.now who (Ask.Publish name.now line.now keep threshold)) (λ p. (Sid p.1.sid, published self.now who name.now p.0)) result }
        ensures may { IfOk result (λ p. MayPublish self.now line.now p.0 p.1) }
    {
        let held = match self.session(who) {
            Some(session) => held_as(session.held.as_slice(), name),
            None => return Err(Fault::Refused(Refusal::NotOpen)),
        };
        let Some(graph) = held else {
            return Err(no_name(alloc, name));
        };
        let Hold::Private(source) = &graph.hold else {
            return Err(not_private(alloc, name));
        };
        if self.line(line).is_some() {
            return Err(line_taken(alloc, line));
        }
        if self.line_count() >= MOST_LINES {
            return Err(Fault::Refused(Refusal::LinesFull));
        }
        let mut made = new_line(alloc, who, line, source.as_ref(), &graph.snap)?;
        made.keep = keep;
        made.threshold = threshold;
        Ok((made, graph.snap.share()?))
    }

    /// The graph is published, and the caller holds it as a pin.
    fn add_line(
        &mut self,
        who: u32,
        name: &Text,
        pin: Text,
        line: Line,
        snap: &Snap,
    ) -> Result<(), NoMemory>
        requires { MayPublish self.old pin line snap.now }
        ensures ok { OnOk result (self.new ≡ published self.old who name.now line) }
        ensures err { OnErr result (self.new ≡ self.old) }
    {
        self.lines.publish(line)?;
        self.sessions.pin_as(who, name, pin);
        retain_snap(&mut self.registry, snap);
        Ok(())
    }

    pub(crate) fn publish(
        &mut self,
        alloc: Global,
        who: u32,
        name: &Text,
        line: &Text,
        keep: u32,
        threshold: u64,
    ) -> Result<Response, NoMemory>
        ensures ok { IfOk result (IsServed self.old who (Ask.Publish name.now line.now keep threshold) self.new) }
        ensures err { OnErr result (self.new ≡ self.old) }
        ensures surely { OnErr result (RunsOut self.old who (Ask.Publish name.now line.now keep threshold)) }
    {
        match self.line_to_publish(alloc, who, name, line, keep, threshold) {
            Ok((made, snap)) => {
                let pin = Text::from_str(alloc, line.as_str())?;
                let sid = snap.get().sid;
                self.add_line(who, name, pin, made, snap.get())?;
                Ok(told(sid))
            }
            Err(fault) => refused(fault),
        }
    }

    // ---- take back

    #[tactic(auto, unfolding(catalogue_state::specs::Step::given, catalogue_state::specs::Step::unless))]
    fn test_unpublish(&self, alloc: Global, who: u32, line: &Text) -> Result<(), Fault>
        ensures { Tests self.now (step self.now who (Ask.Unpublish line.now)) (λ _. (Done, without_line self.now line.now)) result }
    {
        if self.session(who).is_none() {
            return Err(Fault::Refused(Refusal::NotOpen));
        }
        let Some(published) = self.line(line) else {
            return Err(no_line(alloc, line));
        };
        if published.owner != who {
            return Err(not_owner(alloc, line));
        }
        Ok(())
    }

    pub(crate) fn unpublish(
        &mut self,
        alloc: Global,
        who: u32,
        line: &Text,
    ) -> Result<Response, NoMemory>
        ensures ok { IfOk result (IsServed self.old who (Ask.Unpublish line.now) self.new) }
        ensures err { OnErr result (self.new ≡ self.old) }
        ensures surely { OnErr result (RunsOut self.old who (Ask.Unpublish line.now)) }
    {
        match self.test_unpublish(alloc, who, line) {
            Ok(()) => {
                if let Some(gone) = self.lines.take_back(line) {
                    release_snaps(&mut self.registry, gone.snaps.as_slice());
                }
                Ok(done())
            }
            Err(fault) => refused(fault),
        }
    }

    // ---- pins

    /// Tests whether a published graph may be held, and makes the pin of its latest snapshot.
    #[tactic(auto, unfolding(catalogue_state::specs::Step::given, catalogue_state::specs::Step::unless))]
    fn pin_to_hold(&self, alloc: Global, who: u32, line: &Text, name: &Text) -> Result<Held, Fault>
        ensures tests { Tests self.now (step self.now who (Ask.Get line.now name.now)) (λ h. (Sid h.snap.sid, with_session self.now who (hold_more h))) result }
        ensures may { IfOk result (λ h. MayPin self.now who name.now h) }
    {
        let Some(session) = self.session(who) else {
            return Err(Fault::Refused(Refusal::NotOpen));
        };
        let Some(published) = self.line(line) else {
            return Err(no_line(alloc, line));
        };
        if held_as(session.held.as_slice(), name).is_some() {
            return Err(name_taken(alloc, name));
        }
        if session.held.len() >= MOST_HELD {
            return Err(Fault::Refused(Refusal::GraphsFull));
        }
        match published.snaps.as_slice().last() {
            Some(snap) => Ok(pin(alloc, name, line, snap)?),
            None => Err(no_line(alloc, line)),
        }
    }

    /// The session of the caller holds one more graph, whose snapshot is in use.
    fn hold_pin(&mut self, who: u32, held: Held) -> Result<Response, NoMemory>
        requires { MayPin self.old who held.name held }
        ensures ok { IfOk result (λ r. (r ≡ sid_response held.snap) × (self.new ≡ with_session self.old who (hold_more held))) }
        ensures err { OnErr result (self.new ≡ self.old) }
    {
        let gift = held.snap.share()?;
        self.sessions.hold(who, held)?;
        retain_snap(&mut self.registry, gift.get());
        Ok(came(gift))
    }

    pub(crate) fn get(
        &mut self,
        alloc: Global,
        who: u32,
        line: &Text,
        name: &Text,
    ) -> Result<Response, NoMemory>
        ensures ok { IfOk result (IsServed self.old who (Ask.Get line.now name.now) self.new) }
        ensures err { OnErr result (self.new ≡ self.old) }
        ensures surely { OnErr result (RunsOut self.old who (Ask.Get line.now name.now)) }
    {
        match self.pin_to_hold(alloc, who, line, name) {
            Ok(held) => self.hold_pin(who, held),
            Err(fault) => refused(fault),
        }
    }

    /// Tests whether a pin may be moved, and shares the snapshot that it moves to.
    #[tactic(auto, unfolding(catalogue_state::specs::Step::given))]
    fn snap_to_check_out(
        &self,
        alloc: Global,
        who: u32,
        name: &Text,
        target: &Target,
    ) -> Result<Shared<Snap>, Fault>
        ensures tests { Tests self.now (step self.now who (Ask.Checkout name.now target.now)) (λ b. (Sid b.sid, with_session self.now who (move_to name.now b))) result }
        ensures may { IfOk result (λ b. MayMove self.now who name.now b) }
    {
        let held = match self.session(who) {
            Some(session) => held_as(session.held.as_slice(), name),
            None => return Err(Fault::Refused(Refusal::NotOpen)),
        };
        let Some(graph) = held else {
            return Err(no_name(alloc, name));
        };
        let Hold::Pin(line) = &graph.hold else {
            return Err(not_pinned(alloc, name));
        };
        let Some(published) = self.line(line) else {
            return Err(no_line(alloc, line));
        };
        match snap_asked(published.snaps.as_slice(), target) {
            Some(snap) => Ok(snap.share()?),
            None => Err(Fault::Refused(Refusal::NoSnapshot(sid_asked(target)))),
        }
    }

    /// The pin of the caller moves to another snapshot that is in use.
    fn move_pin(&mut self, who: u32, name: &Text, snap: Shared<Snap>) -> Result<Response, NoMemory>
        requires { MayMove self.old who name.now snap }
        ensures ok { IfOk result (λ r. (r ≡ sid_response snap) × (self.new ≡ with_session self.old who (move_to name.now snap))) }
        ensures err { OnErr result (self.new ≡ self.old) }
    {
        let gift = snap.share()?;
        retain_snap(&mut self.registry, gift.get());
        if let Some(before) = self.sessions.move_to(who, name, snap) {
            release_snap(&mut self.registry, before.get());
        }
        Ok(came(gift))
    }

    pub(crate) fn check_out(
        &mut self,
        alloc: Global,
        who: u32,
        name: &Text,
        target: &Target,
    ) -> Result<Response, NoMemory>
        ensures ok { IfOk result (IsServed self.old who (Ask.Checkout name.now target.now) self.new) }
        ensures err { OnErr result (self.new ≡ self.old) }
        ensures surely { OnErr result (RunsOut self.old who (Ask.Checkout name.now target.now)) }
    {
        match self.snap_to_check_out(alloc, who, name, target) {
            Ok(snap) => self.move_pin(who, name, snap),
            Err(fault) => refused(fault),
        }
    }

    // ---- one snapshot more

    /// The graph of a pin that may get a snapshot more, with its published graph and that one's name.
    #[tactic(auto, unfolding(catalogue_state::specs::Step::given, crate::specs::Coming::append_to))]
    fn pin_to_append<'a>(
        &'a self,
        alloc: Global,
        who: u32,
        name: &Text,
        changes: &ChangeList,
    ) -> Result<(&'a Held, &'a Text, &'a Line), Fault>
        ensures tests { Tests self.now (step self.now who (Ask.Append name.now changes.now)) (λ p. append_to self.now p.1.now p.2.now p.0.now changes.now) result }
        ensures held { IfOk result (λ p. find (named name.now) (holds self.now who) ≡ Some p.0.now) }
        ensures line { IfOk result (λ p. line_of self.now p.1.now ≡ Some p.2.now) }
        ensures root { IfOk result (λ p. Contains (roots self.now) p.0.now.snap) }
    {
        let held = match self.session(who) {
            Some(session) => held_as(session.held.as_slice(), name),
            None => return Err(Fault::Refused(Refusal::NotOpen)),
        };
        let Some(graph) = held else {
            return Err(no_name(alloc, name));
        };
        let Hold::Pin(line) = &graph.hold else {
            return Err(not_pinned(alloc, name));
        };
        let Some(published) = self.line(line) else {
            return Err(no_line(alloc, line));
        };
        Ok((graph, line, published))
    }

    /// Tests whether a published graph may get a snapshot more over that of a pin, and makes it of what was built.
    #[tactic(auto, unfolding(catalogue_state::specs::Step::given, catalogue_state::specs::Step::unless, catalogue_state::specs::Step::unless_refused, crate::specs::Coming::append_to))]
    fn coming_to(
        &self,
        alloc: Global,
        graph: &Held,
        line: &Text,
        published: &Line,
        changes: &ChangeList,
        made: Made,
    ) -> Result<Coming, Fault>
        requires ready { IsReady self.now }
        requires root { Contains (roots self.now) graph.now.snap }
        requires built { IsBuilt (Changes changes.now) graph.now.snap.shot made }
        ensures tests { Tests self.now (append_to self.now line.now published.now graph.now changes.now) (λ c. (Sid c.snap.sid, appended self.now line.now c.snap (length c.new))) result }
        ensures arrives { IfOk result (Arrives self.now graph.now.snap (Changes changes.now)) }
    {
        if published.source.is_some() {
            return Err(sourced(alloc, line));
        }
        let Some(latest) = published.snaps.as_slice().last() else {
            return Err(no_line(alloc, line));
        };
        if latest.get().sid != graph.snap.get().sid {
            return Err(Fault::Refused(Refusal::NotLatest(latest.get().sid)));
        }
        self.coming(alloc, graph.snap.get(), made)
    }

    /// Tests whether a published graph may get a snapshot more, and makes it of what was built. The name of the published graph comes
    /// beside it.
    fn snap_to_append(
        &self,
        alloc: Global,
        who: u32,
        name: &Text,
        changes: &ChangeList,
        made: Made,
    ) -> Result<(Text, Coming), Fault>
        requires ready { IsReady self.now }
        requires made { IsMadeFor (holds self.now who) (Ask.Append name.now changes.now) made }
        ensures tests { Tests self.now (step self.now who (Ask.Append name.now changes.now)) (λ p. (Sid p.1.snap.sid, appended self.now p.0 p.1.snap (length p.1.new))) result }
        ensures may { IfOk result (λ p. MayAppend self.now p.0 p.1.snap (length p.1.new)) }
        ensures comes { IfOk result (λ p. Comes (roots self.now) self.now.next_column p.1.snap p.1.kept p.1.new) }
    {
        let (graph, line, published) = self.pin_to_append(alloc, who, name, changes)?;
        let coming = self.coming_to(alloc, graph, line, published, changes, made)?;
        Ok((Text::from_str(alloc, line.as_str())?, coming))
    }

    /// The published graph has one snapshot more, which keeps some columns of others, and has new parts.
    fn add_snap(&mut self, alloc: Global, line: &Text, coming: Coming) -> Result<(), NoMemory>
        requires ready { IsReady self.old }
        requires may { MayAppend self.old line.now coming.snap (length coming.new) }
        requires comes { Comes (roots self.old) self.old.next_column coming.snap coming.kept coming.new }
        ensures ok { OnOk result (self.new ≡ appended self.old line.now coming.snap (length coming.new)) }
        ensures err { OnErr result (self.new ≡ self.old) }
    {
        let Coming { snap, kept, new } = coming;
        let count = new.len() as u32;
        self.registry.reserve(count)?;
        let snap = Shared::new(alloc, snap)?;
        let gone = self.lines.append(line, snap)?;
        count_columns(&mut self.registry, kept.as_slice(), self.next_column, new);
        release_gone(&mut self.registry, gone);
        self.next_sid += 1;
        self.next_column += count as u64;
        Ok(())
    }

    pub(crate) fn append(
        &mut self,
        alloc: Global,
        who: u32,
        name: &Text,
        changes: &ChangeList,
        made: Made,
    ) -> Result<Response, NoMemory>
        requires ready { IsReady self.old }
        requires made { IsMadeFor (holds self.old who) (Ask.Append name.now changes.now) made }
        ensures ok { IfOk result (IsServed self.old who (Ask.Append name.now changes.now) self.new) }
        ensures err { OnErr result (self.new ≡ self.old) }
        ensures surely { OnErr result (RunsOut self.old who (Ask.Append name.now changes.now)) }
    {
        match self.snap_to_append(alloc, who, name, changes, made) {
            Ok((line, coming)) => {
                let sid = coming.snap.sid;
                self.add_snap(alloc, &line, coming)?;
                Ok(told(sid))
            }
            Err(fault) => refused(fault),
        }
    }

    // ---- all published graphs

    pub(crate) fn list_lines(&self, alloc: Global) -> Result<Response, NoMemory>
        ensures { IfOk result (λ r. (who : ℕ) → IsServed self.now who Ask.Lines self.now r) }
    {
        let kept = self.lines.infos(alloc)?;
        let reply = self.lines.infos(alloc)?;
        Ok(Response {
            kept: Reply::Lines(kept),
            reply: Reply::Lines(reply),
            gift: Gift::Nothing,
        })
    }
}
