//! The open sessions, with the graphs that they hold.
ghost use Rattle.std.specs.Prelude.{◌≡◌, ◌≤◌, ◌++◌, [], ◌∷◌, OnOk, OnErr, length, find, position, Contains, option_and_then, option_map};
ghost use Rattle.std.specs.Option.{option_copied};
ghost use Rattle.catalogue_state.specs.declared.parts.Session.{Session as SessionData};
ghost use Rattle.catalogue_state.specs.State.{named, of_who, held_of, change_first, drop_first};
ghost use Rattle.catalogue_state.specs.Step.{hold_more, let_go, to_pin, to_snap, pin_as, move_to};

use crate::{Held, Hold, Session, Snap};
use column_types::{List, NoMemory, Shared, Text};
use std::alloc::Global;
use std::marker::Model;

/// The open sessions in the order in which they were opened. Seen as the list of them.
#[derive(Drop)]
pub(crate) struct Sessions {
    open: List<Session>,
}

impl Model for Sessions {
    ghost use Rattle.std.specs.Prelude.{List as Items};
    ghost use Rattle.catalogue_state.specs.declared.parts.Session.{Session as ASession};

    ghost Value = { Items ASession };

    ghost view = { λ s. s.open };
}

fn session_place(sessions: &[Session], who: u32) -> Option<usize>
    ensures { result ≡ position (of_who who) sessions.now }
{
    sessions.iter().position(|session| session.who == who)
}

fn held_place(held: &[Held], name: &Text) -> Option<usize>
    ensures { result ≡ position (named name.now) held.now }
{
    held.iter()
        .position(|graph| graph.name.as_str() == name.as_str())
}

/// The graph of that name.
pub(crate) fn held_as<'a>(held: &'a [Held], name: &Text) -> Option<&'a Held>
    ensures { option_copied result ≡ find (named name.now) held.now }
{
    held.iter()
        .find(|graph| graph.name.as_str() == name.as_str())
}

/// The session of the caller holds one more graph.
fn hold(sessions: &mut List<Session>, who: u32, held: Held) -> Result<(), NoMemory>
    ensures ok { OnOk result (sessions.new ≡ change_first (of_who who) (hold_more held) sessions.old) }
    ensures err { OnErr result (sessions.new ≡ sessions.old) }
{
    match session_place(sessions.as_slice(), who) {
        Some(place) => sessions.as_mut_slice()[place].held.push(held),
        None => Ok(()),
    }
}

/// Holds the graph of that name as a pin of a published graph.
fn pin_held(held: &mut List<Held>, name: &Text, line: Text)
    ensures { held.new ≡ change_first (named name.now) (to_pin line) held.old }
{
    if let Some(place) = held_place(held.as_slice(), name) {
        held.as_mut_slice()[place].hold = Hold::Pin(line);
    }
}

/// The session of the caller holds the graph of that name as a pin of a published graph.
fn pin_in_session(sessions: &mut List<Session>, who: u32, name: &Text, line: Text)
    ensures { sessions.new ≡ change_first (of_who who) (pin_as name.now line) sessions.old }
{
    if let Some(place) = session_place(sessions.as_slice(), who) {
        pin_held(&mut sessions.as_mut_slice()[place].held, name, line);
    }
}

/// Holds another snapshot under that name, and hands out the one before.
fn move_held(held: &mut List<Held>, name: &Text, snap: Shared<Snap>) -> Option<Shared<Snap>>
    ensures old { result ≡ option_map (λ h. h.snap) (find (named name.now) held.old) }
    ensures new { held.new ≡ change_first (named name.now) (to_snap snap) held.old }
{
    match held_place(held.as_slice(), name) {
        Some(place) => {
            let graph = &mut held.as_mut_slice()[place];
            Some(std::mem::replace(&mut graph.snap, snap))
        }
        None => None,
    }
}

/// The session of the caller holds another snapshot under that name. The one before is handed out.
fn move_in_session(
    sessions: &mut List<Session>,
    who: u32,
    name: &Text,
    snap: Shared<Snap>,
) -> Option<Shared<Snap>>
    ensures old { result ≡ option_map (λ h. h.snap) (option_and_then (λ s. held_of s name.now) (find (of_who who) sessions.old)) }
    ensures new { sessions.new ≡ change_first (of_who who) (move_to name.now snap) sessions.old }
{
    match session_place(sessions.as_slice(), who) {
        Some(place) => move_held(&mut sessions.as_mut_slice()[place].held, name, snap),
        None => None,
    }
}

/// Takes the graph of that name out.
fn drop_held(held: &mut List<Held>, name: &Text) -> Option<Held>
    requires { length held.old ≤ 256 }
    ensures graph { result ≡ find (named name.now) held.old }
    ensures rest { held.new ≡ drop_first (named name.now) held.old }
{
    match held_place(held.as_slice(), name) {
        Some(place) => Some(held.remove(place as u32)),
        None => None,
    }
}

/// Takes the graph of that name out of the session of the caller.
fn let_go_of(sessions: &mut List<Session>, who: u32, name: &Text) -> Option<Held>
    requires { (s : SessionData) → Contains sessions.old s → length s.held ≤ 256 }
    ensures graph { result ≡ option_and_then (λ s. held_of s name.now) (find (of_who who) sessions.old) }
    ensures rest { sessions.new ≡ change_first (of_who who) (let_go name.now) sessions.old }
{
    match session_place(sessions.as_slice(), who) {
        Some(place) => drop_held(&mut sessions.as_mut_slice()[place].held, name),
        None => None,
    }
}

/// Takes the session of the caller out.
fn drop_session(sessions: &mut List<Session>, who: u32) -> Option<Session>
    requires { length sessions.old ≤ 64 }
    ensures session { result ≡ find (of_who who) sessions.old }
    ensures rest { sessions.new ≡ drop_first (of_who who) sessions.old }
{
    match session_place(sessions.as_slice(), who) {
        Some(place) => Some(sessions.remove(place as u32)),
        None => None,
    }
}

impl Sessions {
    /// No session. It takes no memory.
    pub(crate) fn new(alloc: Global) -> Sessions
        ensures { result ≡ [] }
    {
        Sessions {
            open: List::new(alloc),
        }
    }

    pub(crate) fn as_slice(&self) -> &[Session]
        ensures { result.now ≡ self.now }
    {
        self.open.as_slice()
    }

    pub(crate) fn len(&self) -> usize
        ensures { result ≡ length self.now }
    {
        self.open.len()
    }

    /// The session of the caller.
    pub(crate) fn of(&self, who: u32) -> Option<&Session>
        ensures { option_copied result ≡ find (of_who who) self.now }
    {
        self.open
            .as_slice()
            .iter()
            .find(|session| session.who == who)
    }

    /// One more session, which holds nothing.
    pub(crate) fn open(&mut self, alloc: Global, who: u32) -> Result<(), NoMemory>
        ensures ok { OnOk result (self.new ≡ self.old ++ record { who = who; held = [] } ∷ []) }
        ensures err { OnErr result (self.new ≡ self.old) }
    {
        let held = List::new(alloc);
        self.open.push(Session { who, held })
    }

    /// The session of the caller goes, and is handed out. It takes no memory.
    pub(crate) fn close(&mut self, who: u32) -> Option<Session>
        requires { length self.old ≤ 64 }
        ensures session { result ≡ find (of_who who) self.old }
        ensures rest { self.new ≡ drop_first (of_who who) self.old }
    {
        drop_session(&mut self.open, who)
    }

    /// The session of the caller holds one more graph.
    pub(crate) fn hold(&mut self, who: u32, held: Held) -> Result<(), NoMemory>
        ensures ok { OnOk result (self.new ≡ change_first (of_who who) (hold_more held) self.old) }
        ensures err { OnErr result (self.new ≡ self.old) }
    {
        hold(&mut self.open, who, held)
    }

    /// The session of the caller gives up the graph of that name, which is handed out. It takes no memory.
    pub(crate) fn let_go(&mut self, who: u32, name: &Text) -> Option<Held>
        requires { (s : SessionData) → Contains self.old s → length s.held ≤ 256 }
        ensures graph { result ≡ option_and_then (λ s. held_of s name.now) (find (of_who who) self.old) }
        ensures rest { self.new ≡ change_first (of_who who) (let_go name.now) self.old }
    {
        let_go_of(&mut self.open, who, name)
    }

    /// The session of the caller holds the graph of that name as a pin of a published graph. It takes no memory.
    pub(crate) fn pin_as(&mut self, who: u32, name: &Text, line: Text)
        ensures { self.new ≡ change_first (of_who who) (pin_as name.now line) self.old }
    {
        pin_in_session(&mut self.open, who, name, line);
    }

    /// The session of the caller holds another snapshot under that name. The one before is handed out. It takes no memory.
    pub(crate) fn move_to(
        &mut self,
        who: u32,
        name: &Text,
        snap: Shared<Snap>,
    ) -> Option<Shared<Snap>>
        ensures old { result ≡ option_map (λ h. h.snap) (option_and_then (λ s. held_of s name.now) (find (of_who who) self.old)) }
        ensures new { self.new ≡ change_first (of_who who) (move_to name.now snap) self.old }
    {
        move_in_session(&mut self.open, who, name, snap)
    }
}
