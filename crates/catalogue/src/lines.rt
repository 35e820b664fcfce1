//! The published graphs, by their names.
ghost use Rattle.std.specs.Prelude.{◌≡◌, ◌≤◌, ◌++◌, [], ◌∷◌, IfOk, OnOk, OnErr, Contains, length, map, find, position};
ghost use Rattle.std.specs.Option.{option_copied};
ghost use Rattle.catalogue_state.specs.declared.parts.Line.{Line as LineData};
ghost use Rattle.catalogue_state.specs.State.{from_line, of_sid, snap_at, drop_first, change_first};
ghost use Rattle.catalogue_state.specs.Step.{snap_info, line_info, kept_count, with_latest};
ghost use Rattle.catalogue.specs.Kept.{IsShort, option_to_list, gone_of, gone_in};

use crate::{Line, LineInfo, Snap, Target};
use column_types::{List, NoMemory, Shared, Text};
use std::alloc::Global;
use std::marker::Model;

/// The published graphs in the order in which they were published. Seen as the list of them.
#[derive(Drop)]
pub(crate) struct Lines {
    published: List<Line>,
}

impl Model for Lines {
    ghost use Rattle.std.specs.Prelude.{List as Items};
    ghost use Rattle.catalogue_state.specs.declared.parts.Line.{Line as ALine};

    ghost Value = { Items ALine };

    ghost view = { λ l. l.published };
}

fn line_place(lines: &[Line], name: &Text) -> Option<usize>
    ensures { result ≡ position (from_line name.now) lines.now }
{
    lines
        .iter()
        .position(|line| line.name.as_str() == name.as_str())
}

/// Takes the published graph of that name out.
fn drop_line(lines: &mut List<Line>, name: &Text) -> Option<Line>
    requires { length lines.old ≤ 256 }
    ensures line { result ≡ find (from_line name.now) lines.old }
    ensures rest { lines.new ≡ drop_first (from_line name.now) lines.old }
{
    match line_place(lines.as_slice(), name) {
        Some(place) => Some(lines.remove(place as u32)),
        None => None,
    }
}

/// How many snapshots a published graph keeps.
fn kept_count(keep: u32) -> usize
    ensures { result ≡ kept_count keep }
{
    if keep == 0 { 1 } else { keep as usize }
}

/// One snapshot more. Where there are then more than are kept, the oldest goes, and is handed out.
fn add_snap(line: &mut Line, snap: Shared<Snap>) -> Result<Option<Shared<Snap>>, NoMemory>
    requires { IsShort line.old }
    ensures ok { OnOk result (line.new ≡ with_latest snap line.old) }
    ensures gone { IfOk result (λ gone. option_to_list gone ≡ gone_of snap line.old) }
    ensures err { OnErr result (line.new ≡ line.old) }
{
    line.snaps.push(snap)?;
    if line.snaps.len() <= kept_count(line.keep) {
        return Ok(None);
    }
    Ok(Some(line.snaps.remove(0)))
}

/// One snapshot more of the published graph of that name.
fn add_to_line(
    lines: &mut List<Line>,
    name: &Text,
    snap: Shared<Snap>,
) -> Result<Option<Shared<Snap>>, NoMemory>
    requires { (l : LineData) → Contains lines.old l → IsShort l }
    ensures ok { OnOk result (lines.new ≡ change_first (from_line name.now) (with_latest snap) lines.old) }
    ensures gone { IfOk result (λ gone. option_to_list gone ≡ gone_in snap (find (from_line name.now) lines.old)) }
    ensures err { OnErr result (lines.new ≡ lines.old) }
{
    match line_place(lines.as_slice(), name) {
        Some(place) => add_snap(&mut lines.as_mut_slice()[place], snap),
        None => Ok(None),
    }
}

/// The snapshot of that id.
fn snap_of(snaps: &[Shared<Snap>], sid: u64) -> Option<&Shared<Snap>>
    ensures { option_copied result ≡ find (of_sid sid) snaps.now }
{
    snaps.iter().find(|snap| snap.get().sid == sid)
}

/// The snapshot that is asked for.
pub(crate) fn snap_asked<'a>(snaps: &'a [Shared<Snap>], target: &Target) -> Option<&'a Shared<Snap>>
    ensures { option_copied result ≡ snap_at target.now snaps.now }
{
    match target {
        Target::Sid(sid) => snap_of(snaps, *sid),
        Target::Latest => snaps.last(),
    }
}

/// The id and the front of each snapshot.
fn snap_infos(alloc: Global, snaps: &[Shared<Snap>]) -> Result<List<(u64, u64)>, NoMemory>
    ensures { IfOk result (λ infos. infos ≡ map snap_info snaps.now) }
{
    let mut infos = List::new(alloc);
    for snap in snaps {
        infos.push((snap.get().sid, snap.get().front))?;
    }
    Ok(infos)
}

/// What is told of a published graph.
fn told(alloc: Global, line: &Line) -> Result<LineInfo, NoMemory>
    ensures { IfOk result (λ info. info ≡ line_info line.now) }
{
    let source = match &line.source {
        Some(source) => Some(Text::from_str(alloc, source.as_str())?),
        None => None,
    };
    Ok(LineInfo {
        name: Text::from_str(alloc, line.name.as_str())?,
        owner: line.owner,
        source,
        keep: line.keep,
        threshold: line.threshold,
        snaps: snap_infos(alloc, line.snaps.as_slice())?,
    })
}

impl Lines {
    /// No published graph. It takes no memory.
    pub(crate) fn new(alloc: Global) -> Lines
        ensures { result ≡ [] }
    {
        Lines {
            published: List::new(alloc),
        }
    }

    pub(crate) fn len(&self) -> usize
        ensures { result ≡ length self.now }
    {
        self.published.len()
    }

    /// The published graph of that name.
    pub(crate) fn named(&self, name: &Text) -> Option<&Line>
        ensures { option_copied result ≡ find (from_line name.now) self.now }
    {
        self.published
            .as_slice()
            .iter()
            .find(|line| line.name.as_str() == name.as_str())
    }

    /// One more published graph.
    pub(crate) fn publish(&mut self, line: Line) -> Result<(), NoMemory>
        ensures ok { OnOk result (self.new ≡ self.old ++ line ∷ []) }
        ensures err { OnErr result (self.new ≡ self.old) }
    {
        self.published.push(line)
    }

    /// The published graph of that name goes, and is handed out. It takes no memory.
    pub(crate) fn take_back(&mut self, name: &Text) -> Option<Line>
        requires { length self.old ≤ 256 }
        ensures line { result ≡ find (from_line name.now) self.old }
        ensures rest { self.new ≡ drop_first (from_line name.now) self.old }
    {
        drop_line(&mut self.published, name)
    }

    /// One snapshot more of the published graph of that name. Where it then has more than it keeps, its oldest goes, and is handed out.
    pub(crate) fn append(
        &mut self,
        name: &Text,
        snap: Shared<Snap>,
    ) -> Result<Option<Shared<Snap>>, NoMemory>
        requires { (l : LineData) → Contains self.old l → IsShort l }
        ensures ok { OnOk result (self.new ≡ change_first (from_line name.now) (with_latest snap) self.old) }
        ensures gone { IfOk result (λ gone. option_to_list gone ≡ gone_in snap (find (from_line name.now) self.old)) }
        ensures err { OnErr result (self.new ≡ self.old) }
    {
        add_to_line(&mut self.published, name, snap)
    }

    /// What is told of all published graphs.
    pub(crate) fn infos(&self, alloc: Global) -> Result<List<LineInfo>, NoMemory>
        ensures { IfOk result (λ infos. infos ≡ map line_info self.now) }
    {
        let mut infos = List::new(alloc);
        for line in self.published.as_slice() {
            infos.push(told(alloc, line)?)?;
        }
        Ok(infos)
    }
}
