//! What an actor has between its blocks.
ghost use Rattle.std.specs.Prelude.{◌≡◌, ℕ, length, map, IfOk};
ghost use Rattle.script_read.specs.Phases.{IsActor};
ghost use Rattle.script_run.specs.Members.{fresh_member, member_of, with_member};

use catalogue_hall::Held;
use column_types::{List, NoMemory};
use session_run::{Own, Record};
use std::alloc::Global;
use std::mem;

/// What an actor has between its blocks: what it holds, its own part, and its records.
#[derive(Drop)]
pub struct Member {
    pub held: Held,
    pub own: Own,
    pub records: List<Record>,
}

/// What an actor has that has done nothing.
pub(crate) fn fresh_member(alloc: Global) -> Member
    ensures { result ≡ fresh_member }
{
    Member {
        held: Held::new(alloc),
        own: Own::new(alloc),
        records: List::new(alloc),
    }
}

/// So many actors that have done nothing.
pub(crate) fn fresh_members(alloc: Global, count: usize) -> Result<List<Member>, NoMemory>
    ensures many { IfOk result (λ members. length members ≡ count) }
    ensures idle { IfOk result (λ members. (who : ℕ) → member_of members who ≡ fresh_member) }
{
    let mut members = List::new(alloc);
    for _place in 0..count {
        members.push(fresh_member(alloc))?;
    }
    Ok(members)
}

/// Puts another part in an actor's place, and gives the one that stood there.
pub(crate) fn swap_member(members: &mut List<Member>, who: u32, member: Member) -> Member
    requires { IsActor (length members.old) who }
    ensures taken { result ≡ member_of members.old who }
    ensures members { members.new ≡ with_member members.old who member }
{
    let place = who as usize - 1;
    mem::replace(&mut members.as_mut_slice()[place], member)
}

/// The records of each actor.
pub(crate) fn parts_of(alloc: Global, members: List<Member>) -> Result<List<List<Record>>, NoMemory>
    ensures { IfOk result (λ parts. parts ≡ map (λ m. m.records) members) }
{
    let mut parts = List::new(alloc);
    for member in members.into_vec() {
        let Member {
            held: _,
            own: _,
            records,
        } = member;
        parts.push(records)?;
    }
    Ok(parts)
}
