//! Running a script on one thread.
ghost use Rattle.std.specs.Prelude.{◌≡◌, [], ◌∷◌, length, sum_by, IfOk, OnOk};
ghost use Rattle.std.specs.List.{AllByRecursion};
ghost use Rattle.catalogue_state.specs.Bound.{NamesDiffer};
ghost use Rattle.script_read.specs.Phases.{IsActor, IsPhase, MayRun, block_commands, phase_commands};
ghost use Rattle.script_run.specs.Run.{IsRunInOrder};
ghost use Rattle.script_run.specs.Leaves.{AreAtRest, BlocksRan, AllRan};

use crate::Member;
use crate::member::{fresh_member, fresh_members, parts_of, swap_member};
use actor_records::walk_records;
use catalogue::SourceData;
use catalogue_hall::Alone;
use column_types::{List, NoMemory, Shared};
use script_read::{Block, Script};
use session_run::{Actor, Record, run_alone};
use std::alloc::Global;
use std::thread::Threads;

/// Runs a block: its actor does its commands, and nobody else does anything.
fn run_block<R: Threads + Sync>(
    alone: &mut Alone,
    rt: &R,
    alloc: Global,
    members: &mut List<Member>,
    block: &Block,
    workers: u32,
) -> Result<(), NoMemory>
    requires known { IsActor (length members.old) block.now.actor }
    requires rest { AreAtRest alone.old members.old (block_commands block.now) }
    ensures { OnOk result (BlocksRan (block.now ∷ []) alone.old members.old alone.new members.new) }
{
    let Member { held, own, records } = swap_member(members, block.actor, fresh_member(alloc));
    let mut actor = Actor {
        who: block.actor,
        held,
        own,
        records,
    };
    let commands = block.commands.as_slice();
    run_alone(alone, rt, alloc, &mut actor, commands, workers)?;
    let Actor {
        who: _,
        held,
        own,
        records,
    } = actor;
    swap_member(members, block.actor, Member { held, own, records });
    Ok(())
}

/// Runs the blocks of a phase one after another.
fn run_blocks<R: Threads + Sync>(
    alone: &mut Alone,
    rt: &R,
    alloc: Global,
    members: &mut List<Member>,
    blocks: &[Block],
    workers: u32,
) -> Result<(), NoMemory>
    requires known { AllByRecursion (λ b. IsActor (length members.old) b.actor) blocks.now }
    requires rest { AreAtRest alone.old members.old (phase_commands blocks.now) }
    ensures { OnOk result (BlocksRan blocks.now alone.old members.old alone.new members.new) }
{
    for block in blocks {
        run_block(alone, rt, alloc, members, block, workers)?;
    }
    Ok(())
}

/// Runs phases one after another.
fn run_phases<R: Threads + Sync>(
    alone: &mut Alone,
    rt: &R,
    alloc: Global,
    members: &mut List<Member>,
    phases: &[List<Block>],
    workers: u32,
) -> Result<(), NoMemory>
    requires phases { AllByRecursion (λ blocks. IsPhase (length members.old) blocks) phases.now }
    requires rest { AreAtRest alone.old members.old (sum_by phase_commands phases.now) }
    ensures { OnOk result (AllRan phases.now alone.old members.old alone.new members.new) }
{
    for blocks in phases {
        run_blocks(alone, rt, alloc, members, blocks.as_slice(), workers)?;
    }
    Ok(())
}

/// Runs a script over its open sources on one thread: its blocks one after another, in the order of the script, with so many
/// `workers` for a local command. It gives the records of all actors in the order of the journal. A call that finds no memory gets a
/// record that says so; `NoMemory` comes where there is no room for the records themselves.
pub fn run_script<R: Threads + Sync>(
    rt: &R,
    alloc: Global,
    script: &Script,
    sources: List<Shared<SourceData>>,
    workers: u32,
) -> Result<List<Record>, NoMemory>
    requires names { NamesDiffer sources }
    requires script { MayRun script.now }
    ensures run { IfOk result (λ J. IsRunInOrder script.now sources J) }
{
    let mut members = fresh_members(alloc, script.actors.len())?;
    let mut alone = Alone::new(alloc, sources)?;
    let phases = script.phases.as_slice();
    run_phases(&mut alone, rt, alloc, &mut members, phases, workers)?;
    alone.sound();
    let parts = parts_of(alloc, members)?;
    let journal = walk_records(alloc, alone.book(), parts)?;
    Ok(journal)
}
