//! Several callers of one catalogue.
ghost use Rattle.std.specs.Prelude.{◌≡◌, ◌<◌, [], length, replicate, IfOk};
ghost use Rattle.call_tries.specs.UpToDate.{AreUpToDate};

use catalogue::{Ask, Reply, SourceData};
use catalogue_hall::{Alone, Held, Told};
use column_types::{List, NoMemory, Shared};
use std::alloc::Global;
use std::mem;
use std::thread::Threads;

/// The callers have the numbers 0 to 299.
const CALLERS: u32 = 300;

/// A catalogue with its history, and what each caller holds.
#[derive(Drop)]
pub struct Callers {
    alone: Alone,
    helds: List<Held>,
    ghost up_to_date: { AreUpToDate alone helds },
}

/// What so many callers hold before any call.
fn nothing_held(alloc: Global, count: u32) -> Result<List<Held>, NoMemory>
    ensures { IfOk result (λ helds. helds ≡ replicate count []) }
{
    let mut helds = List::new(alloc);
    for _place in 0..count {
        helds.push(Held::new(alloc))?;
    }
    Ok(helds)
}

/// Makes a call of a caller, and brings up to date what it holds.
fn ask_for<R: Threads + Sync>(
    alone: &mut Alone,
    helds: &mut List<Held>,
    rt: &R,
    alloc: Global,
    who: u32,
    ask: Ask,
) -> Result<Told, NoMemory>
    requires calls { length alone.old.book < 33554432 }
    requires who { who < length helds.old }
    requires up_to_date { AreUpToDate alone.old helds.old }
    ensures { AreUpToDate alone.new helds.new }
{
    let mut held = mem::replace(&mut helds.as_mut_slice()[who as usize], Held::new(alloc));
    let told = alone.ask(rt, alloc, who, &mut held, ask);
    helds.set(who as usize, held);
    told
}

impl Callers {
    /// The callers of a new catalogue of this source, before any call.
    pub fn new(alloc: Global, source: Shared<SourceData>) -> Result<Callers, NoMemory> {
        let mut sources = List::new(alloc);
        sources.push(source)?;
        let helds = nothing_held(alloc, CALLERS)?;
        let alone = Alone::new(alloc, sources)?;
        Ok(Callers { alone, helds })
    }

    /// The reply to a call, while there are fewer than 33,554,432. None where no caller has the number.
    pub fn ask<R: Threads + Sync>(
        &mut self,
        rt: &R,
        alloc: Global,
        who: u32,
        ask: Ask,
    ) -> Result<Option<Reply>, NoMemory> {
        if self.alone.book().len() >= 33_554_432 {
            return Err(NoMemory);
        }
        if self.helds.len() <= who as usize {
            return Ok(None);
        }
        let told = ask_for(&mut self.alone, &mut self.helds, rt, alloc, who, ask)?;
        Ok(Some(told.reply))
    }
}
