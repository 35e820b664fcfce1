//! What holds of every run whose blocks are run one after another.
ghost use Rattle.std.specs.Prelude.{◌≡◌, ◌++◌, List, All, length};
ghost use Rattle.turn_hall.specs.declared.entry.Entry.{Entry};
ghost use Rattle.catalogue_state.specs.declared.ask.Ask.{Ask};
ghost use Rattle.catalogue_state.specs.declared.reply.Reply.{Reply};
ghost use Rattle.catalogue_state.specs.declared.parts.SourceData.{SourceData};
ghost use Rattle.script_read.specs.declared.script.Block.{Block};
ghost use Rattle.script_read.specs.declared.script.Script.{Script};
ghost use Rattle.script_read.specs.Phases.{MayRun};
ghost use Rattle.session_run.specs.Record.{ActorRecord};
ghost use Rattle.script_run.specs.Run.{IsRunInOrder, blocks_of, InBlocks};

/// Wherever the blocks of a script are cut in two, its calls are cut in two: those of the blocks before the cut, and behind them those
/// of the others.
pub fn calls_are_cut_as_blocks()
    ensures { (script : Script) (sources : List SourceData) (J : List ActorRecord) (run : IsRunInOrder script sources J)
        (before behind : List Block) → blocks_of script.phases ≡ before ++ behind
        → (first : List (Entry Ask Reply)) × (later : List (Entry Ask Reply)) × (run.book ≡ first ++ later) × InBlocks before first × InBlocks behind later }
{}

/// Where a script has one actor, each of its calls is that actor's.
pub fn one_actor_makes_each_call()
    ensures { (script : Script) (sources : List SourceData) (J : List ActorRecord) (run : IsRunInOrder script sources J)
        → MayRun script → length script.actors ≡ 1 → All (λ e. e.who ≡ 1) run.book }
{}
