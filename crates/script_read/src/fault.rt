//! Why a script is refused.
ghost use Rattle.std.specs.Prelude.{◌≡◌};

use column_types::NoMemory;
use thiserror::Error;

/// Why a line is refused, in the order in which faults of one line are looked for.
#[derive(Clone, Copy, Debug, PartialEq, Eq)]
pub enum LineWhy {
    /// The line is not UTF-8.
    Utf8,
    /// The first word is not allowed in this place.
    Word,
    /// The first word is allowed in this place, and the line is not built yet.
    Later,
    /// The number of words or a fixed word is wrong.
    Form,
    /// A word is not the name or file name that is due in its place.
    Name,
    /// A word is not the number that is due in its place.
    Number,
    /// A source's name stands again, or an actor stands a second time in one phase.
    Twice,
    /// The 65th source, the 129th name of an actor, or the 65,537th command.
    Many,
    /// The script ends inside an inline source.
    End,
}

/// Why a script is not read.
#[derive(Clone, Copy, Debug, PartialEq, Eq, Error)]
pub enum ScriptFault {
    /// The first line with a fault, counted from 1, and its first fault. For `LineWhy::End` the line is one past the last.
    #[error("a line of the script has a fault")]
    BadLine { line: u64, why: LineWhy },
    #[error("out of memory")]
    NoMemory,
}

impl From<NoMemory> for ScriptFault {
    ghost use Rattle.script_read.specs.declared.fault.ScriptFault.TheVariants.{NoMemory};

    ghost from_gives = { λ _ e. e ≡ NoMemory };

    fn from(_error: NoMemory) -> ScriptFault {
        ScriptFault::NoMemory
    }
}

/// Why a line is not read.
#[derive(Clone, Copy)]
pub enum LineFault {
    Bad(LineWhy),
    NoMemory,
}

impl From<NoMemory> for LineFault {
    ghost use Rattle.script_read.specs.declared.fault.LineFault.TheVariants.{NoMemory};

    ghost from_gives = { λ _ e. e ≡ NoMemory };

    fn from(_error: NoMemory) -> LineFault {
        LineFault::NoMemory
    }
}
