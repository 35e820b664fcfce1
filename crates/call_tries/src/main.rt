//! Makes the calls of cases, one case a line, and writes what comes of each. Line n of stdout answers line n of stdin.
//!
//! A line that begins with `== ` is a heading and is written as it is. Another is a word and parts with ` | ` between them; `~`
//! in an answer stands for a line feed. Calls are written as in the journal, as `place g from s at 0`.
//! `changes N` in a call stands for N changes, which put the vertices 1 to N into the first table.
//!
//! * `desk`: calls of several callers, 0 to 299, of a new catalogue whose one source is `s`, with a graph of six columns and no rows. A
//!   part is the caller's number and its call, and its answer is the reply. `A..B: PART` stands for the parts that come of PART with each
//!   number from A to B in the place of `#`. Its answer has `#` for each word that is that number, and equal answers one after
//!   another are counted, as `64 times ok`.
//! * `hall`: first `s` or `none`, the source of a new catalogue with its history; then calls of session 1, answered by their number
//!   and reply; `snap G`, the snapshot that the session holds under a name; `count`, the length of the history; `sources`, their number.
//! * `call`, `reply`, `refusal`: the text of calls; of replies, which are written as `Done`, `Front 3`, `Sid 1`, `Columns 1 2`,
//!   `Lines people 1 s 2 10 3:0, towns 3 none 1 1 4:0`, `Refused REFUSAL` and `NoMemory`; and of refusals, as `NoSource s`. The text of
//!   each part is appended to that of those before. The actors 1, 2 and 3 have the names `alice`, `bob` and `carol`.
//! * `next`: a command of a script, and the replies to its calls so far. The answer is its next call, or `nothing`.
//! * `walk`: the callers of a history in order, or `none`, and then a part for each actor with its records: `3` is the core record of
//!   that number, `2.1` another one after it, and `2.1!` one of a call that found no memory. The answer is their order in the
//!   journal, each as the journal heads it.
#![tactic(auto)]

mod callers;
mod clients;
mod desks;
mod halls;
mod nexts;
mod read_calls;
mod read_replies;
mod runs;
mod sources;
mod texts;
mod walks;

use column_types::{NoMemory, Text};
use std::alloc::Global;
use std::io;
use std::thread::Threads;

fn main(rt: HostRuntime) -> io::Result<()> {
    for line in rt.lines(rt.alloc()) {
        let line = line?;
        match answer(&rt, rt.alloc(), line.as_str()) {
            Ok(answer) => println!(rt; "{}", answer.as_str())?,
            Err(_) => println!(rt; "out of memory")?,
        }
    }
    Ok(())
}

/// What comes of a case.
fn answer<R: Threads + Sync>(rt: &R, alloc: Global, case: &str) -> Result<Text, NoMemory> {
    let (word, parts) = case.split_once(' ').unwrap_or((case, ""));
    match word {
        "==" => Text::from_str(alloc, case),
        "desk" => desks::answers(rt, alloc, parts),
        "hall" => halls::answers(rt, alloc, parts),
        "call" => texts::calls(alloc, parts),
        "reply" => texts::replies(alloc, parts),
        "refusal" => texts::refusals(alloc, parts),
        "next" => nexts::answer(alloc, parts),
        "walk" => walks::answer(alloc, parts),
        _ => Text::from_str(alloc, "no case"),
    }
}
