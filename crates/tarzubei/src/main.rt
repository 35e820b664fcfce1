//! The program: the real outside, the words of the command line, and `top`.
#![tactic(auto)]

use pgx_io::{DirLibrary, OpenGate, StdinSource, StdoutSink};
use pgx_shell::top;
use std::env;
use std::io::{ErrorKind, writer};
use std::process::ExitCode;

/// The status where memory ran out before the words were there.
const NO_MEMORY: u8 = 5;

/// The status where the system does not give the words, or one that is no UTF-8.
const NO_WORDS: u8 = 8;

fn main(rt: HostRuntime) -> ExitCode {
    let args = match env::args(&rt) {
        Ok(args) => args,
        Err(error) if error.kind() == ErrorKind::OutOfMemory => return ExitCode::from(NO_MEMORY),
        Err(_) => return ExitCode::from(NO_WORDS),
    };
    let Ok(words) = args.skip(1).collect::<Vec<String>>(rt.alloc()) else {
        return ExitCode::from(NO_MEMORY);
    };
    let mut source = StdinSource::new(rt.reader());
    let mut library = DirLibrary::new(&rt);
    let mut sink = StdoutSink::new(writer(&rt));
    let status = top(
        &rt,
        rt.alloc(),
        words.as_slice(),
        &mut source,
        &mut library,
        &mut sink,
        &OpenGate,
    );
    ExitCode::from(status.code)
}
