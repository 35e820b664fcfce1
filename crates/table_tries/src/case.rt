//! Lines of cases: what short forms stand for, in a case and in its answer.
use column_types::{List, NoMemory, Text};
use journal_text::push_count;
use std::alloc::Global;

/// The most equal characters that stand in an answer as they are.
const LONGEST_RUN: u32 = 40;

/// What a line stands for, with each `<COUNT TEXT>` written out.
pub fn meant(alloc: Global, line: &str) -> Result<Text, NoMemory> {
    let mut case = Text::new(alloc);
    for piece in line.split('<') {
        match piece.split_once('>') {
            Some((rounds, rest)) => {
                push_rounds(&mut case, rounds)?;
                push_meant(&mut case, rest)?;
            }
            None => push_meant(&mut case, piece)?,
        }
    }
    Ok(case)
}

/// Appends a text as often as the number before it says.
fn push_rounds(case: &mut Text, rounds: &str) -> Result<(), NoMemory> {
    let (count, text) = rounds.split_once(' ').unwrap_or(("0", ""));
    for round in 0..count.parse::<u32>().unwrap_or(0) {
        push_round(case, text, round)?;
    }
    Ok(())
}

/// Appends a text with a number in the place of its `#`.
fn push_round(case: &mut Text, text: &str, round: u32) -> Result<(), NoMemory> {
    match text.split_once('#') {
        Some((front, back)) => {
            push_meant(case, front)?;
            push_count(case, u64::from(round))?;
            push_meant(case, back)
        }
        None => push_meant(case, text),
    }
}

fn push_meant(case: &mut Text, text: &str) -> Result<(), NoMemory> {
    for sign in text.chars() {
        case.push_char(meant_sign(sign))?;
    }
    Ok(())
}

fn meant_sign(sign: char) -> char {
    match sign {
        '~' => '\n',
        '%' => '\r',
        '@' => '\u{feff}',
        _ => sign,
    }
}

/// The bytes that a text stands for.
pub fn bytes_of(alloc: Global, text: &str) -> Result<List<u8>, NoMemory> {
    let mut bytes = List::new(alloc);
    for byte in text.bytes() {
        bytes.push(if byte == b'^' { 255 } else { byte })?;
    }
    Ok(bytes)
}

/// Equal characters that follow one another.
#[derive(Clone, Copy)]
struct Run {
    sign: char,
    count: u32,
}

/// An answer as one line, with its long runs of equal characters shortened.
pub fn shortened(alloc: Global, answer: &str) -> Result<Text, NoMemory> {
    let mut line = Text::new(alloc);
    let mut run = Run {
        sign: ' ',
        count: 0,
    };
    for sign in answer.chars() {
        if sign == run.sign {
            run.count = run.count.saturating_add(1);
        } else {
            push_run(&mut line, run)?;
            run = Run { sign, count: 1 };
        }
    }
    push_run(&mut line, run)?;
    Ok(line)
}

fn push_run(line: &mut Text, run: Run) -> Result<(), NoMemory> {
    let sign = if run.sign == '\n' { '~' } else { run.sign };
    if run.count > LONGEST_RUN {
        return push_short(line, sign, run.count);
    }
    for _ in 0..run.count {
        line.push_char(sign)?;
    }
    Ok(())
}

fn push_short(line: &mut Text, sign: char, count: u32) -> Result<(), NoMemory> {
    line.push("<")?;
    push_count(line, u64::from(count))?;
    line.push(" ")?;
    line.push_char(sign)?;
    line.push(">")
}
