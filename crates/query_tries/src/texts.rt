//! The texts that lines stand for.

use std::alloc::{AllocError, Global};

/// The text that a line stands for.
pub fn meant(alloc: Global, line: &str) -> Result<String, AllocError> {
    let mut text = String::new(alloc);
    for (number, part) in line.split('{').enumerate() {
        if number == 0 {
            push_signs(&mut text, part)?;
        } else {
            push_repeated(&mut text, part)?;
        }
    }
    Ok(text)
}

/// Appends what stands behind a `{`: a number, a star, a text and `}`, and then more.
fn push_repeated(text: &mut String, part: &str) -> Result<(), AllocError> {
    let (inside, more) = part.split_once('}').unwrap_or((part, ""));
    let (times, again) = inside.split_once('*').unwrap_or(("1", inside));
    for _ in 0..times.parse::<u32>().unwrap_or(0) {
        push_signs(text, again)?;
    }
    push_signs(text, more)
}

fn push_signs(text: &mut String, part: &str) -> Result<(), AllocError> {
    for c in part.chars() {
        text.push(meant_char(c))?;
    }
    Ok(())
}

fn meant_char(c: char) -> char {
    match c {
        '~' => '\n',
        '^' => '\r',
        '`' => '\t',
        _ => c,
    }
}

/// A text with `~` in place of each line feed.
pub fn in_one_line(alloc: Global, text: &str) -> Result<String, AllocError> {
    let mut line = String::new(alloc);
    for c in text.chars() {
        line.push(if c == '\n' { '~' } else { c })?;
    }
    Ok(line)
}
