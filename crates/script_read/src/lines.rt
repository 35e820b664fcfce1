//! The lines of a script.
ghost use Rattle.std.specs.Prelude.{◌≡◌, ◌<◌, ◌∷◌, length};
ghost use Rattle.script_read.specs.Lines.{lines_of, cleaned, is_passed};

/// The first line, and what stands behind it.
pub fn first_line(bytes: &[u8]) -> (&[u8], &[u8])
    requires { 0 < length bytes.now }
    ensures lines { lines_of bytes.now ≡ result.0.now ∷ lines_of result.1.now }
    ensures shorter { length result.1.now < length bytes.now }
{
    for (i, byte) in bytes.iter().enumerate() {
        if *byte == b'\n' {
            return (&bytes[..i], &bytes[i + 1..]);
        }
    }
    (bytes, &[])
}

/// A line without one carriage return at its end, and then without the spaces at its start.
pub fn cleaned(line: &[u8]) -> &[u8]
    ensures { result.now ≡ cleaned line.now }
{
    let mut rest = line;
    if let [front @ .., b'\r'] = line {
        rest = front;
    }
    while let [b' ', after @ ..] = rest {
        rest = after;
    }
    rest
}

/// Whether a cleaned line is passed over: it is empty, or begins with `#`.
pub fn is_passed(line: &[u8]) -> bool
    ensures { result ≡ is_passed line.now }
{
    match line {
        [] => true,
        [first, ..] => *first == b'#',
    }
}
