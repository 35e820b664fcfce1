//! Numbers in decimal.
ghost use Rattle.std.specs.Prelude.{◌≡◌, ◌++◌, OnOk, OnErr};
ghost use Rattle.std.specs.Fmt.{decimal, signed_decimal};

use column_types::{NoMemory, Text};
use itoa::Buffer;

/// Appends a number in decimal, with `-` where it is negative.
pub fn push_number(out: &mut Text, n: i64) -> Result<(), NoMemory>
    ensures ok { OnOk result (out.new ≡ out.old ++ signed_decimal n) }
    ensures err { OnErr result (out.new ≡ out.old) }
{
    out.push(Buffer::new().format(n))
}

/// Appends a number without sign in decimal.
pub fn push_count(out: &mut Text, n: u64) -> Result<(), NoMemory>
    ensures ok { OnOk result (out.new ≡ out.old ++ decimal n) }
    ensures err { OnErr result (out.new ≡ out.old) }
{
    let mut buffer = Buffer::new();
    out.push(buffer.format(n))
}
