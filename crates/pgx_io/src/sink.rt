//! A sink for bytes, and the loop that writes a whole text.
ghost use Rattle.std.specs.Prelude.{◌≡◌, ◌<◌, ◌≤◌, length, IfOk, OnOk, OnErr};
ghost use Rattle.std.specs.Io.{WritesAtMost};
ghost use Rattle.std.specs.Io.KnownBytes.{WriteAppends, Appends};
ghost use Rattle.pgx_io.specs.Causes.{HasCause};
ghost use Rattle.pgx_io.specs.ReadWrite.{AppendsFront};

use crate::Failed;

/// A place that takes bytes, in order.
pub trait Sink {
    ghost use Rattle.pgx_io.specs.Seen.{SinkSeen};

    /// The bytes that the sink has taken, where it tells them, and how often it has failed.
    ghost seen: { Self → SinkSeen };

    /// Takes the first bytes of a piece and answers their number. To take none of a piece that is not empty is a failure.
    /// A call that failed was counted, and took nothing.
    fn write(&mut self, bytes: &[u8]) -> Result<usize, Failed>
        ensures bound { WritesAtMost result bytes.now }
        ensures bytes { WriteAppends (seen self.old).taken (seen self.new).taken result bytes.now }
        ensures progress { IfOk result (λ count. 0 < length bytes.now → 0 < count) }
        ensures cause { HasCause (seen self.old).faults (seen self.new).faults result };
}

/// Writes a whole text. After a failure, which was counted, the sink has taken a prefix of it.
pub fn write_all<K: Sink>(sink: &mut K, text: &[u8]) -> Result<(), Failed>
    ensures whole { OnOk result (Appends (K.seen sink.old).taken (K.seen sink.new).taken text.now) }
    ensures prefix { OnErr result (AppendsFront (K.seen sink.old).taken (K.seen sink.new).taken text.now) }
    ensures cause { HasCause (K.seen sink.old).faults (K.seen sink.new).faults result }
{
    let mut done = 0;
    while done < text.len() {
        done += sink.write(&text[done..])?;
    }
    Ok(())
}
