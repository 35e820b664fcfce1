//! A source of bytes, and the loop that reads one to its end.
ghost use Rattle.std.specs.Prelude.{◌≡◌, ◌<◌, ◌≤◌, length, IfOk, OnOk, OnErr, IsErrOf};
ghost use Rattle.std.specs.Io.{ReadsAtMost};
ghost use Rattle.std.specs.Io.KnownBytes.{ReadConsumes, Consumes, IsAtEnd};
ghost use Rattle.pgx_io.specs.Causes.{HasCause};
ghost use Rattle.pgx_io.specs.ReadWrite.{ReadsWhole, TakesFront};
ghost use Rattle.pgx_io.specs.Seen.{SourceFailed};

use column_types::{List, NoMemory};
use std::alloc::Global;
use thiserror::Error;

/// The object failed, and counted it.
#[derive(Clone, Copy, Debug, PartialEq, Eq, Error)]
#[error("the outside failed")]
pub struct Failed;

/// Bytes to read, in order.
pub trait Source {
    ghost use Rattle.pgx_io.specs.Seen.{SourceSeen};

    /// The bytes that are left to read, where the source tells them, and how often it has failed.
    ghost seen: { Self → SourceSeen };

    /// Reads some of the bytes that are left into the start of `buf` and answers their number, 0 exactly at the end.
    /// A call that failed was counted, and what is left is as before.
    fn read(&mut self, buf: &mut [u8]) -> Result<usize, Failed>
        requires { 0 < length buf.old }
        ensures bound { ReadsAtMost result buf.new }
        ensures bytes { ReadConsumes (seen self.old).rest (seen self.new).rest result buf.new }
        ensures cause { HasCause (seen self.old).faults (seen self.new).faults result };
}

/// The most bytes that `read_all` accepts.
pub const LIMIT: usize = 16_777_216;

/// How many bytes `read_all` asks for at a time.
const PIECE: usize = 16_384;

/// Why a source was not read to its end.
#[derive(Clone, Copy, Debug, PartialEq, Eq, Error)]
pub enum ReadAllFault {
    /// The source has more than `LIMIT` bytes.
    #[error("more than 16777216 bytes")]
    TooLong,
    /// The source failed, and its count of faults rose in this call.
    #[error("the source failed")]
    Failed,
    #[error("out of memory")]
    NoMemory,
}

impl From<NoMemory> for ReadAllFault {
    ghost use Rattle.pgx_io.specs.declared.source.ReadAllFault.TheVariants.{NoMemory};

    ghost from_gives = { λ _ e. e ≡ NoMemory };

    fn from(_error: NoMemory) -> ReadAllFault {
        ReadAllFault::NoMemory
    }
}

impl From<Failed> for ReadAllFault {
    ghost use Rattle.pgx_io.specs.declared.source.ReadAllFault.TheVariants.{Failed};

    ghost from_gives = { λ _ e. e ≡ Failed };

    fn from(_error: Failed) -> ReadAllFault {
        ReadAllFault::Failed
    }
}

/// Reads a source to its end. Each read but the last takes a byte, and none follows the byte that is one too many, so
/// there are at most 16,777,217 reads. After an error some of the bytes were taken and are lost.
#[tactic(auto, using(crate::proofs::Wholes::reads_whole))]
pub fn read_all<S: Source>(alloc: Global, source: &mut S) -> Result<List<u8>, ReadAllFault>
    ensures told { ReadsWhole (S.seen source.old).rest result }
    ensures whole { IfOk result (λ bytes. Consumes (S.seen source.old).rest (S.seen source.new).rest bytes) }
    ensures end { OnOk result (IsAtEnd (S.seen source.new).rest) }
    ensures short { IfOk result (λ bytes. length bytes ≤ LIMIT) }
    ensures left { OnErr result (TakesFront (S.seen source.old).rest (S.seen source.new).rest) }
    ensures failed { IsErrOf result ReadAllFault.Failed → SourceFailed (S.seen source.old) (S.seen source.new) }
    ensures later { (S.seen source.old).faults ≤ (S.seen source.new).faults }
{
    let mut piece = [0u8; PIECE];
    let mut bytes = List::new(alloc);
    for _turn in 0..LIMIT + 1 {
        let count = source.read(&mut piece)?;
        if count == 0 {
            return Ok(bytes);
        }
        bytes.extend_from_slice(&piece[..count])?;
        if bytes.len() > LIMIT {
            return Err(ReadAllFault::TooLong);
        }
    }
    unreachable!()
}
