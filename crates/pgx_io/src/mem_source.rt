//! Sources in memory.
ghost use Rattle.std.specs.Prelude.{◌≡◌, ◌<◌, ◌≤◌, ℕ, List, [], length, take, min, Some, IfOk, OnOk, OnErr, IsErr, ◌↔◌, IsTrue, Contains};
ghost use Rattle.std.specs.Io.{ReadsAtMost};
ghost use Rattle.std.specs.Io.KnownBytes.{ReadConsumes};
ghost use Rattle.pgx_io.specs.Causes.{HasCause};
ghost use Rattle.pgx_io.specs.Memory.{one_more};

use crate::{Failed, Source};
use column_types::List;
use std::marker::Model;

/// Bytes in memory, read without failure: seen as the bytes left and the most that one call gives.
#[derive(Drop)]
pub struct SureSource {
    bytes: List<u8>,
    at: usize,
    piece: u32,
}

impl Model for SureSource {
    ghost use Rattle.std.specs.Prelude.{◌≤◌, drop, length};
    ghost use Rattle.pgx_io.specs.Memory.{Reader};

    ghost Value = { Reader };

    ghost view = { λ s. record { rest = drop s.at s.bytes; piece = s.piece } };

    ghost invariant = { λ s. (s.at ≤ length s.bytes) × (1 ≤ s.piece) };
}

impl SureSource {
    /// A source of `bytes`, of which one call gives at most `piece`.
    pub fn new(bytes: List<u8>, piece: u32) -> SureSource
        requires { 1 ≤ piece }
        ensures { result ≡ record { rest = bytes; piece = piece } }
    {
        SureSource {
            bytes,
            at: 0,
            piece,
        }
    }
}

impl Source for SureSource {
    ghost seen = { λ s. record { rest = Some s.rest; faults = 0 } };

    fn read(&mut self, buf: &mut [u8]) -> Result<usize, Failed>
        requires { 0 < length buf.old }
        ensures bound { ReadsAtMost result buf.new }
        ensures bytes { ReadConsumes (Some self.old.rest) (Some self.new.rest) result buf.new }
        ensures cause { HasCause 0 0 result }
        ensures moved { IfOk result (λ count. count ≡ min self.old.piece (min (length buf.old) (length self.old.rest))) }
        ensures kept { self.new.piece ≡ self.old.piece }
    {
        let count = move_front(&self.bytes.as_slice()[self.at..], self.piece, buf);
        self.at += count;
        Ok(count)
    }
}

/// Moves as many bytes as fit to the start of `buf`, at most `piece`.
fn move_front(rest: &[u8], piece: u32, buf: &mut [u8]) -> usize
    requires { 0 < length buf.old }
    ensures count { result ≡ min piece (min (length buf.old) (length rest.now)) }
    ensures bytes { take result buf.new ≡ take result rest.now }
{
    let count = (piece as usize).min(buf.len().min(rest.len()));
    buf[..count].copy_from_slice(&rest[..count]);
    count
}

/// Bytes in memory whose listed calls fail: seen as the bytes left, the most that one call gives, the numbers of the
/// failing calls, and how many calls were made and have failed.
#[derive(Drop)]
pub struct MemSource {
    inner: SureSource,
    fails: List<u32>,
    calls: u64,
    faults: u64,
}

impl Model for MemSource {
    ghost use Rattle.pgx_io.specs.Memory.{FailingReader};

    ghost Value = { FailingReader };

    ghost view = { λ s. record { rest = s.inner.rest; piece = s.inner.piece; fails = s.fails; calls = s.calls; faults = s.faults } };
}

impl MemSource {
    /// A source of `bytes`, of which one call gives at most `piece`. The calls whose numbers `fails` lists fail, counted
    /// from 1.
    pub fn new(bytes: List<u8>, piece: u32, fails: List<u32>) -> MemSource
        requires { 1 ≤ piece }
        ensures { result ≡ record { rest = bytes; piece = piece; fails = fails; calls = 0; faults = 0 } }
    {
        MemSource {
            inner: SureSource::new(bytes, piece),
            fails,
            calls: 0,
            faults: 0,
        }
    }
}

impl Source for MemSource {
    ghost seen = { λ s. record { rest = Some s.rest; faults = s.faults } };

    fn read(&mut self, buf: &mut [u8]) -> Result<usize, Failed>
        requires { 0 < length buf.old }
        ensures bound { ReadsAtMost result buf.new }
        ensures bytes { ReadConsumes (Some self.old.rest) (Some self.new.rest) result buf.new }
        ensures cause { HasCause self.old.faults self.new.faults result }
        ensures listed { IsErr result ↔ Contains self.old.fails (one_more self.old.calls) }
        ensures moved { IfOk result (λ count. count ≡ min self.old.piece (min (length buf.old) (length self.old.rest))) }
        ensures counted { self.new.calls ≡ one_more self.old.calls }
        ensures failed { OnErr result (self.new.faults ≡ one_more self.old.faults) }
        ensures fine { OnOk result (self.new.faults ≡ self.old.faults) }
        ensures kept { (self.new.piece ≡ self.old.piece) × (self.new.fails ≡ self.old.fails) }
    {
        self.calls = self.calls.saturating_add(1);
        if is_listed(self.fails.as_slice(), self.calls) {
            self.faults = self.faults.saturating_add(1);
            return Err(Failed);
        }
        self.inner.read(buf)
    }
}

/// Whether a call is among those that fail.
pub(crate) fn is_listed(fails: &[u32], call: u64) -> bool
    ensures { IsTrue result ↔ Contains fails.now call }
{
    fails.iter().any(|number| u64::from(*number) == call)
}
