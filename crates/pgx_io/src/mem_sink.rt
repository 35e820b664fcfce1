//! A sink in memory.
ghost use Rattle.std.specs.Prelude.{◌≡◌, ◌<◌, ◌≤◌, ◌-◌, ◌⊎◌, ℕ, List, [], length, min, Some, IfOk, OnOk, OnErr, IsErr, ◌↔◌, Contains};
ghost use Rattle.std.specs.Io.{WritesAtMost};
ghost use Rattle.std.specs.Io.KnownBytes.{WriteAppends};
ghost use Rattle.pgx_io.specs.Causes.{HasCause};
ghost use Rattle.pgx_io.specs.Memory.{one_more, IsFull};

use crate::mem_source::is_listed;
use crate::{Failed, Sink};
use column_types::{List, NoMemory};
use std::alloc::Global;
use std::marker::Model;

/// A sink with room for a number of bytes, whose listed calls fail: seen as the bytes taken, the room, the most that one
/// call takes, the numbers of the failing calls, and how many calls were made and have failed. It takes its memory when it
/// is made.
#[derive(Drop)]
pub struct MemSink {
    bytes: Vec<u8>,
    room: u32,
    piece: u32,
    fails: List<u32>,
    calls: u64,
    faults: u64,
}

impl Model for MemSink {
    ghost use Rattle.std.specs.Prelude.{◌≤◌, vec_len, vec_capacity};
    ghost use Rattle.pgx_io.specs.Memory.{FailingWriter};

    ghost Value = { FailingWriter };

    ghost view = { λ s. record { bytes = s.bytes.items; room = s.room; piece = s.piece; fails = s.fails; calls = s.calls; faults = s.faults } };

    ghost invariant = { λ s. (vec_len s.bytes ≤ s.room) × (s.room ≤ vec_capacity s.bytes) × (1 ≤ s.piece) };
}

impl MemSink {
    /// A sink with room for `room` bytes, of which one call takes at most `piece`. The calls whose numbers `fails` lists
    /// fail, counted from 1.
    pub fn new(alloc: Global, room: u32, piece: u32, fails: List<u32>) -> Result<MemSink, NoMemory>
        requires { 1 ≤ piece }
        ensures { IfOk result (λ sink. sink ≡ record { bytes = []; room = room; piece = piece; fails = fails; calls = 0; faults = 0 }) }
    {
        Ok(MemSink {
            bytes: Vec::with_capacity(alloc, room as usize)?,
            room,
            piece,
            fails,
            calls: 0,
            faults: 0,
        })
    }

    /// The bytes taken.
    pub fn bytes(&self) -> &[u8]
        ensures taken { result.now ≡ self.now.bytes }
        ensures within { length self.now.bytes ≤ self.now.room }
    {
        self.bytes.as_slice()
    }
}

impl Sink for MemSink {
    ghost seen = { λ s. record { taken = Some s.bytes; faults = s.faults } };

    fn write(&mut self, bytes: &[u8]) -> Result<usize, Failed>
        ensures bound { WritesAtMost result bytes.now }
        ensures bytes { WriteAppends (Some self.old.bytes) (Some self.new.bytes) result bytes.now }
        ensures progress { IfOk result (λ count. 0 < length bytes.now → 0 < count) }
        ensures cause { HasCause self.old.faults self.new.faults result }

        // A write fails at the listed calls, and where no room is left for a piece that is not empty.
        ensures listed { IsErr result ↔ (Contains self.old.fails (one_more self.old.calls)
            ⊎ IsFull self.old (length bytes.now)) }
        ensures moved { IfOk result (λ count. count ≡ min self.old.piece (min (length bytes.now) (self.old.room - length self.old.bytes))) }
        ensures within { length self.new.bytes ≤ self.new.room }
        ensures counted { self.new.calls ≡ one_more self.old.calls }
        ensures failed { OnErr result (self.new.faults ≡ one_more self.old.faults) }
        ensures fine { OnOk result (self.new.faults ≡ self.old.faults) }
        ensures kept { (self.new.room ≡ self.old.room) × (self.new.piece ≡ self.old.piece) × (self.new.fails ≡ self.old.fails) }
    {
        self.calls = self.calls.saturating_add(1);
        let left = self.room as usize - self.bytes.len();
        let full = left == 0 && !bytes.is_empty();
        if is_listed(self.fails.as_slice(), self.calls) || full {
            self.faults = self.faults.saturating_add(1);
            return Err(Failed);
        }
        let count = (self.piece as usize).min(bytes.len().min(left));
        self.bytes.extend_from_slice(&bytes[..count]).unwrap();
        Ok(count)
    }
}
