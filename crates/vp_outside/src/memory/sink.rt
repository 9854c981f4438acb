ghost use Rattle.std.specs.Prelude.{◌≡◌, ◌-◌, ◌<◌, ◌↔◌, ◌++◌, ◌⊎◌, [], min, max, length, take, Some, Contains, IsTrue, IsErr, IfOk, OnErr};
ghost use Rattle.std.specs.Io.KnownBytes.{WriteAppends};
ghost use Rattle.vp_outside.specs.Causes.{HasCause};
ghost use Rattle.vp_outside.specs.Counts.{next_count, held_count, held_count-bounded};
ghost use Rattle.vp_outside.specs.Content.{TakesSome};

use crate::{Failed, Listed, Reserved, Sink};
use std::alloc::{AllocError, Global};
use std::marker::Model;

/// Takes bytes up to its room. Call number k, from 0, fails where k stands in `fails` or `room` bytes
/// were written. Else it takes the whole piece, but no more than `takes` bytes, counted as at least 1,
/// and no more than the room left. A write takes no memory.
#[derive(Debug, Drop)]
pub struct MemSink {
    /// The bytes written.
    pub bytes: Reserved,
    /// How many bytes it takes in all.
    pub room: u32,
    /// The most bytes that a call takes.
    pub takes: u32,
    /// The numbers of the calls that fail.
    pub fails: Listed<u64>,
    /// How many calls there were; stays at `u64::MAX`.
    pub calls: u64,
    /// How many calls failed; stays at `u64::MAX`.
    pub faults: u64,
}

impl Model for MemSink {
    ghost use Rattle.std.specs.Prelude.{◌≤◌, length};
    ghost use Rattle.vp_outside.specs.Room.{SinkState};

    ghost Value = { SinkState };

    ghost view = { λ s. record {
      bytes = s.bytes.items;
      room = s.room;
      takes = s.takes;
      fails = s.fails;
      calls = s.calls;
      faults = s.faults;
    } };

    ghost invariant = { λ s. (length s.bytes.items ≤ s.room) × (s.room ≤ s.bytes.capacity) };
}

impl MemSink {
    /// A sink with nothing written, and memory for all that it takes.
    pub fn of(alloc: Global, room: u32, takes: u32, fails: Vec<u64>) -> Result<MemSink, AllocError>
        ensures { IfOk result (λ s. s ≡ record {
          bytes = [];
          room = room;
          takes = takes;
          fails = fails.items;
          calls = 0;
          faults = 0;
        }) }
    {
        Ok(MemSink {
            bytes: Reserved::of(Vec::with_capacity(alloc, room as usize)?),
            room,
            takes,
            fails: Listed::of(fails),
            calls: 0,
            faults: 0,
        })
    }

    /// Whether the next write fails.
    fn is_due_to_fail(&self) -> bool
        ensures { IsTrue result ↔
            (Contains self.now.fails self.now.calls ⊎ (length self.now.bytes ≡ self.now.room)) }
    {
        self.bytes.get().len() == self.room as usize || self.fails.get().contains(&self.calls)
    }
}

impl Sink for MemSink {
    ghost written = { λ s. Some s.bytes };

    ghost faults = { λ s. held_count s.faults };

    ghost bounded = { λ s. held_count-bounded s.faults };

    fn write(&mut self, piece: &[u8]) -> Result<usize, Failed>
        requires { 0 < length piece.now }
        ensures bound { TakesSome result piece.now }
        ensures bytes { WriteAppends (Some self.old.bytes) (Some self.new.bytes) result piece.now }
        ensures cause { HasCause (held_count self.old.faults) (held_count self.new.faults) result }
        ensures fails { IsErr result ↔
            (Contains self.old.fails self.old.calls ⊎ (length self.old.bytes ≡ self.old.room)) }
        ensures count { IfOk result (λ n. n ≡
            min (min (length piece.now) (max self.old.takes 1)) (self.old.room - length self.old.bytes)) }
        ensures ok { IfOk result (λ n. self.new ≡ record self.old {
          bytes = self.old.bytes ++ take n piece.now;
          calls = next_count self.old.calls;
        }) }
        ensures err { OnErr result (self.new ≡ record self.old {
          calls = next_count self.old.calls;
          faults = next_count self.old.faults;
        }) }
    {
        let fails = self.is_due_to_fail();
        self.calls = self.calls.saturating_add(1);
        if fails {
            self.faults = self.faults.saturating_add(1);
            return Err(Failed);
        }
        let left = self.room as usize - self.bytes.get().len();
        let count = piece.len().min(self.takes.max(1) as usize).min(left);
        self.bytes.append(&piece[..count]);
        Ok(count)
    }
}
