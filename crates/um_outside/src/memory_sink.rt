//! A sink in memory, for tests.

ghost use Rattle.std.specs.Prelude.{◌≡◌, ◌<◌, ◌≤◌, ◌-◌, ◌+◌, ◌∷◌, ◌++◌, [], length, min, false, ◌||◌, nat_le, is_err, OnOk, OnErr, IfOk};

use crate::append::append_reserved;
use crate::calls::Calls;
use crate::{Failed, Sink};
use std::alloc::Global;
use um_num::{List, Memory};

/// Takes as many bytes as it can, at most `piece` per write, while it has room for them.
#[derive(Drop)]
pub struct MemorySink {
    held: List<u8>,
    /// How many bytes it may hold in all; none until it is set.
    room: usize,
    piece: usize,
    calls: Calls,
    stopped: bool,
    ghost piece_up: { 1 ≤ piece },
    ghost room_kept: { room ≤ length held.items + held.spare },
}

impl MemorySink {
    ghost use Rattle.um_outside.specs.MemorySinks.{state_of};

    pub fn new(alloc: Global, piece: usize) -> MemorySink
        requires { 1 ≤ piece }
        ensures { state_of result ≡ record { held = []; room = 0; piece = piece; calls = 0; failing = []; stopped = false } }
    {
        MemorySink {
            held: List::new(alloc),
            room: 0,
            piece,
            calls: Calls::new(alloc),
            stopped: false,
        }
    }

    /// The write of this number since making, from 1, fails.
    pub fn fail_at(&mut self, call: u64) -> Result<(), Memory>
        ensures ok { OnOk result (state_of self.new ≡ record (state_of self.old) { failing = (state_of self.old).failing ++ call ∷ [] }) }
        ensures err { OnErr result (state_of self.new ≡ state_of self.old) }
    {
        self.calls.fail_at(call)
    }

    /// Sets how many bytes it may hold in all.
    pub fn room(&mut self, bytes: usize) -> Result<(), Memory>
        ensures ok { OnOk result (state_of self.new ≡ record (state_of self.old) { room = bytes }) }
        ensures err { OnErr result (state_of self.new ≡ state_of self.old) }
    {
        self.held.reserve(bytes.saturating_sub(self.held.len()))?;
        self.room = bytes;
        Ok(())
    }

    pub fn bytes(&self) -> &[u8]
        ensures { result.now ≡ (state_of self.now).held }
    {
        self.held.as_slice()
    }
}

impl Sink for MemorySink {
    ghost use Rattle.um_outside.specs.MemorySinks.{told_of, state_of, WriteMade, write_fails_next};
    ghost use Rattle.um_outside.specs.Sinks.{Writes};

    ghost told = { told_of };

    fn write(&mut self, from: &[u8]) -> Result<usize, Failed>
        requires going { self.old.stopped ≡ false }
        requires some { 0 < length from.now }
        ensures told { Writes from.now (told_of self.old) result (told_of self.new) }
        ensures failed { is_err result ≡ (write_fails_next self.old || nat_le self.old.room (length self.old.held.items)) }
        ensures count { IfOk result (λ n. n ≡ min (min (length from.now) self.old.piece) (self.old.room - length self.old.held.items)) }
        ensures made { WriteMade (state_of self.old) (state_of self.new) }
    {
        if self.calls.next() {
            self.stopped = true;
            return Err(Failed);
        }
        let left = self.room.saturating_sub(self.held.len());
        if left == 0 {
            self.stopped = true;
            return Err(Failed);
        }
        let count = from.len().min(self.piece).min(left);
        append_reserved(&mut self.held, &from[..count]);
        Ok(count)
    }
}
