//! A sink that keeps in memory what it takes.
ghost use Rattle.std.specs.Prelude.{◌≡◌, ◌↔◌, length, IfOk, IsErr, IsTrue};
ghost use Rattle.ice_edge.specs.Puts.{IsPut};
ghost use Rattle.ice_edge.specs.MemorySink.{told_of, taken_of, is_due as due, empty_sink, with_planned, is_next_failing, after_put};

use crate::{NoMemory, Sink, SinkFault};
use std::alloc::Global;
use std::marker::Model;

/// A put that is to fail: its number, from 1 on, and how many bytes of its piece it takes at most.
#[derive(Clone, Copy, Debug)]
pub struct PlannedFault {
    /// The number of the put, from 1 on.
    pub call: u64,
    /// How many bytes of its piece it takes at most.
    pub taken: usize,
}

/// Output in memory, for tests, with room for so many bytes, which are taken when it is made.
#[derive(Drop)]
pub struct MemSink {
    bytes: Vec<u8>,
    room: usize,
    planned: Option<PlannedFault>,
    calls: u64,
    faults: u64,
}

impl Model for MemSink {
    ghost use Rattle.std.specs.Prelude.{◌≤◌, vec_len, vec_capacity};
    ghost use Rattle.ice_edge.specs.MemorySink.{SinkState};

    ghost Value = { SinkState };

    ghost view = { λ s. record { bytes = s.bytes.items; room = s.room; planned = s.planned; calls = s.calls; faults = s.faults } };

    ghost invariant = { λ s. (s.room ≤ vec_capacity s.bytes) × (vec_len s.bytes ≤ s.room) };
}

/// How many bytes of a piece the put with this number takes.
fn taken(planned: Option<PlannedFault>, call: u64, piece: usize, room: usize) -> usize
    ensures { result ≡ taken_of planned call piece room }
{
    let most = piece.min(room);
    match planned {
        Some(fault) if fault.call == call => fault.taken.min(most),
        _ => most,
    }
}

/// Whether the put with this number is to fail.
fn is_due(planned: Option<PlannedFault>, call: u64) -> bool
    ensures { result ≡ due planned call }
{
    match planned {
        Some(fault) => fault.call == call,
        None => false,
    }
}

impl MemSink {
    /// An empty sink with room for so many bytes, of which no put is to fail.
    pub fn new(alloc: Global, room: usize) -> Result<MemSink, NoMemory>
        ensures { IfOk result (λ sink. sink ≡ empty_sink room) }
    {
        match Vec::with_capacity(alloc, room) {
            Ok(bytes) => Ok(MemSink {
                bytes,
                room,
                planned: None,
                calls: 0,
                faults: 0,
            }),
            Err(_) => Err(NoMemory),
        }
    }

    /// Makes the put with this number fail, counted from 1 on since the sink was made, after it
    /// took at most so many bytes of its piece. Of several such calls the last one counts alone.
    pub fn fail_at(&mut self, call: u32, taken: usize)
        ensures { self.new ≡ with_planned self.old call taken }
    {
        self.planned = Some(PlannedFault {
            call: u64::from(call),
            taken,
        });
    }

    /// What it has taken.
    pub fn bytes(&self) -> &[u8]
        ensures { result.now ≡ self.now.bytes }
    {
        &self.bytes
    }
}

impl Sink for MemSink {
    ghost taken = { told_of };

    fn put(&mut self, piece: &[u8]) -> Result<(), SinkFault>
        ensures put { IsPut piece.now result (told_of self.old) (told_of self.new) }

        // It takes what fits and is not planned to fail, and fails exactly where it is told to, or
        // where that is not the whole piece. It takes no memory.
        ensures after { self.new ≡ after_put self.old piece.now }
        ensures fails { IsErr result ↔ IsTrue (is_next_failing self.old (length piece.now)) }
    {
        self.calls = self.calls.saturating_add(1);
        let room = self.room - self.bytes.len();
        let count = taken(self.planned, self.calls, piece.len(), room);
        self.bytes.extend_from_slice(&piece[..count]).unwrap();
        if is_due(self.planned, self.calls) || count < piece.len() {
            self.faults = self.faults.saturating_add(1);
            return Err(SinkFault::Failed);
        }
        Ok(())
    }
}
