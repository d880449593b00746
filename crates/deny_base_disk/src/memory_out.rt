ghost use Rattle.std.specs.Prelude.{◌≡◌, ◌-◌, ◌<◌, ◌≤◌, ◌↔◌, ◌++◌, [], length, take};
ghost use Rattle.std.specs.Prelude.{min, Some, IsErr, IfOk, OnOk, OnErr, MatchResult};
ghost use Rattle.deny_base_disk.specs.Count.{Rose, counted};
ghost use Rattle.deny_base_disk.specs.Out.{Appends, AppendsPrefix};

use crate::out::{Out, OutFault};
use deny_base_lists::NoMemory;
use std::alloc::Global;
use std::marker::Model;

/// An output that keeps its bytes in memory, and has room for a fixed number of them.
#[derive(Drop)]
pub struct MemoryOut {
    bytes: Vec<u8>,
    room: usize,
    faults: u64,
}

impl Model for MemoryOut {
    ghost use Rattle.std.specs.Prelude.{◌+◌, ◌≤◌, length, vec_capacity};
    ghost use Rattle.deny_base_disk.specs.MemoryOut.{BoundedOutput};

    ghost Value = { BoundedOutput };

    ghost view = { λ o. record { bytes = o.bytes.items; room = o.room; faults = o.faults } };

    ghost invariant = { λ o. length o.bytes.items + o.room ≤ vec_capacity o.bytes };
}

impl MemoryOut {
    /// An empty output with room for `room` bytes, whose memory it allocates.
    pub fn new(alloc: Global, room: usize) -> Result<MemoryOut, NoMemory>
        ensures { IfOk result (λ out. out ≡ record { bytes = []; room = room; faults = 0 }) }
    {
        Ok(MemoryOut {
            bytes: Vec::with_capacity(alloc, room)?,
            room,
            faults: 0,
        })
    }

    /// The bytes written so far.
    pub fn bytes(&self) -> &[u8]
        ensures { result.now ≡ self.now.bytes }
    {
        self.bytes.as_slice()
    }
}

impl Out for MemoryOut {
    ghost written = { λ out. Some out.bytes };

    ghost faults = { λ out. out.faults };

    /// Takes as many of the bytes as there is room for, and fails exactly where there are more.
    fn put(&mut self, bytes: &[u8]) -> Result<(), OutFault>
        ensures ok { OnOk result (Appends (Some self.old.bytes) (Some self.new.bytes) bytes.now) }
        ensures prefix { OnErr result
            (AppendsPrefix (Some self.old.bytes) (Some self.new.bytes) bytes.now) }
        ensures later { self.old.faults ≤ self.new.faults }
        ensures failed { OnErr result (Rose self.old.faults self.new.faults) }

        ensures too_long { IsErr result ↔ (self.old.room < length bytes.now) }
        ensures taken { self.new.bytes ≡ self.old.bytes ++ take self.old.room bytes.now }
        ensures room { self.new.room ≡ self.old.room - length bytes.now }
        ensures counted { MatchResult result
            (λ _. self.new.faults ≡ self.old.faults)
            (λ _. self.new.faults ≡ counted self.old.faults 1) }
    {
        let taken = bytes.len().min(self.room);
        self.bytes.extend_from_slice(&bytes[..taken]).unwrap();
        self.room -= taken;
        if taken < bytes.len() {
            self.faults = self.faults.saturating_add(1);
            return Err(OutFault);
        }
        Ok(())
    }
}
