ghost use Rattle.std.specs.Prelude.{◌≡◌, ◌≤◌, ◌++◌, [], Some, None, OnOk, IsErrOf};
ghost use Rattle.ports.specs.Shelf.{Rises, raised};
ghost use Rattle.ports.specs.Sink.{Appends, AppendsPrefix, IsCalledOnce};
ghost use Rattle.ports.specs.Memory.{sink_of, taken_at, taken_of, next_fail};

use crate::sink::{Put, Sink};
use std::alloc::Global;
use std::marker::Model;

/// Bytes in memory, where some calls fail.
#[derive(Drop)]
pub struct MemorySink {
    bytes: Vec<u8>,
    fails: Vec<(u64, u32)>,
    calls: u64,
    faults: u64,
}

impl Model for MemorySink {
    ghost use Rattle.ports.specs.Memory.{HeldBytes};

    ghost Value = { HeldBytes };

    ghost view = { λ s. record { bytes = s.bytes.items; fails = s.fails.items; calls = s.calls; faults = s.faults } };
}

/// How many bytes the call with this number takes before it fails, where it is to fail.
fn taken_at(fails: &[(u64, u32)], call: u64) -> Option<u32>
    ensures { result ≡ taken_at fails.now call }
{
    for fail in fails {
        if fail.0 == call {
            return Some(fail.1);
        }
    }
    None
}

impl MemorySink {
    /// An empty sink, on which the call with the number `k`, counted from 1, fails where a pair
    /// `(k, n)` is in `fails`: it takes the first `n` bytes of its piece, or the whole piece where that
    /// is shorter.
    pub fn new(alloc: Global, fails: Vec<(u64, u32)>) -> Self
        ensures { result ≡ record { bytes = []; fails = fails.items; calls = 0; faults = 0 } }
    {
        MemorySink {
            bytes: Vec::new(alloc),
            fails,
            calls: 0,
            faults: 0,
        }
    }

    /// What was put so far.
    pub fn bytes(&self) -> &[u8]
        ensures { result.now ≡ self.now.bytes }
    {
        self.bytes.as_slice()
    }

    /// How often a call failed.
    pub fn faults(&self) -> u64
        ensures { result ≡ self.now.faults }
    {
        self.faults
    }
}

impl Sink for MemorySink {
    ghost meaning = { sink_of };

    fn put(&mut self, piece: &[u8]) -> Result<(), Put>
        // As each sink.
        ensures calls { IsCalledOnce (sink_of self.old) (sink_of self.new) }
        ensures ok { OnOk result (Appends (sink_of self.old).content piece.now (sink_of self.new).content) }
        ensures failed { IsErrOf result Put.Failed → Rises (sink_of self.old).faults (sink_of self.new).faults }
        ensures prefix { IsErrOf result Put.Failed → AppendsPrefix (sink_of self.old).content piece.now (sink_of self.new).content }
        ensures memory { IsErrOf result Put.Memory → (sink_of self.new).content ≡ (sink_of self.old).content }
        ensures faults { (sink_of self.old).faults ≤ (sink_of self.new).faults }
        ensures only_failed { (IsErrOf result Put.Failed → ⊥) → (sink_of self.new).faults ≡ (sink_of self.old).faults }

        // What this call takes, and whether it fails.
        ensures fails { self.new.fails ≡ self.old.fails }
        ensures none_fails { OnOk result (next_fail self.old ≡ None) }
        ensures taken { IsErrOf result Put.Failed → self.new.bytes ≡ self.old.bytes ++ taken_of (next_fail self.old) piece.now }
        ensures is_failed { IsErrOf result Put.Failed → next_fail self.old ≡ None → ⊥ }
        ensures one_fault { IsErrOf result Put.Failed → self.new.faults ≡ raised self.old.faults }
    {
        self.calls = self.calls.saturating_add(1);
        match taken_at(&self.fails, self.calls) {
            None => {
                self.bytes.extend_from_slice(piece)?;
                Ok(())
            }
            Some(taken) => {
                let taken = piece.len().min(taken as usize);
                self.bytes.extend_from_slice(&piece[..taken])?;
                self.faults = self.faults.saturating_add(1);
                Err(Put::Failed)
            }
        }
    }
}
