ghost use Rattle.std.specs.Prelude.{◌≡◌, ◌+◌, ◌++◌, ◌-◌, ◌^◌, ◌≤◌, IfSome, IsOk, [], OnErr, OnOk, Some, is_err, is_ok, is_some, length, min, take, true, vec_capacity, vec_len};
ghost use Rattle.lab_store.specs.Calls.{is_unfailing, kept_now, kept_of, may_fail};

use crate::stream::{Failed, Sink};
use crdt_laws::{List, NoMemory};
use std::alloc::Global;

/// That a write fails, and what it leaves.
#[derive(Clone, Copy, Debug, PartialEq, Eq)]
pub struct Keep {
    /// The number of the write, counted from 0.
    pub call: u32,
    /// How many of its bytes are written, or all where there are fewer.
    pub kept: u32,
}

/// Memory as a sink, which fails at the writes that it is told to.
#[derive(Drop)]
pub struct MemSink {
    /// What was written. It is a Vec, since contracts speak of its capacity.
    pub bytes: Vec<u8>,
    /// How many writes there have been. It stays at its last value.
    pub calls: u32,
    /// The writes that fail: for each the first entry that names it counts. A write that finds a counter at its last value
    /// does not fail.
    pub failing: List<Keep>,
    /// How many writes have failed. It stays at its last value.
    pub faults: u64,
}

/// How many bytes the call keeps, where it is one of these.
fn kept_of(failing: &[Keep], call: u32) -> Option<u32>
    ensures { result ≡ kept_of failing.now call }
{
    for keep in failing {
        if keep.call == call {
            return Some(keep.kept);
        }
    }
    None
}

impl MemSink {
    /// An empty sink.
    pub fn of(alloc: Global, failing: List<Keep>) -> MemSink
        ensures empty { (length result.bytes.items ≡ 0) × (result.calls ≡ 0) × (result.faults ≡ 0) }
        ensures told { result.failing ≡ failing }
    {
        MemSink {
            bytes: Vec::new(alloc),
            calls: 0,
            failing,
            faults: 0,
        }
    }

    /// Writes the bytes, for which there is room.
    fn write(&mut self, bytes: &[u8]) -> Result<(), Failed>
        requires { length bytes.now ≤ vec_capacity self.old.bytes - vec_len self.old.bytes }
        ensures ok { is_ok result ≡ true }
        ensures written { self.new.bytes.items ≡ self.old.bytes.items ++ bytes.now }
        ensures kept { (self.new.calls ≡ self.old.calls) × (self.new.failing ≡ self.old.failing) × (self.new.faults ≡ self.old.faults) }
    {
        match self.bytes.extend_from_slice(bytes) {
            Ok(()) => Ok(()),
            Err(_) => Err(Failed),
        }
    }

    /// How many bytes the next write keeps, where it fails.
    fn kept_now(&self) -> Option<u32>
        ensures { result ≡ kept_now self.now.failing self.now.calls self.now.faults }
    {
        if self.calls < u32::MAX && self.faults < u64::MAX {
            kept_of(self.failing.items.as_slice(), self.calls)
        } else {
            None
        }
    }
}

impl Sink for MemSink {
    ghost told = { λ s. Some s.bytes.items };

    ghost faults = { λ s. s.faults };

    ghost unfailing = { λ s. is_unfailing s.failing };

    ghost spare = { λ s. vec_capacity s.bytes - vec_len s.bytes };

    fn room(&mut self, alloc: Global, more: u64) -> Result<(), NoMemory>
        ensures spare { OnOk result (more ≤ vec_capacity self.new.bytes - vec_len self.new.bytes) }
        ensures told { self.new.bytes.items ≡ self.old.bytes.items }
        ensures faults { self.new.faults ≡ self.old.faults }
        ensures calls { (self.new.calls ≡ self.old.calls) × (self.new.failing ≡ self.old.failing) }
    {
        match self.bytes.reserve(more as usize) {
            Ok(()) => Ok(()),
            Err(_) => Err(NoMemory),
        }
    }

    fn put(&mut self, bytes: &[u8]) -> Result<(), Failed>
        requires { length bytes.now ≤ vec_capacity self.old.bytes - vec_len self.old.bytes }
        ensures ok { OnOk result (self.new.bytes.items ≡ self.old.bytes.items ++ bytes.now) }
        ensures part { OnErr result (IfSome (kept_now self.old.failing self.old.calls self.old.faults) (λ k. self.new.bytes.items ≡ self.old.bytes.items ++ take k bytes.now)) }
        ensures fails { is_err result ≡ is_some (kept_now self.old.failing self.old.calls self.old.faults) }
        ensures none_fail { self.old.failing ≡ [] → IsOk result }
        ensures no_fault { OnOk result (self.new.faults ≡ self.old.faults) }
        ensures fault { OnErr result (self.new.faults ≡ self.old.faults + 1) }
        ensures calls { (self.new.calls ≡ min (self.old.calls + 1) (2 ^ 32 - 1)) × (self.new.failing ≡ self.old.failing) }
    {
        let kept = self.kept_now();
        self.calls = self.calls.saturating_add(1);
        match kept {
            None => self.write(bytes),
            Some(count) => {
                let end = bytes.len().min(count as usize);
                self.write(&bytes[..end])?;
                self.faults += 1;
                Err(Failed)
            }
        }
    }
}
