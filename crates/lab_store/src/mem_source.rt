ghost use Rattle.std.specs.Prelude.{◌≡◌, ◌+◌, ◌-◌, ◌^◌, ◌≤◌, ◌&&◌, IfOk, IsOk, [], OnErr, OnOk, Some, drop, is_err, length, min};
ghost use Rattle.lab_store.specs.Calls.{is_named, is_unfailing, may_fail};
ghost use Rattle.lab_store.specs.Stream.{Takes};

use crate::stream::{Failed, Source};
use crdt_laws::{Bytes, List};

/// Bytes in memory as a source that gives some of them at each call, and fails at the calls that it is told to.
#[derive(Drop)]
pub struct MemSource {
    pub bytes: Bytes,
    /// How many bytes have been taken.
    pub at: u64,
    /// How many bytes a call gives at most, which is at least 1.
    pub piece: u32,
    /// How many calls there have been. It stays at its last value.
    pub calls: u32,
    /// The numbers of the calls that fail, counted from 0. A call that finds a counter at its last value does not fail.
    pub failing: List<u32>,
    /// How many calls have failed. It stays at its last value.
    pub faults: u64,
    ghost some: { 1 ≤ piece },
    ghost within: { at ≤ length bytes },
}

/// Whether the call is one of these.
fn is_named(failing: &[u32], call: u32) -> bool
    ensures { result ≡ is_named failing.now call }
{
    failing.iter().any(|c| *c == call)
}

impl MemSource {
    /// A source of all these bytes that gives at most `piece` of them at a call, which is at least 1.
    pub fn of(bytes: Bytes, piece: u32, failing: List<u32>) -> MemSource
        requires { 1 ≤ piece }
        ensures bytes { result.bytes ≡ bytes }
        ensures start { (result.at ≡ 0) × (result.calls ≡ 0) × (result.faults ≡ 0) }
        ensures told { (result.piece ≡ piece) × (result.failing ≡ failing) }
    {
        MemSource {
            bytes,
            at: 0,
            piece,
            calls: 0,
            failing,
            faults: 0,
        }
    }

    /// Whether the next call fails.
    fn fails(&self) -> bool
        ensures { result ≡ (may_fail self.now.calls self.now.faults && is_named self.now.failing self.now.calls) }
    {
        self.calls < u32::MAX
            && self.faults < u64::MAX
            && is_named(self.failing.items.as_slice(), self.calls)
    }
}

impl Source for MemSource {
    ghost left = { λ s. Some (drop s.at s.bytes) };

    ghost faults = { λ s. s.faults };

    ghost unfailing = { λ s. is_unfailing s.failing };

    fn take(&mut self, room: &mut [u8]) -> Result<u32, Failed>
        ensures bound { IfOk result (λ n. n ≤ length room.old) }
        ensures taken { IfOk result (λ n. Takes (Some (drop self.old.at self.old.bytes)) (Some (drop self.new.at self.new.bytes)) n room.new) }
        ensures no_fault { OnOk result (self.new.faults ≡ self.old.faults) }
        ensures fault { OnErr result (self.new.faults ≡ self.old.faults + 1) }
        ensures nothing_taken { OnErr result (self.new.at ≡ self.old.at) }
        ensures fails { is_err result ≡ (may_fail self.old.calls self.old.faults && is_named self.old.failing self.old.calls) }
        ensures none_fail { self.old.failing ≡ [] → IsOk result }
        ensures given { IfOk result (λ n. n ≡ min (min (length self.old.bytes - self.old.at) (length room.old)) self.old.piece) }
        ensures calls { self.new.calls ≡ min (self.old.calls + 1) (2 ^ 32 - 1) }
        ensures kept { (self.new.bytes ≡ self.old.bytes) × (self.new.piece ≡ self.old.piece) × (self.new.failing ≡ self.old.failing) }
    {
        let fails = self.fails();
        self.calls = self.calls.saturating_add(1);
        if fails {
            self.faults += 1;
            return Err(Failed);
        }
        let left = &self.bytes.items[self.at as usize..];
        let count = left.len().min(room.len()).min(self.piece as usize);
        room[..count].copy_from_slice(&left[..count]);
        self.at += count as u64;
        Ok(count as u32)
    }
}
