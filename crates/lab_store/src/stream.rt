ghost use Rattle.std.specs.Prelude.{◌≡◌, ℕ, ◌≤◌, Bool, List, Option, length, IfOk, IsOk, IsTrue, OnOk, OnErr};
ghost use Rattle.lab_store.specs.Stream.{Appends, AppendsPart, Rose, Takes};

use crdt_laws::NoMemory;
use std::alloc::Global;
use thiserror::Error;

/// A read or a write failed outside the program.
#[derive(Clone, Copy, Debug, PartialEq, Eq, Drop, Error)]
#[error("a read or a write failed")]
pub struct Failed;

/// Bytes to be read.
pub trait Source {
    /// The bytes that are left, where the source tells them.
    ghost left: { Self → Option (List ℕ) };

    /// How many calls have failed.
    ghost faults: { Self → ℕ };

    /// Whether no call fails from here on. It is for callers who test or prove what they do with bytes that all come.
    ghost unfailing: { Self → Bool };

    /// Reads some bytes into the front of `room`, and says how many. There are none only at the end or for empty room.
    fn take(&mut self, room: &mut [u8]) -> Result<u32, Failed>
        ensures bound { IfOk result (λ n. n ≤ length room.old) }
        ensures taken { IfOk result (λ n. Takes (left self.old) (left self.new) n room.new) }
        ensures no_fault { OnOk result (faults self.new ≡ faults self.old) }
        ensures fault { OnErr result (Rose (faults self.old) (faults self.new)) }
        ensures nothing_taken { OnErr result (left self.new ≡ left self.old) }
        ensures unfailing { IsTrue (unfailing self.old) → IsTrue (unfailing self.new) × IsOk result };
}

/// A place for bytes that are written.
pub trait Sink {
    /// The bytes so far, where the sink tells them.
    ghost told: { Self → Option (List ℕ) };

    /// How many writes have failed.
    ghost faults: { Self → ℕ };

    /// Whether no write fails from here on. It is for callers who test or prove what they do with bytes that are all kept.
    ghost unfailing: { Self → Bool };

    /// How many bytes can be put before there is need of more memory.
    ghost spare: { Self → ℕ };

    /// Makes room for so many bytes more. `NoMemory` comes where it runs out of memory.
    fn room(&mut self, alloc: Global, more: u64) -> Result<(), NoMemory>
        ensures spare { OnOk result (more ≤ spare self.new) }
        ensures told { told self.new ≡ told self.old }
        ensures faults { faults self.new ≡ faults self.old }
        ensures unfailing { IsTrue (unfailing self.old) → IsTrue (unfailing self.new) };

    /// Writes the bytes, for which there has to be room. A write that fails may have written some of them.
    fn put(&mut self, bytes: &[u8]) -> Result<(), Failed>
        requires { length bytes.now ≤ spare self.old }
        ensures ok { OnOk result (Appends (told self.old) (told self.new) bytes.now) }
        ensures no_fault { OnOk result (faults self.new ≡ faults self.old) }
        ensures part { OnErr result (AppendsPart (told self.old) (told self.new) bytes.now) }
        ensures fault { OnErr result (Rose (faults self.old) (faults self.new)) }
        ensures unfailing { IsTrue (unfailing self.old) → IsTrue (unfailing self.new) × IsOk result };
}
