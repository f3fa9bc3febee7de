ghost use Rattle.std.specs.Prelude.{◌≡◌, ℕ, ◌≤◌, Bool, List, Option, length, IfErr, IfOk, IfSome, IsTrue, OnOk};
ghost use Rattle.std.specs.Option.{option_map};
ghost use Rattle.lab_store.specs.Store.{Finds, IsLonger, MayReplace, OnFailed, OnLong, OnNoMemory, Replaces, ToldNamesDiffer};
ghost use Rattle.lab_store.specs.Stream.{Rose};

use std::alloc::Global;
use thiserror::Error;

/// Why a store could not do what it was asked.
#[derive(Clone, Copy, Debug, PartialEq, Eq, Drop, Error)]
pub enum StoreError {
    /// A read or a write failed outside the program.
    #[error("a read or a write failed")]
    Failed,
    /// The file has more bytes than were asked for.
    #[error("the file is too long")]
    Long,
    /// The call ran out of memory.
    #[error("out of memory")]
    NoMemory,
}

/// Files by their names.
pub trait Store {
    /// The names and bytes of the files, where the store tells them. Once it tells them it goes on to do so.
    ghost files: { Self → Option (List (List ℕ × List ℕ)) };

    /// How many fetches have failed. It never falls, and stays at 2^64 - 1.
    ghost fetch_faults: { Self → ℕ };

    /// How many replaces have failed. It never falls, and stays at 2^64 - 1.
    ghost replace_faults: { Self → ℕ };

    /// Whether no call fails from here on, running out of memory and Long aside. It is for callers who test or prove what
    /// they do over files that do not fail.
    ghost unfailing: { Self → Bool };

    /// The bytes of the file of this name, at most `most` of them, or None where there is no such file. Long comes where
    /// the file has more bytes, and Failed only where the count of failed fetches has risen. After Ok no count has risen.
    fn fetch(&mut self, alloc: Global, name: &str, most: u64) -> Result<Option<Vec<u8>>, StoreError>
        ensures files { files self.new ≡ files self.old }
        ensures found { IfOk result (λ o. Finds (files self.old) name.now (option_map (λ v. v.items) o)) }
        ensures most { IfOk result (λ o. IfSome o (λ v. length v.items ≤ most)) }
        ensures long { IfErr result (λ e. OnLong e (IsLonger (files self.old) name.now most)) }
        ensures fault { IfErr result (λ e. OnFailed e (Rose (fetch_faults self.old) (fetch_faults self.new))) }
        ensures no_fault { OnOk result (fetch_faults self.new ≡ fetch_faults self.old) }
        ensures faults { fetch_faults self.old ≤ fetch_faults self.new }
        ensures other { replace_faults self.new ≡ replace_faults self.old }
        ensures unfailing { IsTrue (unfailing self.old) → IsTrue (unfailing self.new) × IfErr result (λ e. OnFailed e ⊥) };

    /// Puts the bytes in the place of the file of this name, or last where there is none. After Failed the name holds the
    /// old bytes or the new ones, and the count of failed replaces has risen. After Ok no count has risen. After NoMemory
    /// nothing has changed. Long never comes.
    fn replace(&mut self, alloc: Global, name: &str, bytes: &[u8]) -> Result<(), StoreError>
        ensures replaced { OnOk result (Replaces (files self.old) (files self.new) name.now bytes.now) }
        ensures part { IfErr result (λ e. OnFailed e (MayReplace (files self.old) (files self.new) name.now bytes.now)) }
        ensures fault { IfErr result (λ e. OnFailed e (Rose (replace_faults self.old) (replace_faults self.new))) }
        ensures never_long { IfErr result (λ e. OnLong e ⊥) }
        ensures no_memory { IfErr result (λ e. OnNoMemory e (files self.new ≡ files self.old)) }
        ensures no_fault { OnOk result (replace_faults self.new ≡ replace_faults self.old) }
        ensures faults { replace_faults self.old ≤ replace_faults self.new }
        ensures other { fetch_faults self.new ≡ fetch_faults self.old }
        ensures unfailing { IsTrue (unfailing self.old) → IsTrue (unfailing self.new) × IfErr result (λ e. OnFailed e ⊥) };

    /// No name stands twice.
    ghost names_differ: { (s : Self) → ToldNamesDiffer (files s) };
}
