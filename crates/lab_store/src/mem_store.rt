ghost use Rattle.std.specs.Prelude.{◌≡◌, ◌+◌, ◌-◌, ◌^◌, ◌≤◌, ◌<◌, [], Err, IfErr, IfOk, IfSome, IsErr, IsSome, IsTrue, OnErr, OnOk, Some, if◌then◌else◌, length, min};
ghost use Rattle.std.specs.Option.{option_map};
ghost use Rattle.lab_store.specs.Store.{IsLonger, MayReplace, OnFailed, OnLong, OnNoMemory, file_at, names_differ, with_file};
ghost use Rattle.lab_store.specs.Calls.{is_unfailing, late_now, late_of};
ghost use Rattle.lab_store.specs.Files.{pairs, place_of};

use crate::store::{Store, StoreError};
use crdt_laws::{Bytes, List, NoMemory, Txt};
use std::alloc::Global;

/// A file in memory.
#[derive(Drop)]
pub struct File {
    pub name: Txt,
    pub bytes: Bytes,
}

/// Files in order, of which no two have one name. Contracts see their names with their bytes by `pairs`.
#[derive(Drop)]
pub struct Files {
    items: Vec<File>,
    ghost differ: { IsTrue (names_differ (pairs items.items)) },
}

/// The bytes of the file of this name.
fn bytes_of<'a>(files: &'a [File], name: &str) -> Option<&'a [u8]>
    ensures { option_map (λ b. b.now) result ≡ file_at (pairs files.now) name.now }
{
    for file in files {
        if name.as_bytes() == file.name.items.as_slice() {
            return Some(file.bytes.items.as_slice());
        }
    }
    None
}

/// The place of the file of this name, or how many files there are.
fn place_of(files: &[File], name: &str) -> usize
    ensures { result ≡ place_of (pairs files.now) name.now }
{
    for (i, file) in files.iter().enumerate() {
        if name.as_bytes() == file.name.items.as_slice() {
            return i;
        }
    }
    files.len()
}

/// Puts the file in the place of the one of this name, which is its own, or last.
fn put_in(files: &mut Vec<File>, name: &str, file: File) -> Result<(), NoMemory>
    requires { file.name ≡ name.now }
    ensures ok { OnOk result (pairs files.new.items ≡ with_file (pairs files.old.items) name.now file.bytes) }
    ensures err { OnErr result (files.new.items ≡ files.old.items) }
    ensures apart { IsTrue (names_differ (pairs files.old.items)) → IsTrue (names_differ (pairs files.new.items)) }
{
    let at = place_of(files.as_slice(), name);
    if at < files.len() {
        files[at] = file;
    } else {
        files.push(file)?;
    }
    Ok(())
}

impl Files {
    /// No files.
    pub fn new(alloc: Global) -> Files
        ensures { pairs result.items.items ≡ [] }
    {
        Files {
            items: Vec::new(alloc),
        }
    }

    /// How many files there are.
    pub fn len(&self) -> usize
        ensures { result ≡ length (pairs self.now.items.items) }
    {
        self.items.len()
    }

    /// The bytes of the file of this name.
    pub fn get(&self, name: &str) -> Option<&[u8]>
        ensures { option_map (λ b. b.now) result ≡ file_at (pairs self.now.items.items) name.now }
    {
        bytes_of(self.items.as_slice(), name)
    }

    /// Puts the bytes in the place of the file of this name, or last. After it ran out of memory nothing has changed.
    pub fn put(&mut self, alloc: Global, name: &str, bytes: &[u8]) -> Result<(), NoMemory>
        ensures ok { OnOk result (pairs self.new.items.items ≡ with_file (pairs self.old.items.items) name.now bytes.now) }
        ensures err { OnErr result (pairs self.new.items.items ≡ pairs self.old.items.items) }
    {
        let file = File {
            name: Txt {
                items: Vec::from_slice(alloc, name.as_bytes())?,
            },
            bytes: Bytes {
                items: Vec::from_slice(alloc, bytes)?,
            },
        };
        put_in(&mut self.items, name, file)
    }
}

/// That a call of a store fails.
#[derive(Clone, Copy, Debug, PartialEq, Eq)]
pub struct Fail {
    /// The number of the call, counted from 0. Fetches and replaces share one count.
    pub call: u32,
    /// Whether a replace that fails leaves the new bytes.
    pub late: bool,
}

/// Calls that fail.
pub type Fails = List<Fail>;

/// Files in memory as a store, which fails at the calls that it is told to.
#[derive(Drop)]
pub struct MemStore {
    pub files: Files,
    /// How many calls there have been. It stays at its last value.
    pub calls: u32,
    /// The calls that fail: for each the first entry that names it counts. A call that finds a counter at its last value
    /// does not fail.
    pub failing: Fails,
    /// How many fetches have failed. It stays at its last value.
    pub fetch_faults: u64,
    /// How many replaces have failed. It stays at its last value.
    pub replace_faults: u64,
}

/// Whether the call leaves new bytes, where it is one of these.
fn late_of(failing: &[Fail], call: u32) -> Option<bool>
    ensures { result ≡ late_of failing.now call }
{
    for fail in failing {
        if fail.call == call {
            return Some(fail.late);
        }
    }
    None
}

impl MemStore {
    /// The store of these files.
    pub fn of(files: Files, failing: Fails) -> MemStore
        ensures files { pairs result.files.items.items ≡ pairs files.items.items }
        ensures start { (result.calls ≡ 0) × (result.fetch_faults ≡ 0) × (result.replace_faults ≡ 0) }
        ensures failing { result.failing ≡ failing }
    {
        MemStore {
            files,
            calls: 0,
            failing,
            fetch_faults: 0,
            replace_faults: 0,
        }
    }

    /// Whether the next call leaves new bytes, where it fails and counts among so many failed ones.
    fn late_now(&self, faults: u64) -> Option<bool>
        ensures { result ≡ late_now self.now.failing self.now.calls faults }
    {
        if self.calls < u32::MAX && faults < u64::MAX {
            late_of(self.failing.items.as_slice(), self.calls)
        } else {
            None
        }
    }
}

/// A copy of the bytes, where there are at most so many.
fn copied(alloc: Global, bytes: &[u8], most: u64) -> Result<Vec<u8>, StoreError>
    ensures copied { IfOk result (λ v. v.items ≡ bytes.now) }
    ensures most { OnOk result (length bytes.now ≤ most) }
    ensures long { IfErr result (λ e. OnLong e (most < length bytes.now)) }
    ensures never_failed { IfErr result (λ e. OnFailed e ⊥) }
{
    if bytes.len() as u64 > most {
        return Err(StoreError::Long);
    }
    match Vec::from_slice(alloc, bytes) {
        Ok(copy) => Ok(copy),
        Err(_) => Err(StoreError::NoMemory),
    }
}

impl Store for MemStore {
    ghost files = { λ s. Some (pairs s.files.items.items) };

    ghost fetch_faults = { λ s. s.fetch_faults };

    ghost replace_faults = { λ s. s.replace_faults };

    ghost unfailing = { λ s. is_unfailing s.failing };

    fn fetch(&mut self, alloc: Global, name: &str, most: u64) -> Result<Option<Vec<u8>>, StoreError>
        ensures files { pairs self.new.files.items.items ≡ pairs self.old.files.items.items }
        ensures found { IfOk result (λ o. option_map (λ v. v.items) o ≡ file_at (pairs self.old.files.items.items) name.now) }
        ensures most { IfOk result (λ o. IfSome o (λ v. length v.items ≤ most)) }
        ensures long { IfErr result (λ e. OnLong e (IsLonger (Some (pairs self.old.files.items.items)) name.now most)) }
        ensures fault { IfErr result (λ e. OnFailed e (self.new.fetch_faults ≡ self.old.fetch_faults + 1)) }
        ensures no_fault { OnOk result (self.new.fetch_faults ≡ self.old.fetch_faults) }
        ensures faults { self.old.fetch_faults ≤ self.new.fetch_faults }
        ensures other { self.new.replace_faults ≡ self.old.replace_faults }
        ensures fails { IfSome (late_now self.old.failing self.old.calls self.old.fetch_faults) (λ _. result ≡ Err StoreError.Failed) }
        ensures only { IfErr result (λ e. OnFailed e (IsSome (late_now self.old.failing self.old.calls self.old.fetch_faults))) }
        ensures none_fail { self.old.failing ≡ [] → IfErr result (λ e. OnFailed e ⊥) }
        ensures calls { (self.new.calls ≡ min (self.old.calls + 1) (2 ^ 32 - 1)) × (self.new.failing ≡ self.old.failing) }
    {
        let fails = self.late_now(self.fetch_faults).is_some();
        self.calls = self.calls.saturating_add(1);
        if fails {
            self.fetch_faults += 1;
            return Err(StoreError::Failed);
        }
        match self.files.get(name) {
            None => Ok(None),
            Some(bytes) => Ok(Some(copied(alloc, bytes, most)?)),
        }
    }

    fn replace(&mut self, alloc: Global, name: &str, bytes: &[u8]) -> Result<(), StoreError>
        ensures replaced { OnOk result (pairs self.new.files.items.items ≡ with_file (pairs self.old.files.items.items) name.now bytes.now) }
        ensures part { IfErr result (λ e. OnFailed e (MayReplace (Some (pairs self.old.files.items.items)) (Some (pairs self.new.files.items.items)) name.now bytes.now)) }
        ensures late { IfErr result (λ e. OnFailed e (IfSome (late_now self.old.failing self.old.calls self.old.replace_faults) (λ late. pairs self.new.files.items.items ≡ (if late then with_file (pairs self.old.files.items.items) name.now bytes.now else pairs self.old.files.items.items)))) }
        ensures fault { IfErr result (λ e. OnFailed e (self.new.replace_faults ≡ self.old.replace_faults + 1)) }
        ensures never_long { IfErr result (λ e. OnLong e ⊥) }
        ensures no_memory { IfErr result (λ e. OnNoMemory e (pairs self.new.files.items.items ≡ pairs self.old.files.items.items)) }
        ensures no_fault { OnOk result (self.new.replace_faults ≡ self.old.replace_faults) }
        ensures faults { self.old.replace_faults ≤ self.new.replace_faults }
        ensures other { self.new.fetch_faults ≡ self.old.fetch_faults }
        ensures fails { IfSome (late_now self.old.failing self.old.calls self.old.replace_faults) (λ _. IsErr result) }
        ensures only { IfErr result (λ e. OnFailed e (IsSome (late_now self.old.failing self.old.calls self.old.replace_faults))) }
        ensures none_fail { self.old.failing ≡ [] → IfErr result (λ e. OnFailed e ⊥) }
        ensures calls { (self.new.calls ≡ min (self.old.calls + 1) (2 ^ 32 - 1)) × (self.new.failing ≡ self.old.failing) }
    {
        let late = self.late_now(self.replace_faults);
        self.calls = self.calls.saturating_add(1);
        if late != Some(false) && self.files.put(alloc, name, bytes).is_err() {
            return Err(StoreError::NoMemory);
        }
        if late.is_some() {
            self.replace_faults += 1;
            return Err(StoreError::Failed);
        }
        Ok(())
    }

    ghost names_differ = { λ s. s.files.differ };
}
