ghost use Rattle.std.specs.Prelude.{◌≡◌, ◌-◌, ◌^◌, ◌<◌, ◌≤◌, None, false, IfOk, IsOk, OnErr, OnOk, length, take};
ghost use Rattle.std.specs.Io.KnownBytes.{Appends, Consumes, IsAtEnd, Keeps};
ghost use Rattle.lab_store.specs.Stream.{Rose};

use crate::stream::{Failed, Sink, Source};
use crdt_laws::NoMemory;
use std::alloc::Global;
use std::io::{Read, Write};

/// A reader of the runtime as a source, such as its standard input. It tells nothing of what is left. A read that fails
/// counts as a fault.
#[derive(Drop)]
pub struct StdSource<R> {
    reader: R,
    faults: u64,
}

impl<R: Read> StdSource<R> {
    /// The source that reads from here, as `rt.reader()` for the standard input.
    pub fn of(reader: R) -> StdSource<R>
        ensures reader { result.reader ≡ reader }
        ensures start { result.faults ≡ 0 }
    {
        StdSource { reader, faults: 0 }
    }
}

impl<R: Read> Source for StdSource<R> {
    ghost left = { λ _. None };

    ghost faults = { λ s. s.faults };

    ghost unfailing = { λ _. false };

    fn take(&mut self, room: &mut [u8]) -> Result<u32, Failed>
        ensures bound { IfOk result (λ n. n ≤ length room.old) }
        ensures read { IfOk result (λ n. Consumes (R.remaining self.old.reader) (R.remaining self.new.reader) (take n room.new)) }
        ensures end { IfOk result (λ n. n ≡ 0 → 0 < length room.old → IsAtEnd (R.remaining self.new.reader)) }
        ensures no_fault { OnOk result (self.new.faults ≡ self.old.faults) }
        ensures fault { OnErr result (Rose self.old.faults self.new.faults) }
        ensures nothing_read { OnErr result (Keeps (R.remaining self.old.reader) (R.remaining self.new.reader)) }
    {
        let most = room.len().min(u32::MAX as usize);
        match self.reader.read(&mut room[..most]) {
            Ok(count) => Ok(count as u32),
            Err(_) => {
                self.faults = self.faults.saturating_add(1);
                Err(Failed)
            }
        }
    }
}

/// A writer of the runtime as a sink, such as its standard output. It tells nothing of what was written, and has always
/// room, since it keeps nothing.
#[derive(Drop)]
pub struct StdSink<W> {
    writer: W,
    faults: u64,
}

impl<W: Write> StdSink<W> {
    /// The sink that writes to here, as `io::writer(&rt)` for the standard output.
    pub fn of(writer: W) -> StdSink<W>
        ensures writer { result.writer ≡ writer }
        ensures start { result.faults ≡ 0 }
    {
        StdSink { writer, faults: 0 }
    }
}

impl<W: Write> Sink for StdSink<W> {
    ghost told = { λ _. None };

    ghost faults = { λ s. s.faults };

    ghost unfailing = { λ _. false };

    ghost spare = { λ _. 2 ^ 64 - 1 };

    fn room(&mut self, alloc: Global, more: u64) -> Result<(), NoMemory>
        ensures spare { more ≤ 2 ^ 64 - 1 }
        ensures always { IsOk result }
        ensures writer { self.new.writer ≡ self.old.writer }
        ensures faults { self.new.faults ≡ self.old.faults }
    {
        Ok(())
    }

    fn put(&mut self, bytes: &[u8]) -> Result<(), Failed>
        ensures written { OnOk result (Appends (W.contents self.old.writer) (W.contents self.new.writer) bytes.now) }
        ensures no_fault { OnOk result (self.new.faults ≡ self.old.faults) }
        ensures fault { OnErr result (Rose self.old.faults self.new.faults) }
    {
        match self.writer.write_all(bytes) {
            Ok(()) => Ok(()),
            Err(_) => {
                self.faults = self.faults.saturating_add(1);
                Err(Failed)
            }
        }
    }
}
