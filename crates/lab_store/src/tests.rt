use crate::{
    Fail, Failed, Files, FolderStore, Keep, MemSink, MemSource, MemStore, Sink, Source, StdSink,
    StdSource, Store, StoreError,
};
use crdt_laws::{Bytes, List, NoMemory};
use std::alloc::Global;
use std::io::{ErrorKind, Read};
use std::test::Fail as TestFail;
use std::{fs, io};

// The values as a list.
fn listed<T: Copy + Drop>(alloc: Global, values: &[T]) -> Result<List<T>, NoMemory> {
    let mut list = List::new(alloc);
    for value in values {
        list.push(*value)?;
    }
    Ok(list)
}

#[test]
fn takes_one_byte_at_a_time(rt: HostRuntime) -> Result<(), TestFail> {
    let bytes = Bytes {
        items: Vec::from_slice(rt.alloc(), b"ab")?,
    };
    let mut source = MemSource::of(bytes, 1, listed(rt.alloc(), &[0, 2])?);
    let mut room = [0u8; 4];
    assert_eq!(rt; source.take(&mut room), Err(Failed));
    assert_eq!(rt; source.take(&mut room), Ok(1));
    assert_eq!(rt; room[0], b'a');
    assert_eq!(rt; source.take(&mut room), Err(Failed));
    assert_eq!(rt; source.take(&mut room[..0]), Ok(0));
    assert_eq!(rt; source.take(&mut room), Ok(1));
    assert_eq!(rt; room[0], b'b');
    assert_eq!(rt; source.take(&mut room), Ok(0));
    assert_eq!(rt; source.faults, 2);
    Ok(())
}

// What is in the sink after two writes, and how the first of them ended.
fn after_two(
    alloc: Global,
    failing: List<Keep>,
) -> Result<(MemSink, Result<(), Failed>), NoMemory> {
    let mut sink = MemSink::of(alloc, failing);
    sink.room(alloc, 3)?;
    let first = sink.put(b"abc");
    sink.room(alloc, 1)?;
    match sink.put(b"d") {
        Ok(()) => Ok((sink, first)),
        Err(Failed) => Err(NoMemory),
    }
}

#[test]
fn keeps_what_a_failed_write_wrote(rt: HostRuntime) -> Result<(), TestFail> {
    for (kept, want) in [
        (0, b"d".as_slice()),
        (1, b"ad".as_slice()),
        (9, b"abcd".as_slice()),
    ] {
        let keeps = [Keep { call: 0, kept }, Keep { call: 0, kept: 2 }];
        let (sink, first) = after_two(rt.alloc(), listed(rt.alloc(), &keeps)?)?;
        assert_eq!(rt; first, Err(Failed));
        assert_eq!(rt; sink.bytes.as_slice(), want);
        assert_eq!(rt; sink.faults, 1);
    }
    let (sink, first) = after_two(rt.alloc(), List::new(rt.alloc()))?;
    assert_eq!(rt; first, Ok(()));
    assert_eq!(rt; sink.bytes.as_slice(), b"abcd".as_slice());
    Ok(())
}

// The bytes under the name, or how the fetch failed.
fn held<S: Store>(alloc: Global, store: &mut S, name: &str) -> Result<Option<u8>, StoreError> {
    match store.fetch(alloc, name, 1)? {
        Some(bytes) => Ok(bytes.first().copied()),
        None => Ok(None),
    }
}

#[test]
fn fails_early_and_late(rt: HostRuntime) -> Result<(), TestFail> {
    let early = Fail {
        call: 1,
        late: false,
    };
    let late = Fail {
        call: 3,
        late: true,
    };
    let fetch = Fail {
        call: 5,
        late: true,
    };
    let failing = listed(rt.alloc(), &[early, late, fetch])?;
    let mut store = MemStore::of(Files::new(rt.alloc()), failing);
    assert_eq!(rt; store.replace(rt.alloc(), "n", b"1"), Ok(()));
    assert_eq!(rt;
        store.replace(rt.alloc(), "n", b"2"),
        Err(StoreError::Failed)
    );
    assert_eq!(rt; held(rt.alloc(), &mut store, "n"), Ok(Some(b'1')));
    assert_eq!(rt;
        store.replace(rt.alloc(), "n", b"3"),
        Err(StoreError::Failed)
    );
    assert_eq!(rt; held(rt.alloc(), &mut store, "n"), Ok(Some(b'3')));
    assert_eq!(rt; held(rt.alloc(), &mut store, "n"), Err(StoreError::Failed));
    assert_eq!(rt; held(rt.alloc(), &mut store, "m"), Ok(None));
    assert_eq!(rt; store.replace(rt.alloc(), "m", b"45"), Ok(()));
    assert_eq!(rt; held(rt.alloc(), &mut store, "m"), Err(StoreError::Long));
    assert_eq!(rt; store.files.len(), 2);
    assert_eq!(rt; store.files.get("m"), Some(b"45".as_slice()));
    assert_eq!(rt; store.fetch_faults, 1);
    assert_eq!(rt; store.replace_faults, 2);
    Ok(())
}

#[test]
fn keeps_files_in_a_folder(rt: HostRuntime) -> Result<(), TestFail> {
    let mut store = FolderStore::of(&rt);
    assert_eq!(rt; held(rt.alloc(), &mut store, "n"), Ok(None));
    assert_eq!(rt; store.replace(rt.alloc(), "n", b"12"), Ok(()));
    assert_eq!(rt; held(rt.alloc(), &mut store, "n"), Err(StoreError::Long));
    assert_eq!(rt; store.replace(rt.alloc(), "n", b"3"), Ok(()));
    assert_eq!(rt; held(rt.alloc(), &mut store, "n"), Ok(Some(b'3')));
    assert_eq!(rt; held(rt.alloc(), &mut store, ".n.new"), Ok(None));
    assert!(rt; fs::remove_file(&rt, "n").is_ok());
    assert_eq!(rt; held(rt.alloc(), &mut store, "n"), Ok(None));
    assert_eq!(rt; held(rt.alloc(), &mut store, "."), Err(StoreError::Failed));
    assert_eq!(rt;
        store.replace(rt.alloc(), "n/n", b"4"),
        Err(StoreError::Failed)
    );
    assert_eq!(rt; store.fetch_faults, 1);
    assert_eq!(rt; store.replace_faults, 1);
    Ok(())
}

// A reader that gives one byte, and then fails.
#[derive(Drop)]
struct Broken {
    given: bool,
}

impl Read for Broken {
    fn read(&mut self, room: &mut [u8]) -> io::Result<usize> {
        if self.given || room.is_empty() {
            return Err(io::Error::from(ErrorKind::BrokenPipe));
        }
        self.given = true;
        room[0] = b'a';
        Ok(1)
    }
}

#[test]
fn passes_bytes_and_failures_on(rt: HostRuntime) -> Result<(), TestFail> {
    let mut source = StdSource::of(Broken { given: false });
    let mut room = [0u8; 4];
    assert_eq!(rt; source.take(&mut room), Ok(1));
    assert_eq!(rt; room[0], b'a');
    assert_eq!(rt; source.take(&mut room), Err(Failed));
    let mut written = Vec::new(rt.alloc());
    let mut sink = StdSink::of(&mut written);
    sink.room(rt.alloc(), 2)?;
    assert_eq!(rt; sink.put(b"ab"), Ok(()));
    assert_eq!(rt; written.as_slice(), b"ab".as_slice());
    Ok(())
}
