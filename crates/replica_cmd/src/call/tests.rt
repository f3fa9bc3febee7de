use super::run;
use crdt_laws::{Bytes, List, NoMemory};
use lab_store::{Fail as Fault, Fails, Files, Keep, MemSink, MemSource, MemStore};
use std::alloc::Global;
use std::test::Fail;

// A list of these values.
fn listed<T: Copy>(alloc: Global, items: &[T]) -> Result<List<T>, NoMemory> {
    Ok(List {
        items: Vec::from_slice(alloc, items)?,
    })
}

// What a call with these words tells: its status, and the bytes that it put.
fn told(alloc: Global, words: &[&str], script: &[u8]) -> Result<(u8, Vec<u8>), NoMemory> {
    called(alloc, words, script, 4_096, &[], &[])
}

// The same over a source that gives pieces and a sink, which fail at these calls.
fn called(
    alloc: Global,
    words: &[&str],
    script: &[u8],
    piece: u32,
    takes: &[u32],
    puts: &[Keep],
) -> Result<(u8, Vec<u8>), NoMemory> {
    let mut said = Vec::new(alloc);
    for word in words {
        said.push(String::from_str(alloc, word)?)?;
    }
    let bytes = Bytes {
        items: Vec::from_slice(alloc, script)?,
    };
    let mut source = MemSource::of(bytes, piece.max(1), listed(alloc, takes)?);
    let mut sink = MemSink::of(alloc, listed(alloc, puts)?);
    let mut store = MemStore::of(Files::new(alloc), Fails::new(alloc));
    let status = run(alloc, said.as_slice(), &mut store, &mut source, &mut sink);
    Ok((status, sink.bytes))
}

#[test]
fn plays_scripts(rt: HostRuntime) -> Result<(), Fail> {
    for (script, want) in [
        // a new replica shows 0
        ("new a 0 @pair\nshow a\n", "ok\n{\"n\":0}\n"),
        // what comes after a multiplication is not scaled by it
        (
            "new a 0 @pair\nedit a n add 2\nedit a n mul 3\nedit a n add 4\nshow a\n",
            "ok\nmade 1\nmade 1\nmade 1\n{\"n\":10}\n",
        ),
        // two devices, a concurrent product, and a batch that comes again
        (
            "new a 0 @pair\nnew b 1 @pair\nedit a n add 2\nexport a x\nmerge b x\nedit a n mul 3\nedit b n add 4\nexport a x\nexport b y\nmerge a y\nmerge b x\nshow a\nshow b\nmerge b x\nshow b\n",
            "ok\nok\nmade 1\nwrote 1\ndelivered 1 waiting 0\nmade 1\nmade 1\nwrote 2\nwrote 1\ndelivered 1 waiting 0\ndelivered 1 waiting 0\n{\"n\":18}\n{\"n\":18}\ndelivered 0 waiting 0\n{\"n\":18}\n",
        ),
        // two products, each followed by a sum
        (
            "new a 0 @pair\nnew b 1 @pair\nedit a n mul 2\nedit a n add 1\nedit b n mul 3\nedit b n add 1\nexport a x\nexport b y\nmerge a y\nmerge b x\nshow a\nshow b\n",
            "ok\nok\nmade 1\nmade 1\nmade 1\nmade 1\nwrote 2\nwrote 2\ndelivered 2 waiting 0\ndelivered 2 waiting 0\n{\"n\":5}\n{\"n\":5}\n",
        ),
        // numbers are residues modulo 2^64
        (
            "new a 0 @pair\nedit a n add 1\nedit a n mul 4294967296\nedit a n mul 2147483648\nshow a\nedit a n mul 2\nshow a\n",
            "ok\nmade 1\nmade 1\nmade 1\n{\"n\":-9223372036854775808}\nmade 1\n{\"n\":0}\n",
        ),
        // no line, comments, carriage returns, and a last line without a line feed
        ("", ""),
        ("\n\r\n# no line\n", ""),
        ("new a 0 @pair\r\n# a\n\nshow a", "ok\n{\"n\":0}\n"),
    ] {
        let (status, text) = told(rt.alloc(), &["play"], script.as_bytes())?;
        assert_eq!(rt; text.as_slice(), want.as_bytes());
        assert_eq!(rt; status, 0);
    }
    Ok(())
}

#[test]
fn refuses_lines(rt: HostRuntime) -> Result<(), Fail> {
    for (line, want) in [
        ("new a 0 @pair", "exists a"),
        ("new a 1 @pair", "exists a"),
        ("new x 0 @pair", "unbuilt"),
        ("new b 2 @pair", "unbuilt"),
        ("new b 0 @trio", "unbuilt"),
        ("edit b n add 1", "missing b"),
        ("edit x n add 1", "unbuilt"),
        ("edit a m add 1", "unbuilt"),
        ("edit a n add 01", "unbuilt"),
        ("edit a n add -0", "unbuilt"),
        ("edit a n add 9223372036854775808", "unbuilt"),
        ("show b", "missing b"),
        ("show x", "unbuilt"),
        ("show  a", "unbuilt"),
        ("export b y", "missing b"),
        ("export x y", "unbuilt"),
        ("export a a", "unbuilt"),
        ("export b a", "unbuilt"),
        ("export b b", "missing b"),
        ("export a y 1", "unbuilt"),
        ("merge b x", "missing b"),
        ("merge b y", "missing b"),
        ("merge a y", "missing y"),
        ("merge a a", "unbuilt"),
        ("merge b a", "unbuilt"),
        ("merge x y", "unbuilt"),
        ("stat a", "unbuilt"),
        ("play", "unbuilt"),
        ("check a", "unbuilt"),
        ("frob", "unbuilt"),
        ("\u{1}", "unbuilt"),
    ] {
        let script = format!(in rt.alloc(); "new a 0 @pair\nexport a x\n{line}\nshow a\n")?;
        let text = format!(in rt.alloc(); "ok\nwrote 0\nrefused {want}\n{{\"n\":0}}\n")?;
        let (status, put) = told(rt.alloc(), &["play"], script.as_bytes())?;
        assert_eq!(rt; put.as_slice(), text.as_bytes());
        assert_eq!(rt; status, 2);
    }
    let (status, put) = told(rt.alloc(), &["play"], b"\xff\n")?;
    assert_eq!(rt; put.as_slice(), b"refused unbuilt\n".as_slice());
    assert_eq!(rt; status, 2);
    Ok(())
}

#[test]
fn refuses_words(rt: HostRuntime) -> Result<(), Fail> {
    let none: [&str; 0] = [];
    for words in [
        none.as_slice(),
        &["frob"],
        &["play", "a"],
        &["show", "a"],
        &[""],
        &["play "],
        &["check"],
        &["check a"],
        &["check", ".a"],
        &["check", "a", "b"],
        &["Check", "a"],
    ] {
        let (status, put) = told(rt.alloc(), words, b"new a 0 @pair\n")?;
        assert_eq!(rt; put.as_slice(), b"refused unbuilt\n".as_slice());
        assert_eq!(rt; status, 2);
    }
    Ok(())
}

#[test]
fn reads_at_most_so_much(rt: HostRuntime) -> Result<(), Fail> {
    for (bytes, want, text) in [(32_768, 0, "ok\n"), (32_769, 7, "")] {
        let mut script = Vec::from_slice(rt.alloc(), b"new a 0 @pair\n#")?;
        for _ in script.len()..bytes {
            script.push(b'x')?;
        }
        let (status, put) = told(rt.alloc(), &["play"], script.as_slice())?;
        assert_eq!(rt; status, want);
        assert_eq!(rt; put.as_slice(), text.as_bytes());
    }
    Ok(())
}

#[test]
fn meets_faults(rt: HostRuntime) -> Result<(), Fail> {
    let script = b"new a 0 @pair\nshow a\n";
    let keep = |call, kept| Keep { call, kept };
    for (piece, takes, puts, want, text) in [
        // a source that gives one byte at a time, and one that fails at once or later
        (1, None, None, 0, "ok\n{\"n\":0}\n"),
        (1, Some(0), None, 4, ""),
        (1, Some(9), None, 4, ""),
        (99, Some(1), None, 4, ""),
        // a sink that keeps none of a text, one byte, or all of it
        (99, None, Some((0, 0)), 6, ""),
        (99, None, Some((0, 1)), 6, "o"),
        (99, None, Some((0, 99)), 6, "ok\n"),
        (99, None, Some((1, 0)), 6, "ok\n"),
        (99, None, Some((1, 3)), 6, "ok\n{\"n"),
        (99, None, Some((1, 99)), 6, "ok\n{\"n\":0}\n"),
    ] {
        let takes: Vec<u32> = takes.into_iter().collect(rt.alloc())?;
        let puts: Vec<Keep> = puts
            .into_iter()
            .map(|(call, kept)| keep(call, kept))
            .collect(rt.alloc())?;
        let (status, put) = called(
            rt.alloc(),
            &["play"],
            script,
            piece,
            takes.as_slice(),
            puts.as_slice(),
        )?;
        assert_eq!(rt; status, want);
        assert_eq!(rt; put.as_slice(), text.as_bytes());
    }
    Ok(())
}

// What a check of a table tells, where its text is in the file t or there is no file: the status, the bytes that it put, and
// how many fetches failed.
fn checked(
    alloc: Global,
    text: Option<&[u8]>,
    faults: &[Fault],
    puts: &[Keep],
) -> Result<(u8, Vec<u8>, u64), NoMemory> {
    let mut files = Files::new(alloc);
    if let Some(text) = text {
        files.put(alloc, "t", text)?;
    }
    let mut store = MemStore::of(files, listed(alloc, faults)?);
    let nothing = Bytes {
        items: Vec::new(alloc),
    };
    let mut source = MemSource::of(nothing, 1, List::new(alloc));
    let mut sink = MemSink::of(alloc, listed(alloc, puts)?);
    let mut words = Vec::new(alloc);
    for word in ["check", "t"] {
        words.push(String::from_str(alloc, word)?)?;
    }
    let status = run(alloc, words.as_slice(), &mut store, &mut source, &mut sink);
    Ok((status, sink.bytes, store.fetch_faults))
}

// The flag that is on where it is switched on and off at once.
const ON_FLAG: &str =
    "{\"ops\":[{\"act\":[0,1,2],\"level\":1,\"name\":\"none\",\"next\":[0,1]},{\"act\":[0,1,2],\"level\":1,\"name\":\"off\",\"next\":[0,0]},{\"act\":[0,0,2],\"level\":2,\"name\":\"on\",\"next\":[1,1]}],\"start\":0,\"states\":[\"off\",\"on\"]}";

#[test]
fn checks_tables(rt: HostRuntime) -> Result<(), Fail> {
    for (text, status, want) in [
        (ON_FLAG, 0, "lawful\n"),
        // two operations of one level that lead to two states
        (
            "{\"ops\":[{\"act\":[0,1],\"level\":1,\"name\":\"zero\",\"next\":[0,0]},{\"act\":[0,1],\"level\":1,\"name\":\"one\",\"next\":[1,1]}],\"start\":0,\"states\":[\"a\",\"b\"]}",
            2,
            "broken 2 0 1 0\n",
        ),
        // three levels, of which the highest does not distribute
        (
            "{\"ops\":[{\"act\":[0,1,2,3],\"level\":1,\"name\":\"x\",\"next\":[0]},{\"act\":[0,1,2,3],\"level\":1,\"name\":\"v\",\"next\":[0]},{\"act\":[1,1,2,3],\"level\":2,\"name\":\"y\",\"next\":[0]},{\"act\":[0,0,2,3],\"level\":3,\"name\":\"z\",\"next\":[0]}],\"start\":0,\"states\":[\"s\"]}",
            2,
            "broken 5 3 2 0\n",
        ),
        ("{", 2, "refused table not-json\n"),
        ("[]", 2, "refused table form\n"),
        (
            "{\"ops\":[],\"start\":0,\"states\":[\"A\"]}",
            2,
            "refused table name\n",
        ),
        (
            "{\"ops\":[],\"start\":0,\"states\":[\"a\",\"a\"]}",
            2,
            "refused table twice\n",
        ),
        (
            "{\"ops\":[],\"start\":0,\"states\":[\"a\"]}",
            2,
            "refused table size\n",
        ),
        (
            "{\"ops\":[{\"act\":[0],\"level\":9,\"name\":\"x\",\"next\":[0]}],\"start\":0,\"states\":[\"a\"]}",
            2,
            "refused table level\n",
        ),
        (
            "{\"ops\":[{\"act\":[1],\"level\":1,\"name\":\"x\",\"next\":[0]}],\"start\":0,\"states\":[\"a\"]}",
            2,
            "refused table entry 1\n",
        ),
    ] {
        let told = checked(rt.alloc(), Some(text.as_bytes()), &[], &[])?;
        assert_eq!(rt; told.0, status);
        assert_eq!(rt; told.1.as_slice(), want.as_bytes());
    }
    let (status, put, faults) = checked(rt.alloc(), None, &[], &[])?;
    assert_eq!(rt; put.as_slice(), b"refused missing t\n".as_slice());
    assert_eq!(rt; status, 2);
    assert_eq!(rt; faults, 0);
    Ok(())
}

#[test]
fn meets_faults_of_a_check(rt: HostRuntime) -> Result<(), Fail> {
    let text = Some(ON_FLAG.as_bytes());
    let fault = Fault {
        call: 0,
        late: false,
    };
    let (status, put, faults) = checked(rt.alloc(), text, &[fault], &[])?;
    assert_eq!(rt; put.len(), 0);
    assert_eq!(rt; status, 4);
    assert_eq!(rt; faults, 1);
    let keep = Keep { call: 0, kept: 3 };
    let (status, put, _) = checked(rt.alloc(), text, &[], &[keep])?;
    assert_eq!(rt; put.as_slice(), b"law".as_slice());
    assert_eq!(rt; status, 6);
    Ok(())
}
