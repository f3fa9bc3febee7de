use super::{are_same, first_of, shown_after, turns};
use crdt_laws::{NoMemory, Tower, Txt};
use map_crdt::{KeyOp, Keyed};
use number_crdts::number;
use register_crdts::Latest;
use semidirect_product::StackOp;
use std::alloc::Global;
use std::test::Fail;

fn text(alloc: Global, words: &str) -> Result<Txt, NoMemory> {
    Ok(Txt {
        items: Vec::from_slice(alloc, words.as_bytes())?,
    })
}

fn on_key<Op: Drop>(alloc: Global, key: &str, op: Op) -> Result<KeyOp<Op>, NoMemory> {
    Ok(KeyOp {
        key: text(alloc, key)?,
        op,
    })
}

// What the tally shows after these numbers were added to the keys, in their order.
fn tallied(alloc: Global, rows: &[(&str, u64)]) -> Result<String, NoMemory> {
    let mut ops = Vec::new(alloc);
    for (key, number) in rows {
        ops.push(on_key(alloc, key, StackOp::Low(*number))?)?;
    }
    shown_after(alloc, &Keyed::of(number()), ops.as_slice())
}

#[test]
fn tallies_by_key(rt: HostRuntime) -> Result<(), Fail> {
    let alloc = rt.alloc();
    assert_eq!(rt; tallied(alloc, &[])?.as_str(), "{}");
    assert_eq!(rt; tallied(alloc, &[("ann", 2)])?.as_str(), r#"{"ann":2}"#);
    // Keys are shown in the order of their bytes, whichever came first.
    let rows = [
        ("zoe", 1),
        ("ann", 2),
        ("Bob", 3),
        ("ann", 4),
        ("é", 5),
        ("an", 7),
    ];
    let shown = tallied(alloc, &rows)?;
    assert_eq!(rt; shown.as_str(), r#"{"Bob":3,"an":7,"ann":6,"zoe":1,"é":5}"#);
    Ok(())
}

// A multiplication acts on what is added to its own key.
#[test]
fn keeps_keys_apart(rt: HostRuntime) -> Result<(), Fail> {
    let alloc = rt.alloc();
    let tower = Keyed::of(number());
    let triple = on_key(alloc, "ann", StackOp::High(3))?;
    let ann = on_key(alloc, "ann", StackOp::Low(2))?;
    let bob = on_key(alloc, "bob", StackOp::Low(2))?;
    let six = on_key(alloc, "ann", StackOp::Low(6))?;
    assert!(rt; turns(alloc, &tower, &triple, &ann, &six)?);
    assert!(rt; !turns(alloc, &tower, &triple, &bob, &six)?);
    assert!(rt; !are_same(&tower, &ann, &bob));
    let ops = [bob, triple];
    let shown = shown_after(alloc, &tower, ops.as_slice())?;
    assert_eq!(rt; shown.as_str(), r#"{"ann":0,"bob":2}"#);
    Ok(())
}

// Whether a text may be put at the key of these bytes, so many times.
fn may_put(alloc: Global, bytes: &[u8], times: usize, words: &str) -> Result<bool, NoMemory> {
    let mut items = Vec::new(alloc);
    for _ in 0..times {
        items.extend_from_slice(bytes)?;
    }
    let op = KeyOp {
        key: Txt { items },
        op: text(alloc, words)?,
    };
    Ok(Keyed::of(Latest).valid(&first_of(0), &op))
}

#[test]
fn puts_texts_at_keys(rt: HostRuntime) -> Result<(), Fail> {
    let alloc = rt.alloc();
    let map = [on_key(alloc, "map", text(alloc, "m.example/1")?)?];
    let shown = shown_after(alloc, &Keyed::of(Latest), map.as_slice())?;
    assert_eq!(rt; shown.as_str(), r#"{"map":"m.example/1"}"#);
    // A key has 1 to 256 bytes of UTF-8.
    let half = [0xC3].as_slice();
    for (bytes, times, valid) in [
        (b"k".as_slice(), 0, false),
        (b"k".as_slice(), 1, true),
        (b"k".as_slice(), 256, true),
        (b"k".as_slice(), 257, false),
        ("é".as_bytes(), 128, true),
        ("é".as_bytes(), 129, false),
        (half, 1, false),
    ] {
        assert_eq!(rt; may_put(alloc, bytes, times, "word")?, valid, "{times}");
    }
    Ok(())
}
