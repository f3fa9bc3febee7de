ghost use Rattle.std.specs.Prelude.{◌≡◌, ◌≤◌, IsTrue, IfOk};
ghost use Rattle.vector_clock.specs.Clock.{max_entry};
ghost use Rattle.crdt_laws.specs.Tower.{IsStampOf};

use super::*;
use crdt_laws::{NoMemory, Tower, Txt};
use std::alloc::Global;
use std::test::Fail;
use vector_clock::{Clock, MAX_SEQ, Stamp};

fn text(alloc: Global, words: &str) -> Result<Txt, NoMemory> {
    Ok(Txt {
        items: Vec::from_slice(alloc, words.as_bytes())?,
    })
}

// The stamps of three operations: the first ones of two members, who know no other operation, and one of a third member, who
// knows both.
fn stamp(which: u8) -> Stamp
    ensures { IsStampOf 3 result }
{
    match which {
        0 => Stamp {
            member: 0,
            clock: Clock::zero(3).with(0, 1),
        },
        1 => Stamp {
            member: 1,
            clock: Clock::zero(3).with(1, 1),
        },
        _ => Stamp {
            member: 2,
            clock: Clock::zero(3).with(0, 1).with(1, 1).with(2, 1),
        },
    }
}

// The state after the text was set at the stamp. A set that is not valid ends a test as running out of memory does.
fn after<T: Tower<Op = Txt>>(
    alloc: Global,
    tower: &T,
    state: T::State,
    which: u8,
    op: &Txt,
) -> Result<T::State, NoMemory>
    requires plain { IsTrue (T.meaning tower.now).plain }
    requires good { (T.meaning tower.now).good 3 state }
    ensures { IfOk result (λ s. (T.meaning tower.now).good 3 s) }
{
    let stamp = stamp(which);
    if tower.valid(&stamp, op) {
        tower.apply(alloc, state, &stamp, op)
    } else {
        Err(NoMemory)
    }
}

// What the register shows after these sets in their order.
fn shown<T: Tower<Op = Txt>>(
    alloc: Global,
    tower: &T,
    sets: &[(u8, &str)],
) -> Result<String, NoMemory>
    requires { IsTrue (T.meaning tower.now).plain }
{
    let mut state = tower.init(alloc)?;
    for (which, words) in sets {
        state = after(alloc, tower, state, *which, &text(alloc, words)?)?;
    }
    Ok(tower.show(alloc, &state)?.to_string(alloc)?)
}

// The first two sets are concurrent, and the third knew of both. Of the keys of the first two, that of the greater member is
// greater.
#[test]
fn shows_after_sets_in_each_order(rt: HostRuntime) -> Result<(), Fail> {
    let alloc = rt.alloc();
    let lion = (0, "Lion");
    let swan = (1, "Swan");
    let bear = (2, "Bear");
    assert_eq!(rt; shown(alloc, &Latest, &[])?.as_str(), "null");
    assert_eq!(rt; shown(alloc, &Several, &[])?.as_str(), "[]");
    for sets in [[lion, swan], [swan, lion]] {
        assert_eq!(rt; shown(alloc, &Latest, &sets)?.as_str(), r#""Swan""#);
        assert_eq!(rt;
            shown(alloc, &Several, &sets)?.as_str(),
            r#"["Lion","Swan"]"#
        );
    }
    for sets in [[lion, swan, bear], [swan, lion, bear]] {
        assert_eq!(rt; shown(alloc, &Latest, &sets)?.as_str(), r#""Bear""#);
        assert_eq!(rt; shown(alloc, &Several, &sets)?.as_str(), r#"["Bear"]"#);
    }
    for sets in [
        [lion, bear, swan],
        [bear, swan, lion],
        [bear, lion, swan],
        [swan, bear, lion],
    ] {
        assert_eq!(rt; shown(alloc, &Latest, &sets)?.as_str(), r#""Bear""#);
    }
    Ok(())
}

// Whether the bytes, so many times, may be set by a member who knows so many operations of its own.
fn is_valid<T: Tower<Op = Txt>>(
    alloc: Global,
    tower: &T,
    seq: u32,
    bytes: &[u8],
    times: usize,
) -> Result<bool, NoMemory>
    requires low { 1 ≤ seq }
    requires high { seq ≤ max_entry }
{
    let mut items = Vec::new(alloc);
    for _ in 0..times {
        items.extend_from_slice(bytes)?;
    }
    let stamp = Stamp {
        member: 1,
        clock: Clock::zero(2).with(1, seq),
    };
    Ok(tower.valid(&stamp, &Txt { items }))
}

#[test]
fn texts_have_limits(rt: HostRuntime) -> Result<(), Fail> {
    let alloc = rt.alloc();
    // Each row: how many operations the member knows of its own, the bytes, how many times these stand, and whether that is valid.
    let e_acute = "é".as_bytes();
    let half = [0xC3].as_slice();
    let rows = [
        (1, b"a".as_slice(), 0, true),
        (1, b"a".as_slice(), 1024, true),
        (1, b"a".as_slice(), 1025, false),
        (1, e_acute, 512, true),
        (1, e_acute, 513, false),
        (1, half, 1, false),
        (MAX_SEQ, b"a".as_slice(), 1, true),
        (MAX_SEQ + 1, b"a".as_slice(), 1, false),
    ];
    for (seq, bytes, times, valid) in rows {
        assert_eq!(rt;
            is_valid(alloc, &Latest, seq, bytes, times)?,
            valid,
            "{seq} {times}"
        );
        assert_eq!(rt;
            is_valid(alloc, &Several, seq, bytes, times)?,
            valid,
            "{seq} {times}"
        );
    }
    Ok(())
}

// What an operation becomes when another acts on it. One that is not valid ends a test as running out of memory does.
fn acted<T: Tower<Op = Txt>>(alloc: Global, tower: &T, y: &Txt, x: &Txt) -> Result<Txt, NoMemory> {
    let stamp = stamp(0);
    if tower.valid(&stamp, y) && tower.valid(&stamp, x) {
        tower.act(alloc, y, x)
    } else {
        Err(NoMemory)
    }
}

// A copy of a state.
fn copied_state<T: Tower>(alloc: Global, tower: &T, state: &T::State) -> Result<T::State, NoMemory>
    requires { (T.meaning tower.now).good 3 state.now }
    ensures { IfOk result (λ s. s ≡ state.now) }
{
    tower.copy_state(alloc, state)
}

// A copy of an operation. One that is not valid ends a test as running out of memory does.
fn copied<T: Tower<Op = Txt>>(alloc: Global, tower: &T, op: &Txt) -> Result<Txt, NoMemory> {
    if tower.valid(&stamp(0), op) {
        tower.copy_op(alloc, op)
    } else {
        Err(NoMemory)
    }
}

// Whether two valid operations are equal.
fn are_same<T: Tower<Op = Txt>>(tower: &T, a: &Txt, b: &Txt) -> bool {
    let stamp = stamp(0);
    tower.valid(&stamp, a) && tower.valid(&stamp, b) && tower.same_op(a, b)
}

// What is shown of a copy of the settled state after one set.
fn shown_settled<T: Tower<Op = Txt>>(alloc: Global, tower: &T, op: &Txt) -> Result<String, NoMemory>
    requires { IsTrue (T.meaning tower.now).plain }
{
    let state = after(alloc, tower, tower.init(alloc)?, 0, op)?;
    let settled = tower.settle(alloc, state, &Clock::zero(3))?;
    let copy = copied_state(alloc, tower, &settled)?;
    Ok(tower.show(alloc, &copy)?.to_string(alloc)?)
}

#[test]
fn keeps_texts(rt: HostRuntime) -> Result<(), Fail> {
    let alloc = rt.alloc();
    let lion = text(alloc, "Lion")?;
    let swan = text(alloc, "Swan")?;
    assert!(rt; are_same(&Latest, &lion, &copied(alloc, &Latest, &lion)?));
    assert!(rt; are_same(&Several, &lion, &copied(alloc, &Several, &lion)?));
    assert!(rt; !are_same(&Latest, &lion, &swan) && !are_same(&Several, &lion, &swan));
    assert!(rt; are_same(&Latest, &lion, &acted(alloc, &Latest, &swan, &lion)?));
    assert!(rt; are_same(&Several, &lion, &acted(alloc, &Several, &swan, &lion)?));
    assert_eq!(rt; shown_settled(alloc, &Latest, &lion)?.as_str(), r#""Lion""#);
    assert_eq!(rt;
        shown_settled(alloc, &Several, &lion)?.as_str(),
        r#"["Lion"]"#
    );
    Ok(())
}
