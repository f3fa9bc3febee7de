ghost use Rattle.std.specs.Prelude.{◌≡◌, ◌≤◌, ◌<◌, IfOk};
ghost use Rattle.std.specs.List.{All};
ghost use Rattle.vector_clock.specs.Clock.{IsClock, count};
ghost use Rattle.vector_clock.specs.Stamp.{IsStamp};
ghost use Rattle.crdt_laws.specs.Sets.{IsRising};

use crate::{Entry, List, NoMemory, Ops, Txt, beyond, place_in, union};
use std::alloc::Global;
use std::test::Fail;
use vector_clock::{Clock, Stamp};

// A clock of two members.
fn knows(first: u32, second: u32) -> Clock
    requires first { first ≤ 9 }
    requires second { second ≤ 9 }
    ensures clock { IsClock result }
    ensures members { result.n ≡ 2 }
    ensures first { count result 0 ≡ first }
    ensures second { count result 1 ≡ second }
{
    Clock::zero(2).with(0, first).with(1, second)
}

// The set of one operation.
fn alone(alloc: Global, stamp: Stamp, op: u8) -> Result<Ops<u8>, NoMemory>
    requires { IsStamp stamp }
    ensures rises { IfOk result (λ r. IsRising r) }
    ensures stamps { IfOk result (λ r. All (λ e. IsStamp e.stamp) r) }
{
    let mut ops = Ops::new(alloc);
    ops.push(stamp, op)?;
    Ok(ops)
}

#[test]
fn joins_sets_by_key(rt: HostRuntime) -> Result<(), Fail> {
    let first = Stamp {
        member: 0,
        clock: knows(1, 0),
    };
    let beside = Stamp {
        member: 1,
        clock: knows(0, 1),
    };
    let after = Stamp {
        member: 0,
        clock: knows(2, 1),
    };
    let ends = union(alone(rt.alloc(), after, 3)?, alone(rt.alloc(), first, 1)?)?;
    let starts = union(alone(rt.alloc(), first, 1)?, alone(rt.alloc(), beside, 2)?)?;
    let all = union(ends, starts)?;
    let mut ops = List::new(rt.alloc());
    for Entry { stamp: _, op } in all.as_slice() {
        ops.push(*op)?;
    }
    assert_eq!(rt; ops.items.as_slice(), [1, 2, 3].as_slice());
    assert_eq!(rt; all.len(), 3);
    Ok(())
}

// An operation is put in its place, and then what a third one knew of is left out.
#[test]
fn places_by_key_and_leaves_out(rt: HostRuntime) -> Result<(), Fail> {
    let first = Stamp {
        member: 0,
        clock: knows(1, 0),
    };
    let third = Stamp {
        member: 0,
        clock: knows(3, 1),
    };
    let ops = place_in(alone(rt.alloc(), third, 3)?, first, 1)?;
    assert_eq!(rt; ops.get(0).map(|e| e.op), Some(1));
    assert_eq!(rt; ops.get(1).map(|e| e.op), Some(3));
    assert_eq!(rt; ops.get(2).map(|e| e.op), None);
    let rest = beyond(ops, &knows(1, 1));
    assert_eq!(rt; rest.len(), 1);
    assert_eq!(rt; rest.get(0).map(|e| e.op), Some(3));
    Ok(())
}

#[test]
fn keeps_what_is_put_in(rt: HostRuntime) -> Result<(), Fail> {
    let stamp = Stamp {
        member: 1,
        clock: knows(0, 1),
    };
    let mut ops = Ops::new(rt.alloc());
    ops.push(stamp, 5)?;
    ops.insert(0, stamp, 4)?;
    assert_eq!(rt; ops.get(0).map(|e| e.op), Some(4));
    assert_eq!(rt; ops.get(1).map(|e| e.op), Some(5));
    assert_eq!(rt; ops.get(2).map(|e| e.op), None);
    let mut list = List::new(rt.alloc());
    list.push(7)?;
    assert_eq!(rt; list.get(0), Some(&7));
    assert_eq!(rt; list.len(), 1);
    Ok(())
}

// The text of these bytes.
fn text_of(alloc: Global, bytes: &[u8]) -> Result<Txt, NoMemory> {
    Ok(Txt {
        items: Vec::from_slice(alloc, bytes)?,
    })
}

#[test]
fn copies_and_compares_texts(rt: HostRuntime) -> Result<(), Fail> {
    let text = text_of(rt.alloc(), "bl\u{fc}".as_bytes())?;
    let copy = text.copy(rt.alloc())?;
    assert!(rt; copy == text);
    assert!(rt; copy != text_of(rt.alloc(), b"bl")?);
    Ok(())
}

// The second byte of the letter is missing.
#[test]
fn shows_what_is_utf8(rt: HostRuntime) -> Result<(), Fail> {
    let text = text_of(rt.alloc(), &[98, 108, 195, 188])?;
    assert!(rt; text.is_utf8());
    assert_eq!(rt; text.to_string(rt.alloc())?.as_str(), "bl\u{fc}");
    assert!(rt; !text_of(rt.alloc(), &[98, 108, 195])?.is_utf8());
    Ok(())
}
