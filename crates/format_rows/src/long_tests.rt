//! Long things, there and back: a bench of the repository measures how long they take, with a greater number.
ghost use Rattle.std.specs.Prelude.{◌≡◌, ◌≤◌, length, IfOk};
ghost use Rattle.std.specs.List.{All};
ghost use Rattle.vector_clock.specs.Clock.{IsClock};
ghost use Rattle.wire_core.specs.Calls.{rules_of};
ghost use Rattle.format_rows.specs.Members.{one_member};

use crdt_laws::{Bytes, NoMemory, Tower};
use kind_codec::TextCoder;
use list_crdt::Text;
use std::alloc::Global;
use std::test::*;
use vector_clock::Clock;
use wire_core::{ByteIn, ByteOut, ClockForm, Coder, WireError};

/// How many characters or operations there are.
const MANY: u16 = 50;

/// How often they are read, written or copied.
const TIMES: u32 = 3;

fn empty(alloc: Global) -> ByteOut
    ensures { rules_of result ≡ one_member }
{
    ByteOut {
        bytes: Bytes {
            items: Vec::new(alloc),
        },
        n: 1,
        form: ClockForm::Sparse,
    }
}

// The bytes of a text of so many characters.
fn text(alloc: Global) -> Result<Bytes, NoMemory> {
    let mut out = empty(alloc);
    out.put_u32(u32::from(MANY))?;
    for i in 1..=MANY {
        out.put_u8(1)?;
        out.put_u16(i)?;
        out.put_u8(0)?;
        out.put_u32(u32::from(i))?;
        out.put_u32(97)?;
    }
    Ok(out.bytes)
}

// The bytes of so many inserts.
fn inserts(alloc: Global) -> Result<Bytes, NoMemory> {
    let mut out = empty(alloc);
    for i in 1..=MANY {
        out.put_u8(0)?;
        out.put_u8(1)?;
        out.put_u16(i)?;
        out.put_u8(0)?;
        out.put_u32(u32::from(i))?;
        out.put_u32(97)?;
    }
    Ok(out.bytes)
}

// Reads the state so many times.
fn take_states<T: Tower, C: Coder<T>>(
    alloc: Global,
    coder: &C,
    tower: &T,
    d: &Clock,
    bytes: &[u8],
    times: u32,
) -> Result<(), WireError>
    requires few { length bytes.now ≤ 4294967295 }
    requires clock { IsClock d.now }
    requires members { d.now.n ≡ 1 }
{
    for _ in 0..times {
        let mut from = ByteIn {
            bytes,
            at: 0,
            n: 1,
            form: ClockForm::Sparse,
        };
        let _state = coder.take_state(alloc, tower, d, &mut from)?;
    }
    Ok(())
}

// Reads the state, and writes it so many times.
fn put_states<T: Tower, C: Coder<T>>(
    alloc: Global,
    coder: &C,
    tower: &T,
    d: &Clock,
    bytes: &[u8],
    times: u32,
) -> Result<(), WireError>
    requires few { length bytes.now ≤ 4294967295 }
    requires clock { IsClock d.now }
    requires members { d.now.n ≡ 1 }
{
    let mut from = ByteIn {
        bytes,
        at: 0,
        n: 1,
        form: ClockForm::Sparse,
    };
    let state = coder.take_state(alloc, tower, d, &mut from)?;
    for _ in 0..times {
        let mut out = empty(alloc);
        coder.put_state(tower, &state, &mut out)?;
    }
    Ok(())
}

// Reads so many operations that stand one after the other, and gives them.
fn take_ops<T: Tower, C: Coder<T>>(
    alloc: Global,
    coder: &C,
    tower: &T,
    bytes: &[u8],
    count: u16,
) -> Result<Vec<T::Op>, WireError>
    requires few { length bytes.now ≤ 4294967295 }
    ensures { IfOk result (λ ops. All (λ x. (C.op_grammar coder.now tower.now).allows one_member x) ops.items) }
{
    let mut from = ByteIn {
        bytes,
        at: 0,
        n: 1,
        form: ClockForm::Sparse,
    };
    let mut ops = Vec::new(alloc);
    for _ in 0..count {
        ops.push(coder.take_op(alloc, tower, &mut from)?)?;
    }
    Ok(ops)
}

// Writes operations one after the other.
fn put_ops<T: Tower, C: Coder<T>>(
    coder: &C,
    tower: &T,
    ops: &[T::Op],
    out: &mut ByteOut,
) -> Result<(), NoMemory>
    requires { All (λ x. (C.op_grammar coder.now tower.now).allows (rules_of out.old) x) ops.now }
{
    for op in ops {
        coder.put_op(tower, op, out)?;
    }
    Ok(())
}

// Reads so many operations that stand one after the other, and writes them so many times.
fn take_and_put_ops<T: Tower, C: Coder<T>>(
    alloc: Global,
    coder: &C,
    tower: &T,
    bytes: &[u8],
    count: u16,
    times: u32,
) -> Result<(), WireError>
    requires few { length bytes.now ≤ 4294967295 }
{
    let ops = take_ops(alloc, coder, tower, bytes, count)?;
    for _ in 0..times {
        let mut out = empty(alloc);
        put_ops(coder, tower, ops.as_slice(), &mut out)?;
    }
    Ok(())
}

fn clock() -> Clock
    ensures clock { IsClock result }
    ensures members { result.n ≡ 1 }
{
    Clock::zero(1).with(0, u32::from(MANY))
}

#[test]
fn copies_a_text(rt: HostRuntime) -> Result<(), Fail> {
    let bytes = text(rt.alloc()).ok().ok_or("no memory")?;
    for _ in 0..TIMES {
        let copy = Vec::from_slice(rt.alloc(), bytes.items.as_slice())?;
        assert_eq!(rt; copy.len(), bytes.items.len());
    }
    Ok(())
}

#[test]
fn takes_a_text(rt: HostRuntime) -> Result<(), Fail> {
    let bytes = text(rt.alloc()).ok().ok_or("no memory")?;
    assert!(rt; bytes.items.len() <= 1_000_000);
    let taken = take_states(
        rt.alloc(),
        &TextCoder,
        &Text,
        &clock(),
        bytes.items.as_slice(),
        TIMES,
    );
    assert!(rt; taken.is_ok());
    Ok(())
}

#[test]
fn puts_a_text(rt: HostRuntime) -> Result<(), Fail> {
    let bytes = text(rt.alloc()).ok().ok_or("no memory")?;
    assert!(rt; bytes.items.len() <= 1_000_000);
    let put = put_states(
        rt.alloc(),
        &TextCoder,
        &Text,
        &clock(),
        bytes.items.as_slice(),
        TIMES,
    );
    assert!(rt; put.is_ok());
    Ok(())
}

#[test]
fn copies_inserts(rt: HostRuntime) -> Result<(), Fail> {
    let bytes = inserts(rt.alloc()).ok().ok_or("no memory")?;
    for _ in 0..TIMES {
        let copy = Vec::from_slice(rt.alloc(), bytes.items.as_slice())?;
        assert_eq!(rt; copy.len(), bytes.items.len());
    }
    Ok(())
}

#[test]
fn takes_inserts(rt: HostRuntime) -> Result<(), Fail> {
    let bytes = inserts(rt.alloc()).ok().ok_or("no memory")?;
    assert!(rt; bytes.items.len() <= 1_000_000);
    for _ in 0..TIMES {
        let ops = take_ops(rt.alloc(), &TextCoder, &Text, bytes.items.as_slice(), MANY);
        let ops = ops.ok().ok_or("not read")?;
        assert_eq!(rt; ops.len(), usize::from(MANY));
    }
    Ok(())
}

#[test]
fn puts_inserts(rt: HostRuntime) -> Result<(), Fail> {
    let bytes = inserts(rt.alloc()).ok().ok_or("no memory")?;
    assert!(rt; bytes.items.len() <= 1_000_000);
    let put = take_and_put_ops(
        rt.alloc(),
        &TextCoder,
        &Text,
        bytes.items.as_slice(),
        MANY,
        TIMES,
    );
    assert!(rt; put.is_ok());
    Ok(())
}
