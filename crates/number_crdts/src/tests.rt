ghost use Rattle.std.specs.Prelude.{◌≡◌, ◌<◌, IfOk};
ghost use Rattle.crdt_laws.specs.Tower.{IsStampOf};
ghost use Rattle.number_crdts.specs.Number.{modulus_of};

use super::*;
use crdt_laws::{Actor, NoMemory, Tower};
use std::alloc::Global;
use std::test::Fail;
use vector_clock::{Clock, Stamp};

// The stamp of the first operation of one of two members, who knows no other operation.
fn first_of(member: u8) -> Stamp
    requires { member < 2 }
    ensures { IsStampOf 2 result }
{
    Stamp {
        member,
        clock: Clock::zero(2).with(member, 1),
    }
}

// The number after an operation. One that is not valid ends a test as running out of memory does.
fn after(alloc: Global, tower: &Number, state: u64, op: &NumberOp) -> Result<u64, NoMemory>
    requires modulus { tower.now.high.modulus ≡ tower.now.low.modulus }
    requires state { state < modulus_of tower.now.low.modulus }
    ensures { IfOk result (λ s. s < modulus_of tower.now.low.modulus) }
{
    let stamp = first_of(0);
    if tower.valid(&stamp, op) {
        tower.apply(alloc, state, &stamp, op)
    } else {
        Err(NoMemory)
    }
}

// What an operation becomes when another acts on it. One that is not valid ends a test as running out of memory does.
fn acted(alloc: Global, tower: &Number, y: &NumberOp, x: &NumberOp) -> Result<NumberOp, NoMemory> {
    let stamp = first_of(0);
    if tower.valid(&stamp, y) && tower.valid(&stamp, x) {
        tower.act(alloc, y, x)
    } else {
        Err(NoMemory)
    }
}

// What is shown after an addition, a multiplication, an addition that did not know of it, and another one that knew of all.
fn shown(
    alloc: Global,
    tower: &Number,
    first: u64,
    factor: u64,
    meanwhile: u64,
    last: u64,
) -> Result<String, Fail>
    requires { tower.now.high.modulus ≡ tower.now.low.modulus }
{
    let times = StackOp::High(factor);
    let late = acted(alloc, tower, &times, &StackOp::Low(meanwhile))?;
    let state = after(alloc, tower, tower.init(alloc)?, &StackOp::Low(first))?;
    let state = after(alloc, tower, state, &times)?;
    let state = after(alloc, tower, state, &late)?;
    let state = after(alloc, tower, state, &StackOp::Low(last))?;
    Ok(tower.show(alloc, &state)?.to_string(alloc)?)
}

// Modulo 12, (7 + 4) * 5 is 7, and 4 stands for -8. The greatest residue stands for -1.
#[test]
fn computes_with_residues(rt: HostRuntime) -> Result<(), Fail> {
    let alloc = rt.alloc();
    let max = 0xFFFF_FFFF_FFFF_FFFF;
    let half = 0x8000_0000_0000_0000;
    for (modulus, first, factor, meanwhile, last, text) in [
        (2, 1, 1, 1, 1, "1"),
        (2, 1, 0, 1, 1, "1"),
        (2, 1, 1, 0, 1, "0"),
        (12, 7, 5, 4, 0, "7"),
        (12, 7, 5, 4, 4, "11"),
        (max, max - 1, 2, 0, 0, "18446744073709551613"),
        (max, max - 1, max - 1, 1, 3, "3"),
        (0, max, 1, 0, 0, "-1"),
        (0, max, 2, 1, 7, "7"),
        (0, half, 2, half, 5, "5"),
        (0, 0, 3, 0, half, "-9223372036854775808"),
    ] {
        let tower = if modulus == 0 {
            number()
        } else if modulus == 1 {
            return Err(NoMemory.into());
        } else {
            number_mod(modulus)
        };
        let shown = shown(alloc, &tower, first, factor, meanwhile, last)?;
        assert_eq!(rt; shown.as_str(), text);
    }
    Ok(())
}

#[test]
fn keeps_to_residues(rt: HostRuntime) -> Result<(), Fail> {
    let alloc = rt.alloc();
    let tower = number_mod(12);
    let stamp = first_of(1);
    let five = StackOp::Low(5);
    assert!(rt; tower.same_op(&five, &tower.copy_op(alloc, &five)?));
    assert_eq!(rt; tower.copy_state(alloc, &11)?, 11);
    assert!(rt; tower.valid(&stamp, &StackOp::Low(11)));
    assert!(rt; !tower.valid(&stamp, &StackOp::Low(12)));
    assert!(rt; !tower.valid(&stamp, &StackOp::High(12)));
    assert!(rt; tower.high.fits(&tower.low));
    assert!(rt; !tower.high.fits(&number().low));
    Ok(())
}
