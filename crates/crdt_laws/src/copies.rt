ghost use Rattle.std.specs.Prelude.{◌≡◌, IfOk};
ghost use Rattle.crdt_laws.specs.Sets.{AreFormed, beyond};

use crate::small::{Entry, NoMemory, Ops};
use crate::tower::Tower;
use std::alloc::Global;
use vector_clock::Clock;

/// Copies of the operations. `NoMemory` comes where it runs out of memory.
pub fn copy_ops<T: Tower>(
    alloc: Global,
    tower: &T,
    ops: &[Entry<T::Op>],
) -> Result<Ops<T::Op>, NoMemory>
    requires formed { AreFormed (T.meaning tower.now) ops.now }
    ensures { IfOk result (λ copies. copies ≡ ops.now) }
{
    let mut copies = Ops::new(alloc);
    for e in ops.iter() {
        let op = tower.copy_op(alloc, &e.op)?;
        copies.push(e.stamp, op)?;
    }
    Ok(copies)
}

/// Copies of the operations that the clock does not cover. `NoMemory` comes where it runs out of memory.
pub fn copy_beyond<T: Tower>(
    alloc: Global,
    tower: &T,
    known: &Clock,
    ops: &[Entry<T::Op>],
) -> Result<Ops<T::Op>, NoMemory>
    requires formed { AreFormed (T.meaning tower.now) ops.now }
    ensures { IfOk result (λ kept. kept ≡ beyond known.now ops.now) }
{
    let mut kept = Ops::new(alloc);
    for e in ops.iter() {
        if !known.covers(e.stamp.id()) {
            let op = tower.copy_op(alloc, &e.op)?;
            kept.push(e.stamp, op)?;
        }
    }
    Ok(kept)
}
