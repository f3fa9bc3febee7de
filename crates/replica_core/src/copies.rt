ghost use Rattle.std.specs.Prelude.{◌≡◌, IfOk};
ghost use Rattle.crdt_laws.specs.Sets.{AreFormed};

use crate::replica::Batch;
use crdt_laws::{NoMemory, Tower, copy_ops};
use std::alloc::Global;

/// A copy of the batch. `NoMemory` comes where it runs out of memory.
pub fn copy_batch<T: Tower>(
    alloc: Global,
    tower: &T,
    batch: &Batch<T::Op>,
) -> Result<Batch<T::Op>, NoMemory>
    requires { AreFormed (T.meaning tower.now) batch.now.ops }
    ensures { IfOk result (λ copy. copy ≡ batch.now) }
{
    Ok(Batch {
        doc: batch.doc.copy(alloc)?,
        sender: batch.sender,
        header: batch.header,
        ops: copy_ops(alloc, tower, batch.ops.as_slice())?,
    })
}
