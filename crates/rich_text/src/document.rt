ghost use Rattle.std.specs.Prelude.{◌≡◌, ◌↔◌, [], IfOk};
ghost use Rattle.std.specs.List.{Contains};
ghost use Rattle.crdt_laws.specs.Present.{document};
ghost use Rattle.crdt_laws.specs.Sets.{IsHonest};
ghost use Rattle.list_crdt.specs.Cells.{IsRising};
ghost use Rattle.weave_core.specs.Deliver.{IsRun};
ghost use Rattle.rich_text.specs.Marked.{at};
ghost use Rattle.rich_text.specs.Over.{stack_of};
ghost use Rattle.rich_text.specs.Shown.{IsShown};
ghost use Rattle.rich_text.specs.declared.marked.RichCell.{RichCell};

use crate::marked::{RichOp, RichState};
use crate::over::{MarkRange, Rich};
use crdt_laws::{NoMemory, Ops, Tower};
use semidirect_product::StackOp;
use std::alloc::Global;
use weave_core::fold_plain;

/// The document of valid operations in canonical order, with its characters by rising position. Those of an honest set are
/// exactly the ones that the set shows: those of the inserts that no operation of the set deletes, each with the greatest entry
/// of each mark that is offered for it.
///
/// `NoMemory` comes where it runs out of memory.
pub fn fold_document(
    alloc: Global,
    tower: &Rich,
    ops: &Ops<StackOp<RichOp, MarkRange>>,
) -> Result<RichState, NoMemory>
    requires { IsRun (stack_of tower.now.low.marks tower.now.high.marks) [] ops.now }
    ensures document { IfOk result (λ s. s ≡ document (stack_of tower.now.low.marks tower.now.high.marks) ops.now) }
    ensures shown { IsHonest ops.now → IfOk result (λ s. (c : RichCell) → Contains s c ↔ IsShown ops.now c) }
    ensures rising { IfOk result (λ s. IsRising at s) }
{
    let start = tower.init(alloc)?;
    fold_plain(alloc, tower, start, ops)
}
