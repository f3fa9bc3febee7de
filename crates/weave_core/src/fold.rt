ghost use Rattle.std.specs.Prelude.{◌≡◌, ℕ, IfOk};
ghost use Rattle.crdt_laws.specs.Document.{MayFollow};
ghost use Rattle.crdt_laws.specs.Present.{document_from, present};
ghost use Rattle.crdt_laws.specs.Sets.{AreIssued};
ghost use Rattle.weave_core.specs.Deliver.{IsRun};
ghost use Rattle.weave_core.specs.Deliver.{kept_with};

use crdt_laws::{Entry, NoMemory, Ops, Tower, acted_forms, present_form};
use std::alloc::Global;

/// The state after one more operation, and the present forms of those that can act on others.
fn fold_next<T: Tower>(
    alloc: Global,
    tower: &T,
    state: T::State,
    history: Ops<T::Op>,
    e: &Entry<T::Op>,
) -> Result<(T::State, Ops<T::Op>), NoMemory>
    requires { MayFollow (T.meaning tower.now) state history e.now }
    ensures state { IfOk result (λ p. p.0 ≡ (T.meaning tower.now).apply state e.now.stamp (present (T.meaning tower.now) history e.now).op) }
    ensures history { IfOk result (λ p. p.1 ≡ kept_with (T.meaning tower.now) history e.now) }
{
    let op = tower.copy_op(alloc, &e.op)?;
    let form = present_form(alloc, tower, history.as_slice(), &e.stamp, op)?;
    let next = tower.apply(alloc, state, &e.stamp, &form)?;
    let mut kept = acted_forms(alloc, tower, history, &e.stamp, &form)?;
    if tower.level(&form) >= 2 {
        kept.push(e.stamp, form)?;
    }
    Ok((next, kept))
}

/// The document of operations in canonical order, from a state: each one is applied as the concurrent ones of higher levels
/// before it have changed it. The state is good, the operations are valid and of one document, their keys strictly rise, and
/// their ids differ from each other and from those that the state holds. `NoMemory` comes where it runs out of memory. The
/// time is that of the number of operations, times that of those above level 1 and one more, times the levels.
pub fn fold_plain<T: Tower>(
    alloc: Global,
    tower: &T,
    from: T::State,
    ops: &Ops<T::Op>,
) -> Result<T::State, NoMemory>
    requires { IsRun (T.meaning tower.now) from ops.now }
    ensures document { IfOk result (λ s. s ≡ document_from (T.meaning tower.now) from ops.now) }
    ensures good { (n : ℕ) → (T.meaning tower.now).good n from → AreIssued (T.meaning tower.now) n ops.now → IfOk result (λ s. (T.meaning tower.now).good n s) }
{
    let mut state = from;
    let mut history = Ops::new(alloc);
    let entries = ops.as_slice();
    for e in entries {
        let (next, kept) = fold_next(alloc, tower, state, history, e)?;
        state = next;
        history = kept;
    }
    Ok(state)
}
