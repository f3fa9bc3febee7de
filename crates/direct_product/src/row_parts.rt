ghost use Rattle.std.specs.Prelude.{◌≡◌, ◌<◌, length, IfOk};
ghost use Rattle.serde_json.specs.View.{view};
ghost use Rattle.vector_clock.specs.Clock.{IsClock};
ghost use Rattle.vector_clock.specs.Stamp.{id_of};
ghost use Rattle.crdt_laws.specs.Tower.{IsState};
ghost use Rattle.direct_product.specs.Row.{row_meaning, top_of, init_all, apply_at, valid_at, settle_all, good_all, MayApply};

use crdt_laws::{List, NoMemory, Tower};
use serde_json::Value;
use std::alloc::Global;
use vector_clock::{Clock, Stamp};

/// The greatest top of the parts.
pub(crate) fn top_of_parts<T: Tower>(parts: &[T]) -> u8
    ensures { result ≡ top_of T.meaning parts.now }
{
    let mut top = 0;
    for part in parts {
        top = part.top().max(top);
    }
    top
}

/// The first state of each part.
pub(crate) fn init_states<T: Tower>(alloc: Global, parts: &[T]) -> Result<List<T::State>, NoMemory>
    ensures { IfOk result (λ ss. ss ≡ init_all T.meaning parts.now) }
{
    let mut states = List::new(alloc);
    for part in parts {
        states.push(part.init(alloc)?)?;
    }
    Ok(states)
}

/// The states after an operation of the part at `at`. The other states stay where they are.
pub(crate) fn apply_part<T: Tower>(
    alloc: Global,
    parts: &[T],
    states: List<T::State>,
    at: usize,
    stamp: &Stamp,
    op: &T::Op,
) -> Result<List<T::State>, NoMemory>
    requires may { MayApply T.meaning stamp.now.clock.n parts.now states stamp.now }
    requires valid { valid_at T.meaning parts.now at stamp.now op.now }
    ensures { IfOk result (λ ss. ss ≡ apply_at T.meaning parts.now states at stamp.now op.now) }
{
    let List { mut items } = states;
    // The last state stands in for this one meanwhile, so that none behind it moves.
    let state = items.swap_remove(at);
    let part = &parts[at];
    let next = part.apply(alloc, state, stamp, op)?;
    let last = items.len();
    items.push(next)?;
    items.swap(at, last);
    Ok(List { items })
}

/// Each state settled at the clock, in its place.
pub(crate) fn settle_states<T: Tower>(
    alloc: Global,
    parts: &[T],
    states: List<T::State>,
    k: &Clock,
) -> Result<List<T::State>, NoMemory>
    requires clock { IsClock k.now }
    requires good { good_all T.meaning k.now.n parts.now states }
    ensures { IfOk result (λ ss. ss ≡ settle_all T.meaning parts.now states k.now) }
{
    let List { items } = states;
    let mut settled = List::new(alloc);
    for (part, state) in parts.iter().zip(items) {
        settled.push(part.settle(alloc, state, k)?)?;
    }
    Ok(settled)
}

/// A copy of each state, by its part.
pub(crate) fn copy_states<T: Tower>(
    alloc: Global,
    parts: &[T],
    states: &List<T::State>,
) -> Result<List<T::State>, NoMemory>
    requires { IsState (row_meaning T.meaning parts.now) states.now }
    ensures { IfOk result (λ ss. ss ≡ states.now) }
{
    let mut copies = List::new(alloc);
    for (part, state) in parts.iter().zip(&states.items) {
        copies.push(part.copy_state(alloc, state)?)?;
    }
    Ok(copies)
}

/// The array of the states as their parts show them.
pub(crate) fn show_states<T: Tower>(
    alloc: Global,
    parts: &[T],
    states: &List<T::State>,
) -> Result<Value, NoMemory>
    requires { IsState (row_meaning T.meaning parts.now) states.now }
    ensures { IfOk result (λ v. view v ≡ (row_meaning T.meaning parts.now).show states.now) }
{
    let mut values = Vec::new(alloc);
    for (part, state) in parts.iter().zip(&states.items) {
        values.push(part.show(alloc, state)?)?;
    }
    Ok(Value::Array(values))
}
