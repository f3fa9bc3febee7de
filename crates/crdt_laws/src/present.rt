ghost use Rattle.std.specs.Prelude.{◌≡◌, IfOk, OnOk, map};
ghost use Rattle.std.specs.List.{filter};
ghost use Rattle.vector_clock.specs.Stamp.{IsStamp};
ghost use Rattle.crdt_laws.specs.Document.{MakesDocument, MayFollow, is_at};
ghost use Rattle.crdt_laws.specs.Entry.{entry};
ghost use Rattle.crdt_laws.specs.Present.{acted, acted_by, document, present, with_next};
ghost use Rattle.crdt_laws.specs.Sets.{AreIssued};
ghost use Rattle.crdt_laws.specs.Tower.{IsIssued, IsState};

use crate::small::{Entry, NoMemory, Ops};
use crate::tower::Tower;
use std::alloc::Global;
use vector_clock::Stamp;

/// Whether the entry has the level and is concurrent to the stamp.
fn is_acting<T: Tower>(tower: &T, e: &Entry<T::Op>, level: u8, stamp: &Stamp) -> bool
    requires stamp { IsStamp stamp.now }
    requires issued { IsIssued (T.meaning tower.now) stamp.now.clock.n e.now.stamp e.now.op }
    ensures { result ≡ is_at (T.meaning tower.now) level stamp.now e.now }
{
    tower.level(&e.op) == level && e.stamp.concurrent(stamp)
}

/// The operation, acted on by each form of the level that is concurrent to it, in the order of the list.
fn acted_at_level<T: Tower>(
    alloc: Global,
    tower: &T,
    forms: &[Entry<T::Op>],
    level: u8,
    stamp: &Stamp,
    op: T::Op,
) -> Result<T::Op, NoMemory>
    requires before { AreIssued (T.meaning tower.now) stamp.now.clock.n forms.now }
    requires issued { IsIssued (T.meaning tower.now) stamp.now.clock.n stamp.now op }
    ensures acted { IfOk result (λ o. entry stamp.now o ≡ acted_by (T.meaning tower.now) (filter (is_at (T.meaning tower.now) level stamp.now) forms.now) (entry stamp.now op)) }
    ensures issued { IfOk result (λ o. IsIssued (T.meaning tower.now) stamp.now.clock.n stamp.now o) }
{
    let mut form = op;
    for e in forms.iter() {
        if is_acting(tower, e, level, stamp) {
            form = tower.act(alloc, &e.op, &form)?;
        }
    }
    Ok(form)
}

/// The form in which the operation is applied, where these are the forms of those before it. `NoMemory` comes where it runs out
/// of memory.
pub fn present_form<T: Tower>(
    alloc: Global,
    tower: &T,
    forms: &[Entry<T::Op>],
    stamp: &Stamp,
    op: T::Op,
) -> Result<T::Op, NoMemory>
    requires before { AreIssued (T.meaning tower.now) stamp.now.clock.n forms.now }
    requires issued { IsIssued (T.meaning tower.now) stamp.now.clock.n stamp.now op }
    ensures present { IfOk result (λ o. entry stamp.now o ≡ present (T.meaning tower.now) forms.now (entry stamp.now op)) }
    ensures issued { IfOk result (λ o. IsIssued (T.meaning tower.now) stamp.now.clock.n stamp.now o) }
{
    let own = tower.level(&op);
    let mut form = op;
    let mut level = tower.top();
    while level > own {
        form = acted_at_level(alloc, tower, forms, level, stamp, form)?;
        level -= 1;
    }
    Ok(form)
}

/// The form acts on each entry of a lower level, where it stands. After it ran out of memory it has acted on some.
fn act_on_lower<T: Tower>(
    alloc: Global,
    tower: &T,
    entries: &mut [Entry<T::Op>],
    stamp: &Stamp,
    form: &T::Op,
) -> Result<(), NoMemory>
    requires before { AreIssued (T.meaning tower.now) stamp.now.clock.n entries.old }
    requires issued { IsIssued (T.meaning tower.now) stamp.now.clock.n stamp.now form.now }
    ensures { OnOk result (entries.new ≡ map (acted (T.meaning tower.now) (entry stamp.now form.now)) entries.old) }
{
    let level = tower.level(form);
    for e in entries.iter_mut() {
        if tower.level(&e.op) < level {
            e.op = tower.act(alloc, form, &e.op)?;
        }
    }
    Ok(())
}

/// The forms once one more has acted on those of lower levels, each where it stands. `NoMemory` comes where it runs out of
/// memory.
pub fn acted_forms<T: Tower>(
    alloc: Global,
    tower: &T,
    forms: Ops<T::Op>,
    stamp: &Stamp,
    form: &T::Op,
) -> Result<Ops<T::Op>, NoMemory>
    requires before { AreIssued (T.meaning tower.now) stamp.now.clock.n forms }
    requires issued { IsIssued (T.meaning tower.now) stamp.now.clock.n stamp.now form.now }
    ensures { IfOk result (λ es. es ≡ map (acted (T.meaning tower.now) (entry stamp.now form.now)) forms) }
{
    let mut forms = forms;
    act_on_lower(alloc, tower, forms.items.as_mut_slice(), stamp, form)?;
    Ok(forms)
}

/// The state after the operation in its present form, and the forms of all operations once it is in.
fn apply_next<T: Tower>(
    alloc: Global,
    tower: &T,
    state: T::State,
    forms: Ops<T::Op>,
    e: &Entry<T::Op>,
) -> Result<(T::State, Ops<T::Op>), NoMemory>
    requires { MayFollow (T.meaning tower.now) state forms e.now }
    ensures state { IfOk result (λ p. p.0 ≡ (T.meaning tower.now).apply state e.now.stamp (present (T.meaning tower.now) forms e.now).op) }
    ensures forms { IfOk result (λ p. p.1 ≡ with_next (T.meaning tower.now) forms e.now) }
{
    let op = tower.copy_op(alloc, &e.op)?;
    let form = present_form(alloc, tower, forms.as_slice(), &e.stamp, op)?;
    let next = tower.apply(alloc, state, &e.stamp, &form)?;
    let mut kept = acted_forms(alloc, tower, forms, &e.stamp, &form)?;
    kept.push(e.stamp, form)?;
    Ok((next, kept))
}

/// The document of operations in canonical order: each one is applied as the concurrent ones of higher levels before it
/// have changed it. `NoMemory` comes where it runs out of memory. The time grows with the square of the number of operations,
/// times the levels.
pub fn document<T: Tower>(alloc: Global, tower: &T, ops: &Ops<T::Op>) -> Result<T::State, NoMemory>
    requires { MakesDocument (T.meaning tower.now) ops.now }
    ensures document { IfOk result (λ s. s ≡ document (T.meaning tower.now) ops.now) }
    ensures state { IfOk result (λ s. IsState (T.meaning tower.now) s) }
{
    let mut state = tower.init(alloc)?;
    let mut forms = Ops::new(alloc);
    let entries = ops.as_slice();
    for e in entries {
        let (next, kept) = apply_next(alloc, tower, state, forms, e)?;
        state = next;
        forms = kept;
    }
    Ok(state)
}
