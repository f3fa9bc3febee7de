ghost use Rattle.std.specs.Prelude.{◌≡◌, ◌↔◌, IfNone, IfSome, IsFalse, IsTrue};
ghost use Rattle.std.specs.List.{All, Contains};
ghost use Rattle.vector_clock.specs.Stamp.{IsStamp};
ghost use Rattle.crdt_laws.specs.Sets.{AreApart, AreFormed, IsRising};
ghost use Rattle.causal_buffer.specs.Buffer.{ArePlaces};
ghost use Rattle.replica_kept.specs.Merging.{HasNoOther, HasOther, IsFirst, last_of};

use crdt_laws::{Entry, Tower};
use std::collections::BTreeMap;
use vector_clock::{Id, place_of};

/// The id of the first operation that may not stand at its stamp.
pub(crate) fn bad_op<T: Tower>(tower: &T, ops: &[Entry<T::Op>]) -> Option<Id>
    requires { All (λ e. IsStamp e.stamp) ops.now }
    ensures bad { IfSome result (λ i. IsFirst (λ e. (T.meaning tower.now).valid e.stamp e.op → ⊥) ops.now i) }
    ensures good { IfNone result (All (λ e. (T.meaning tower.now).valid e.stamp e.op) ops.now) }
{
    for e in ops.iter() {
        if !tower.valid(&e.stamp, &e.op) {
            return Some(e.stamp.id());
        }
    }
    None
}

/// The greatest number of an operation of the member, and 0 where there is none.
pub(crate) fn last_of<Op>(member: u8, ops: &[Entry<Op>]) -> u32
    ensures { result ≡ last_of member ops.now }
{
    let mut last = 0;
    for e in ops.iter() {
        let id = e.stamp.id();
        if id.member == member {
            last = last.max(id.seq);
        }
    }
    last
}

/// Whether the two are one operation: one stamp and one body.
fn is_same<T: Tower>(tower: &T, a: &Entry<T::Op>, b: &Entry<T::Op>) -> bool
    requires left { (T.meaning tower.now).well_formed a.now.op }
    requires right { (T.meaning tower.now).well_formed b.now.op }
    ensures { IsTrue result ↔ (a.now ≡ b.now) }
{
    a.stamp == b.stamp && tower.same_op(&a.op, &b.op)
}

/// Whether the operation is found in the list by its key.
fn is_found<T: Tower>(tower: &T, entries: &[Entry<T::Op>], e: &Entry<T::Op>) -> bool
    requires stamp { IsStamp e.now.stamp }
    requires stamps { All (λ f. IsStamp f.stamp) entries.now }
    requires rising { IsRising entries.now }
    requires form { (T.meaning tower.now).well_formed e.now.op }
    requires forms { AreFormed (T.meaning tower.now) entries.now }
    ensures { IsTrue result → Contains entries.now e.now }
{
    let at = place_of(entries, &e.stamp);
    at > 0 && is_same(tower, &entries[at - 1], e)
}

/// Whether another operation of its id is in the list.
fn has_other<T: Tower>(tower: &T, entries: &[Entry<T::Op>], e: &Entry<T::Op>) -> bool
    requires form { (T.meaning tower.now).well_formed e.now.op }
    requires forms { AreFormed (T.meaning tower.now) entries.now }
    ensures forked { IsTrue result → HasOther entries.now e.now }
    ensures same { IsFalse result → HasNoOther entries.now e.now }
{
    for f in entries.iter() {
        if f.stamp.id() == e.stamp.id() && !is_same(tower, f, e) {
            return true;
        }
    }
    false
}

/// Whether another operation of its id is in the list. An operation that is there itself is found by its key, and then there is
/// no other one.
pub(crate) fn is_forked_by_key<T: Tower>(
    tower: &T,
    entries: &[Entry<T::Op>],
    e: &Entry<T::Op>,
) -> bool
    requires stamp { IsStamp e.now.stamp }
    requires stamps { All (λ f. IsStamp f.stamp) entries.now }
    requires rising { IsRising entries.now }
    requires apart { AreApart entries.now }
    requires form { (T.meaning tower.now).well_formed e.now.op }
    requires forms { AreFormed (T.meaning tower.now) entries.now }
    ensures forked { IsTrue result → HasOther entries.now e.now }
    ensures same { IsFalse result → HasNoOther entries.now e.now }
{
    !is_found(tower, entries, e) && has_other(tower, entries, e)
}

/// Whether another operation of its id is in the list, where each id has its place.
pub(crate) fn is_forked_by_id<T: Tower>(
    tower: &T,
    entries: &[Entry<T::Op>],
    places: &BTreeMap<Id, usize>,
    e: &Entry<T::Op>,
) -> bool
    requires places { ArePlaces places.now entries.now }
    requires form { (T.meaning tower.now).well_formed e.now.op }
    requires forms { AreFormed (T.meaning tower.now) entries.now }
    ensures forked { IsTrue result → HasOther entries.now e.now }
    ensures same { IsFalse result → HasNoOther entries.now e.now }
{
    match places.get(&e.stamp.id()) {
        Some(at) => *at < entries.len() && !is_same(tower, &entries[*at], e),
        None => false,
    }
}
