ghost use Rattle.std.specs.Prelude.{◌≡◌, ◌+◌, ◌<◌, ◌≤◌, ◌++◌, ◌∷◌, [], ◌⊎◌, IfOk, List, OnOk, drop, length, take};
ghost use Rattle.std.specs.List.{All, Contains};
ghost use Rattle.std.specs.VecDeque.{deque_len};
ghost use Rattle.vector_clock.specs.Stamp.{IsStamp};
ghost use Rattle.crdt_laws.specs.declared.small.Entry.{Entry};
ghost use Rattle.crdt_laws.specs.Interleaved.{interleaved};
ghost use Rattle.crdt_laws.specs.Sets.{IsHonest, IsRising, union};

use crate::small::{Entry, NoMemory, Ops};
use std::collections::VecDeque;
use vector_clock::place_of;

/// Moves the first entry, where there is one, to the end of the list.
fn move_front<Op: Drop>(from: &mut VecDeque<Entry<Op>>, to: &mut Ops<Op>) -> Result<(), NoMemory>
    ensures moved { (e : Entry Op) (rest : List (Entry Op)) → from.old.items ≡ e ∷ rest → OnOk result (to.new ≡ to.old ++ e ∷ []) }
    ensures rest { from.new.items ≡ drop 1 from.old.items }
    ensures fewer { 0 < deque_len from.old → deque_len from.new < deque_len from.old }
{
    match from.pop_front() {
        Some(e) => to.push(e.stamp, e.op),
        None => Ok(()),
    }
}

/// Moves the first entry of the lesser key to the end of the list. Where both keys are equal the first one moves, and the
/// second one goes.
fn move_next<Op: Drop>(
    left: &mut VecDeque<Entry<Op>>,
    right: &mut VecDeque<Entry<Op>>,
    joined: &mut Ops<Op>,
) -> Result<(), NoMemory>
    requires left_some { 0 < deque_len left.old }
    requires right_some { 0 < deque_len right.old }
    requires left { All (λ e. IsStamp e.stamp) left.old.items }
    requires right { All (λ e. IsStamp e.stamp) right.old.items }
    ensures step { OnOk result (joined.new ++ interleaved left.new.items right.new.items ≡ joined.old ++ interleaved left.old.items right.old.items) }
    ensures fewer { OnOk result (deque_len left.new + deque_len right.new < deque_len left.old + deque_len right.old) }
    ensures left { All (λ e. IsStamp e.stamp) left.new.items }
    ensures right { All (λ e. IsStamp e.stamp) right.new.items }
{
    let (Some(x), Some(y)) = (left.front(), right.front()) else {
        return Ok(());
    };
    if x.stamp.below(&y.stamp) {
        move_front(left, joined)
    } else if y.stamp.below(&x.stamp) {
        move_front(right, joined)
    } else {
        right.pop_front();
        move_front(left, joined)
    }
}

/// Moves all entries to the end of the list.
fn move_all<Op: Drop>(from: VecDeque<Entry<Op>>, to: &mut Ops<Op>) -> Result<(), NoMemory>
    ensures { OnOk result (to.new ≡ to.old ++ from.items) }
{
    for e in from {
        to.push(e.stamp, e.op)?;
    }
    Ok(())
}

/// A place in the first list before which all entries stand before those of the second one.
fn tail_place<Op>(xs: &[Entry<Op>], ys: &[Entry<Op>]) -> usize
    requires left_rises { IsRising xs.now }
    requires left_stamps { All (λ e. IsStamp e.stamp) xs.now }
    requires right_stamps { All (λ e. IsStamp e.stamp) ys.now }
    ensures within { result ≤ length xs.now }
    ensures same { take result xs.now ++ interleaved (drop result xs.now) ys.now ≡ interleaved xs.now ys.now }
{
    match ys.first() {
        Some(y) => place_of(xs, &y.stamp).saturating_sub(1),
        None => xs.len(),
    }
}

/// The first list in two parts, of which the first one stands before all of the second list.
fn split_off_tail<Op: Drop>(xs: Ops<Op>, ys: &Ops<Op>) -> Result<(Ops<Op>, Ops<Op>), NoMemory>
    requires left_rises { IsRising xs }
    requires left_stamps { All (λ e. IsStamp e.stamp) xs }
    requires right_stamps { All (λ e. IsStamp e.stamp) ys.now }
    ensures same { IfOk result (λ p. p.0 ++ interleaved p.1 ys.now ≡ interleaved xs ys.now) }
    ensures stamps { IfOk result (λ p. All (λ e. IsStamp e.stamp) p.1) }
{
    let at = tail_place(xs.as_slice(), ys.as_slice());
    let Ops { items: mut front } = xs;
    let tail = front.split_off(at)?;
    Ok((Ops { items: front }, Ops { items: tail }))
}

/// The union of two sets of operations, by rising key. Each set is given by rising key. Where both hold one operation it
/// stands once. `NoMemory` comes where it runs out of memory. It takes one pass over the second set and over what stands in the
/// first one from the beginning of the second on.
pub fn union<Op: Drop>(xs: Ops<Op>, ys: Ops<Op>) -> Result<Ops<Op>, NoMemory>
    requires left_rises { IsRising xs }
    requires right_rises { IsRising ys }
    requires left_stamps { All (λ e. IsStamp e.stamp) xs }
    requires right_stamps { All (λ e. IsStamp e.stamp) ys }
    ensures interleaved { IfOk result (λ r. r ≡ interleaved xs ys) }
    ensures joined { IfOk result (λ r. IsHonest (xs ++ ys) → r ≡ union xs ys) }
    ensures rises { IfOk result (λ r. IsRising r) }
    ensures from { IfOk result (λ r. (e : Entry Op) → Contains r e → Contains xs e ⊎ Contains ys e) }
    ensures stamps { IfOk result (λ r. All (λ e. IsStamp e.stamp) r) }
{
    let (mut joined, tail) = split_off_tail(xs, &ys)?;
    let mut left = VecDeque::from(tail.items);
    let mut right = VecDeque::from(ys.items);
    while !left.is_empty() && !right.is_empty() {
        move_next(&mut left, &mut right, &mut joined)?;
    }
    move_all(left, &mut joined)?;
    move_all(right, &mut joined)?;
    Ok(joined)
}
