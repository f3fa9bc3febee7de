ghost use Rattle.std.specs.Prelude.{◌≡◌, ◌++◌, ◌≤◌, ℕ, IfOk, IsTrue, not};
ghost use Rattle.std.specs.List.{All, Contains, filter};
ghost use Rattle.vector_clock.specs.Clock.{IsClock, max_members};
ghost use Rattle.crdt_laws.specs.declared.small.Entry.{Entry};
ghost use Rattle.crdt_laws.specs.Sets.{IsHonest, union};
ghost use Rattle.replica_model.specs.Replica.{ready, unready};
ghost use Rattle.replica_core.specs.Frontier.{frontier, is_at_most};
ghost use Rattle.replica_core.specs.Kept.{IsKnown};
ghost use Rattle.replica_core.specs.Rows.{AreByKey, IsFrom};

use crdt_laws::{Entry, NoMemory, Ops, union};
use std::alloc::Global;
use vector_clock::Clock;

/// For each member, how many of its operations there are without a gap. All are given by key, so those of an honest member
/// stand by their numbers.
fn frontier<Op>(n: u8, ops: &[Entry<Op>]) -> Clock
    requires some { 1 ≤ n }
    requires most { n ≤ max_members }
    requires ops { All (IsFrom n) ops.now }
    ensures frontier { result ≡ frontier n ops.now }
    ensures known { IsKnown n result }
{
    let mut front = Clock::zero(n);
    for e in ops.iter() {
        let id = e.stamp.id();
        if id.seq == front.count(id.member) + 1 {
            front.at[usize::from(id.member)] = id.seq;
        }
    }
    front
}

/// Whether the operation knows only of operations before the frontier.
fn is_ready<Op>(e: &Entry<Op>, front: &Clock) -> bool
    requires entry { IsFrom front.now.n e.now }
    requires front { IsClock front.now }
    ensures { result ≡ is_at_most e.now.stamp.clock front.now }
{
    e.stamp.clock.le(front)
}

/// Whether all know only of operations before the frontier.
fn are_ready<Op>(ops: &[Entry<Op>], front: &Clock) -> bool
    requires ops { All (IsFrom front.now.n) ops.now }
    requires front { IsClock front.now }
    ensures { IsTrue result → All (λ e. IsTrue (is_at_most e.stamp.clock front.now)) ops.now }
{
    for e in ops {
        if !is_ready(e, front) {
            return false;
        }
    }
    true
}

/// The operations that know only of operations before the frontier, and the others, one by one.
fn sort_out<Op: Drop>(
    alloc: Global,
    ops: Ops<Op>,
    front: &Clock,
) -> Result<(Ops<Op>, Ops<Op>), NoMemory>
    requires ops { All (IsFrom front.now.n) ops }
    requires front { IsClock front.now }
    ensures ready { IfOk result (λ x. x.0 ≡ filter (λ e. is_at_most e.stamp.clock front.now) ops) }
    ensures unready { IfOk result (λ x. x.1 ≡ filter (λ e. not (is_at_most e.stamp.clock front.now)) ops) }
{
    let mut ready = Ops::new(alloc);
    let mut unready = Ops::new(alloc);
    let Ops { items } = ops;
    for e in items {
        if is_ready(&e, front) {
            ready.push(e.stamp, e.op)?;
        } else {
            unready.push(e.stamp, e.op)?;
        }
    }
    Ok((ready, unready))
}

/// The operations that know only of operations before the frontier, and the others. Where there are no others nothing is moved.
fn split<Op: Drop>(
    alloc: Global,
    ops: Ops<Op>,
    front: &Clock,
) -> Result<(Ops<Op>, Ops<Op>), NoMemory>
    requires ops { All (IsFrom front.now.n) ops }
    requires front { IsClock front.now }
    ensures ready { IfOk result (λ x. x.0 ≡ filter (λ e. is_at_most e.stamp.clock front.now) ops) }
    ensures unready { IfOk result (λ x. x.1 ≡ filter (λ e. not (is_at_most e.stamp.clock front.now)) ops) }
{
    if are_ready(ops.as_slice(), front) {
        Ok((ops, Ops::new(alloc)))
    } else {
        sort_out(alloc, ops, front)
    }
}

/// All operations once others have arrived: those that know only of operations among them, and the others. It takes one
/// pass for each two lists that it joins, one for the frontier, and one that sets what is ready apart.
pub(crate) fn sift<Op: Drop>(
    alloc: Global,
    n: u8,
    delivered: Ops<Op>,
    waiting: Ops<Op>,
    arrived: Ops<Op>,
) -> Result<(Ops<Op>, Ops<Op>), NoMemory>
    requires some { 1 ≤ n }
    requires most { n ≤ max_members }
    requires delivered { AreByKey n delivered }
    requires waiting { AreByKey n waiting }
    requires arrived { AreByKey n arrived }
    ensures sifted { IfOk result (λ x. IsHonest ((delivered ++ waiting) ++ arrived) → let all = union (union delivered waiting) arrived in (x.0 ≡ ready all) × (x.1 ≡ unready all)) }
    ensures by_key { IfOk result (λ x. AreByKey n x.0 × AreByKey n x.1) }
    ensures ready_from { IfOk result (λ x. (e : Entry Op) → Contains x.0 e → Contains ((delivered ++ waiting) ++ arrived) e) }
    ensures unready_from { IfOk result (λ x. (e : Entry Op) → Contains x.1 e → Contains ((delivered ++ waiting) ++ arrived) e) }
{
    let own = union(delivered, waiting)?;
    let all = union(own, arrived)?;
    let front = frontier(n, all.as_slice());
    split(alloc, all, &front)
}
