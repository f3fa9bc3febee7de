ghost use Rattle.std.specs.Prelude.{◌≡◌, ◌≤◌, ◌↔◌, IfOk, IsTrue, length};
ghost use Rattle.vector_clock.specs.Clock.{IsClock};
ghost use Rattle.crdt_laws.specs.Sets.{beyond};
ghost use Rattle.weave_core.specs.Deliver.{IsWell, trim};
ghost use Rattle.replica_kept.specs.Sound.{CoversNone};

use crdt_laws::{Entry, NoMemory, Ops, Tower, beyond};
use std::alloc::Global;
use vector_clock::Clock;
use weave_core::Woven;

/// How many operations the clock does not cover.
fn count_beyond<Op>(known: &Clock, ops: &[Entry<Op>]) -> usize
    ensures counted { result ≡ length (beyond known.now ops.now) }
    ensures within { result ≤ length ops.now }
{
    let mut count = 0;
    for e in ops.iter() {
        if !known.covers(e.stamp.id()) {
            count += 1;
        }
    }
    count
}

/// The floor before a step and after it. Where it stays, no operation and no form is looked at.
#[derive(Drop)]
pub(crate) struct Floors {
    pub(crate) before: Clock,
    pub(crate) after: Clock,
}

impl Floors {
    /// Whether the floor stays.
    fn stay(&self) -> bool
        ensures { IsTrue result ↔ (self.now.before ≡ self.now.after) }
    {
        self.before == self.after
    }

    /// How many of the operations stay kept.
    pub(crate) fn count<Op>(&self, ops: &[Entry<Op>]) -> usize
        requires { CoversNone self.now.before ops.now }
        ensures counted { result ≡ length (beyond self.now.after ops.now) }
        ensures within { result ≤ length ops.now }
    {
        if self.stay() {
            ops.len()
        } else {
            count_beyond(&self.after, ops)
        }
    }

    /// The operations that stay kept.
    pub(crate) fn kept<Op: Drop>(&self, ops: Ops<Op>) -> Ops<Op>
        requires { CoversNone self.now.before ops }
        ensures { result ≡ beyond self.now.after ops }
    {
        if self.stay() {
            ops
        } else {
            beyond(ops, &self.after)
        }
    }

    /// The state settled, with the forms that stay kept.
    pub(crate) fn trimmed<T: Tower>(
        &self,
        alloc: Global,
        tower: &T,
        woven: Woven<T>,
    ) -> Result<Woven<T>, NoMemory>
        requires clock { IsClock self.now.after }
        requires well { IsWell (T.meaning tower.now) self.now.after.n woven }
        requires unstable { CoversNone self.now.before woven.history }
        ensures { IfOk result (λ w. w ≡ trim (T.meaning tower.now) woven self.now.after) }
    {
        if !self.stay() {
            return woven.trim(alloc, tower, &self.after);
        }
        let Woven { state, history } = woven;
        let state = tower.settle(alloc, state, &self.after)?;
        Ok(Woven { state, history })
    }
}
