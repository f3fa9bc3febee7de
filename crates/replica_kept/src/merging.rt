ghost use Rattle.std.specs.Prelude.{◌≡◌, IfOk, filter};
ghost use Rattle.std.specs.List.{All};
ghost use Rattle.vector_clock.specs.Clock.{covers};
ghost use Rattle.vector_clock.specs.Stamp.{IsStamp, id_of};
ghost use Rattle.crdt_laws.specs.Interleaved.{interleaved};
ghost use Rattle.crdt_laws.specs.Sets.{IsRising};

use crate::faults::{bad_op, is_forked_by_id, is_forked_by_key, last_of};
use crate::floors::Floors;
use crate::refusal::Refusal;
use crate::replica::{Batch, Replica};
use crate::rows::heard_all;
use crate::weaving::weave_in;
use causal_buffer::{Absorbed, absorb, fresh, places_of};
use crdt_laws::{Entry, NoMemory, Ops, Tower, copy_ops, union};
use history_trim::Known;
use std::alloc::Global;
use std::collections::BTreeMap;
use vector_clock::{Clock, Id};

/// What a merge did.
#[derive(Clone, Copy, Debug, PartialEq, Eq)]
pub struct Merged {
    /// How many operations are in that were not before.
    pub delivered: usize,
    /// How many operations wait after it, those that waited before among them.
    pub waiting: usize,
}

/// The operations that the clock covers, in their order.
fn within<Op: Drop>(ops: Ops<Op>, k: &Clock) -> Ops<Op>
    ensures { result ≡ filter (λ e. covers k.now (id_of e.stamp)) ops }
{
    let Ops { mut items } = ops;
    items.retain(|e| k.covers(e.stamp.id()));
    Ops { items }
}

/// The first list with those operations of the two others that the clock covers, by key.
fn logged<Op: Drop>(
    log: Ops<Op>,
    waiting: Ops<Op>,
    new: Ops<Op>,
    k: &Clock,
) -> Result<Ops<Op>, NoMemory>
    requires log { IsRising log }
    requires waiting { IsRising waiting }
    requires new { IsRising new }
    requires log_stamps { All (λ e. IsStamp e.stamp) log }
    requires waiting_stamps { All (λ e. IsStamp e.stamp) waiting }
    requires new_stamps { All (λ e. IsStamp e.stamp) new }
    ensures { IfOk result (λ r. r ≡ interleaved log (interleaved (filter (λ e. covers k.now (id_of e.stamp)) waiting) (filter (λ e. covers k.now (id_of e.stamp)) new))) }
{
    union(log, union(within(waiting, k), within(new, k))?)
}

impl<T: Tower> Replica<T> {
    ghost use Rattle.std.specs.Prelude.{◌≡◌, ◌+◌, ◌≤◌, ◌<◌, ◌^◌, ◌++◌, IfOk, IfErr, IfSome, IfNone, IsTrue, IsFalse, filter, fold, length};
    ghost use Rattle.std.specs.List.{All};
    ghost use Rattle.vector_clock.specs.Clock.{covers};
    ghost use Rattle.vector_clock.specs.Stamp.{IsStamp, id_of};
    ghost use Rattle.crdt_laws.specs.Interleaved.{interleaved};
    ghost use Rattle.crdt_laws.specs.Sets.{AreFormed, AreIssued, IsRising, beyond};
    ghost use Rattle.weave_core.specs.Deliver.{deliver, trim};
    ghost use Rattle.replica_model.specs.Replica.{meet_all};
    ghost use Rattle.forgetting_model.specs.Ledger.{own_row, raised};
    ghost use Rattle.forgetting_model.specs.Made.{kept_absorbed};
    ghost use Rattle.forgetting_model.specs.Truth.{IsClockOf};
    ghost use Rattle.forgetting_model.specs.Turns.{AreNext, ledger_absorbed};
    ghost use Rattle.causal_buffer.specs.Buffer.{ArePlaces};
    ghost use Rattle.history_trim.specs.Rows.{AreRows, rows_of};
    ghost use Rattle.replica_kept.specs.Held.{IsHeld};
    ghost use Rattle.replica_kept.specs.Merging.{HasNoOther, HasOther, IsBatchOf, IsFaultless, IsFirst, IsMergeCause, MayAbsorb};
    ghost use Rattle.replica_kept.specs.Did.{merged_of};
    ghost use Rattle.replica_kept.specs.Sound.{CoversNone, IsSameMember, IsSound, burden, max_burden, members};
    ghost use Rattle.replica_kept.specs.Steps.{IsGivenBack};

    /// Whether another operation of its id is kept or waits.
    fn is_forked(
        &self,
        tower: &T,
        own: &Clock,
        floor: &Clock,
        places: &BTreeMap<Id, usize>,
        e: &Entry<T::Op>,
    ) -> bool
        requires sound { IsSound (T.meaning tower.now) self.now }
        requires own { own.now ≡ own_row self.now.ledger }
        requires floor { floor.now ≡ meet_all self.now.ledger.known }
        requires places { ArePlaces places.now self.now.ledger.waiting }
        requires stamp { IsStamp e.now.stamp }
        requires form { (T.meaning tower.now).well_formed e.now.op }
        ensures forked { IsTrue result → HasOther (self.now.ledger.log ++ self.now.ledger.waiting) e.now }
        ensures same { IsFalse result → HasNoOther (self.now.ledger.log ++ self.now.ledger.waiting) e.now }
    {
        let id = e.stamp.id();
        if own.covers(id) {
            !floor.covers(id) && is_forked_by_key(tower, self.log.as_slice(), e)
        } else {
            is_forked_by_id(tower, self.waiting.as_slice(), places, e)
        }
    }

    /// The id of the first operation of which another one is kept or waits.
    fn fork(&self, tower: &T, places: &BTreeMap<Id, usize>, ops: &[Entry<T::Op>]) -> Option<Id>
        requires sound { IsSound (T.meaning tower.now) self.now }
        requires places { ArePlaces places.now self.now.ledger.waiting }
        requires stamps { All (λ e. IsStamp e.stamp) ops.now }
        requires formed { AreFormed (T.meaning tower.now) ops.now }
        ensures forked { IfSome result (λ i. IsFirst (HasOther (self.now.ledger.log ++ self.now.ledger.waiting)) ops.now i) }
        ensures same { IfNone result (All (HasNoOther (self.now.ledger.log ++ self.now.ledger.waiting)) ops.now) }
    {
        let own = self.clock();
        let floor = self.floor();
        for e in ops.iter() {
            if self.is_forked(tower, &own, &floor, places, e) {
                return Some(e.stamp.id());
            }
        }
        None
    }

    /// Why the operations of a batch are refused, if they are, but for their number.
    fn fault(
        &self,
        tower: &T,
        places: &BTreeMap<Id, usize>,
        batch: &Batch<T::Op>,
    ) -> Option<Refusal>
        requires sound { IsSound (T.meaning tower.now) self.now }
        requires places { ArePlaces places.now self.now.ledger.waiting }
        requires batch { IsBatchOf (members self.now.ledger) batch.now }
        ensures fault { IfSome result (λ r. IsMergeCause (T.meaning tower.now) self.now.ledger batch.now r) }
        ensures none { IfNone result (IsFaultless (T.meaning tower.now) self.now.ledger batch.now) }
    {
        let ops = batch.ops.as_slice();
        if let Some(id) = bad_op(tower, ops) {
            return Some(Refusal::BadOp { id });
        }
        let me = self.known.me;
        let mine = self.clock().count(me);
        let got = last_of(me, ops);
        if mine < got {
            return Some(Refusal::Rollback { mine, got });
        }
        match self.fork(tower, places, ops) {
            Some(id) => Some(Refusal::Fork { id }),
            None => None,
        }
    }

    /// How many operations would be kept or wait with the later floor, once what is ready is in and the others are left to wait.
    fn burden_with(&self, floors: &Floors, come: &Absorbed<T::Op>) -> usize
        requires kept { length self.now.ledger.log ≤ max_burden }
        requires come { length come.now.ready + length come.now.waiting < 2 ^ 40 }
        requires log { CoversNone floors.now.before self.now.ledger.log }
        requires ready { CoversNone floors.now.before come.now.ready }
        ensures { result ≡ length (beyond floors.now.after self.now.ledger.log) + length (beyond floors.now.after come.now.ready) + length come.now.waiting }
    {
        floors.count(self.log.as_slice()) + floors.count(come.ready.as_slice()) + come.waiting.len()
    }

    /// The replica with these rows, once what is ready is woven in. The operations that are in are those of the log, and of
    /// those that waited and the new ones what the clock covers.
    fn after(
        self,
        alloc: Global,
        tower: &T,
        floors: &Floors,
        known: Known,
        new: Ops<T::Op>,
        come: Absorbed<T::Op>,
    ) -> Result<Replica<T>, NoMemory>
        requires sound { IsSound (T.meaning tower.now) self }
        requires known { AreRows known }
        requires one { known.n ≡ members self.ledger }
        requires before { floors.now.before ≡ meet_all self.ledger.known }
        requires after { floors.now.after ≡ meet_all (rows_of known) }
        requires clock { IsClockOf known.n floors.now.after }
        requires issued { AreIssued (T.meaning tower.now) known.n come.ready }
        requires next { AreNext (own_row self.ledger) come.ready }
        requires rising { IsRising new }
        requires stamps { All (λ e. IsStamp e.stamp) new }
        requires new { CoversNone (own_row self.ledger) new }
        ensures kept { IfOk result (λ r. let log = interleaved self.ledger.log (interleaved (filter (λ e. covers come.clock (id_of e.stamp)) self.ledger.waiting) (filter (λ e. covers come.clock (id_of e.stamp)) new)) in let floor = meet_all (rows_of known) in
            r ≡ record { ledger = record { doc = self.ledger.doc; me = known.me; log = beyond floor log; waiting = come.waiting; known = rows_of known }; woven = trim (T.meaning tower.now) (fold (deliver (T.meaning tower.now)) self.woven come.ready) floor }) }
        ensures held { IfOk result (λ r. IsHeld (T.meaning tower.now) (raised (own_row self.ledger) come.ready) r.woven) }
    {
        let own = self.clock();
        let Replica {
            doc,
            known: _,
            woven,
            log,
            waiting,
        } = self;
        let Absorbed {
            ready,
            waiting: left,
            clock,
        } = come;
        let woven = weave_in(alloc, tower, woven, &own, ready)?;
        let woven = floors.trimmed(alloc, tower, woven)?;
        let log = floors.kept(logged(log, waiting, new, &clock)?);
        Ok(Replica {
            doc,
            known,
            woven,
            log,
            waiting: left,
        })
    }

    /// The replica after a batch that has no fault, or the replica as it was where too many operations would be kept or wait.
    fn take_in(
        self,
        alloc: Global,
        tower: &T,
        places: &BTreeMap<Id, usize>,
        batch: Batch<T::Op>,
    ) -> Result<Result<(Replica<T>, Merged), (Replica<T>, Refusal)>, NoMemory>
        requires sound { IsSound (T.meaning tower.now) self }
        requires places { ArePlaces places.now self.ledger.waiting }
        requires batch { IsBatchOf (members self.ledger) batch }
        requires faultless { IsFaultless (T.meaning tower.now) self.ledger batch }
        ensures absorbed { IfOk result (λ r. IfOk r (λ x. x.0 ≡ kept_absorbed (T.meaning tower.now) self batch)) }
        ensures did { IfOk result (λ r. IfOk r (λ x. x.1 ≡ merged_of self.ledger batch)) }
        ensures same { IfOk result (λ r. IfOk r (λ x. IsSameMember x.0.ledger self.ledger)) }
        ensures sound { IfOk result (λ r. IfOk r (λ x. IsSound (T.meaning tower.now) x.0)) }
        ensures few { IfOk result (λ r. IfOk r (λ x. burden (ledger_absorbed self.ledger batch) ≤ max_burden)) }
        ensures full { IfOk result (λ r. IfErr r (λ e. (e.0 ≡ self) × IsMergeCause (T.meaning tower.now) self.ledger batch e.1)) }
    {
        let Batch {
            doc: _,
            sender,
            header,
            ops,
        } = batch;
        let own = self.clock();
        let new = fresh(alloc, &own, places, ops)?;
        let waiting = copy_ops(alloc, tower, self.waiting.as_slice())?;
        let copies = copy_ops(alloc, tower, new.as_slice())?;
        let come = absorb(alloc, waiting, own, copies)?;
        let known = heard_all(
            self.known,
            sender,
            &header,
            &come.clock,
            come.ready.as_slice(),
        );
        let floors = Floors {
            before: self.floor(),
            after: known.floor(),
        };
        let count = self.burden_with(&floors, &come);
        if count > 50_000 {
            return Ok(Err((self, Refusal::Full { count })));
        }
        let merged = Merged {
            delivered: come.ready.len(),
            waiting: come.waiting.len(),
        };
        let replica = self.after(alloc, tower, &floors, known, new, come)?;
        Ok(Ok((replica, merged)))
    }

    /// The replica after a batch, with what the merge did. Of what waits and what the batch has that is not in, each operation
    /// comes in when all that it knew of is in, and the others wait. Each row has then what the operations of its member tell,
    /// and the sender's row what the header tells too, once all operations of the sender that the header counts are in. What
    /// the floor covers is forgotten.
    ///
    /// Refusals, in this order, each with the replica as it was: `BadOp` where an operation of the batch may not stand at its
    /// stamp, the first by key; `Rollback` where the batch has an operation of the own member that the replica has not made;
    /// `Fork` where another operation of the same id is kept or waits, the first by key; `Full` where more than 50,000
    /// operations would be kept or wait. An operation that the floor covers is no fork, since nothing of it is kept.
    /// `NoMemory` may come besides, and then nothing comes back.
    ///
    /// It takes time in proportion to the batch, what waits and what comes in, with one pass over what is kept where the floor
    /// rises.
    pub fn merge(
        self,
        alloc: Global,
        tower: &T,
        batch: Batch<T::Op>,
    ) -> Result<(Replica<T>, Merged), (Option<Replica<T>>, Refusal)>
        requires sound { IsSound (T.meaning tower.now) self }
        requires batch { IsBatchOf (members self.ledger) batch }
        ensures absorbed { IfOk result (λ x. x.0 ≡ kept_absorbed (T.meaning tower.now) self batch) }
        ensures did { IfOk result (λ x. x.1 ≡ merged_of self.ledger batch) }
        ensures same { IfOk result (λ x. IsSameMember x.0.ledger self.ledger) }
        ensures sound { IfOk result (λ x. IsSound (T.meaning tower.now) x.0) }
        ensures accepted { IfOk result (λ x. MayAbsorb (T.meaning tower.now) self.ledger batch) }
        ensures refused { IfErr result (λ e. IsGivenBack (IsMergeCause (T.meaning tower.now) self.ledger batch) self e.0 e.1) }
    {
        let places = match places_of(alloc, self.waiting.as_slice()) {
            Ok(places) => places,
            Err(NoMemory) => return Err((None, Refusal::NoMemory)),
        };
        if let Some(refusal) = self.fault(tower, &places, &batch) {
            return Err((Some(self), refusal));
        }
        match self.take_in(alloc, tower, &places, batch) {
            Ok(Ok(merged)) => Ok(merged),
            Ok(Err((replica, refusal))) => Err((Some(replica), refusal)),
            Err(NoMemory) => Err((None, Refusal::NoMemory)),
        }
    }
}
