ghost use Rattle.std.specs.Prelude.{◌≡◌};
ghost use Rattle.vector_clock.specs.Clock.{max_members};

use crate::pool::sift;
use crate::rows::{floor, row, rows_after, with_row};
use crdt_laws::{List, NoMemory, Ops, Tower, Txt, copy_beyond};
use std::alloc::Global;
use std::marker::Model;
use vector_clock::{Clock, Stamp};

/// A replica of a document over a tower. An edit, an export and a merge keep what `IsKept` says, whoever made the operations.
#[derive(Drop)]
pub struct Replica<T: Tower> {
    /// The text of the document's schema.
    pub doc: Txt,
    /// The member whose replica this is.
    pub me: u8,
    /// The operations that are in, by key.
    pub delivered: Ops<T::Op>,
    /// The operations that wait for others which they knew of, by key.
    pub waiting: Ops<T::Op>,
    /// For each member of the document, what it is known to have: of the own member, all that is in.
    pub known: List<Clock>,
}

impl<T: Tower> Model for Replica<T> {
    ghost use Rattle.replica_model.specs.Replica.{Replica};

    ghost Value = { Replica T.Op };

    ghost view = { λ r. record { doc = r.doc; me = r.me; delivered = r.delivered; waiting = r.waiting; known = r.known } };
}

impl<T: Tower> Replica<T> {
    ghost use Rattle.std.specs.Prelude.{◌≡◌, ℕ, ◌+◌, ◌-◌, ◌<◌, ◌≤◌, ◌++◌, length, IfOk, IfSome};
    ghost use Rattle.std.specs.List.{All};
    ghost use Rattle.vector_clock.specs.Clock.{max_seq};
    ghost use Rattle.crdt_laws.specs.Tower.{IsStampOf, IsWithin};
    ghost use Rattle.crdt_laws.specs.Sets.{IsHonest};
    ghost use Rattle.replica_model.specs.Replica.{edited, exported, members, merged, new_replica, next_stamp, row, version};
    ghost use Rattle.replica_core.specs.Kept.{IsBatchUpTo, IsKept, IsKeptBatch, IsKnown, IsReplicaUpTo};

    /// A replica that has nothing, of the member `me` in a document with `n` members.
    ///
    /// `NoMemory` comes where it runs out of memory.
    #[tactic(auto, unfolding(replica_model::specs::Replica::new_replica))]
    pub fn new(alloc: Global, doc: Txt, me: u8, n: u8) -> Result<Replica<T>, NoMemory>
        requires member { me < n }
        requires most { n ≤ max_members }
        ensures new { IfOk result (λ r. r ≡ new_replica doc me n) }
        ensures kept { (t : T) → IfOk result (λ r. IsKept (T.meaning t) r) }
        ensures up_to { IfOk result (λ r. IsReplicaUpTo 0 r) }
    {
        let mut known = List::new(alloc);
        for _i in 0..n {
            known.push(Clock::zero(n))?;
        }
        Ok(Replica {
            doc,
            me,
            delivered: Ops::new(alloc),
            waiting: Ops::new(alloc),
            known,
        })
    }

    /// The stamp of the member's next operation: its own row, with one operation of its own more. It takes constant time.
    pub fn next_stamp(&self) -> Stamp
        requires member { self.now.me < members self.now }
        requires rows { All (IsKnown (members self.now)) self.now.known }
        requires own { row self.now.known self.now.me ≡ version (members self.now) self.now.delivered }
        ensures next { result ≡ next_stamp self.now }
        ensures stamp { IsStampOf (members self.now) result }
        ensures within { (k : ℕ) → k < max_seq → IsReplicaUpTo k self.now → IsWithin result }
    {
        let own = row(&self.known, self.me);
        Stamp {
            member: self.me,
            clock: own.with(self.me, own.count(self.me) + 1),
        }
    }

    /// The replica after an operation of its own member, which the tower calls valid at the next stamp. Its key is the
    /// greatest, since its stamp knows of all that is in, so it stands last.
    ///
    /// `NoMemory` comes where it runs out of memory; the replica is then gone.
    pub fn edit(self, alloc: Global, tower: &T, op: T::Op) -> Result<Replica<T>, NoMemory>
        requires kept { IsKept (T.meaning tower.now) self }
        requires valid { (T.meaning tower.now).valid (next_stamp self) op }
        ensures edited { IfOk result (λ r. r ≡ edited self op) }
        ensures kept { IfOk result (λ r. IsKept (T.meaning tower.now) r) }
        ensures up_to { (k : ℕ) → IsReplicaUpTo k self → IfOk result (λ r. IsReplicaUpTo (k + 1) r) }
    {
        let stamp = self.next_stamp();
        let Replica {
            doc,
            me,
            mut delivered,
            waiting,
            known,
        } = self;
        delivered.push(stamp, op)?;
        Ok(Replica {
            doc,
            me,
            delivered,
            waiting,
            known: with_row(known, me, stamp.clock),
        })
    }

    /// A batch for one member: the operations that are in, but for those that it is known to have. Where no member is given,
    /// but for those that all members are known to have.
    ///
    /// `NoMemory` comes where it runs out of memory.
    pub fn export(&self, alloc: Global, tower: &T, to: Option<u8>) -> Result<Batch<T::Op>, NoMemory>
        requires kept { IsKept (T.meaning tower.now) self.now }
        requires to { IfSome to (λ j. j < members self.now) }
        ensures exported { IfOk result (λ b. b ≡ exported self.now to) }
        ensures kept { IfOk result (λ b. IsKeptBatch (T.meaning tower.now) (members self.now) b) }
        ensures up_to { (k : ℕ) → IsReplicaUpTo k self.now → IfOk result (λ b. IsBatchUpTo k b) }
    {
        let known = match to {
            Some(member) => row(&self.known, member),
            None => floor(&self.known),
        };
        Ok(Batch {
            doc: self.doc.copy(alloc)?,
            sender: self.me,
            header: row(&self.known, self.me),
            ops: copy_beyond(alloc, tower, &known, self.delivered.as_slice())?,
        })
    }

    /// The replica after a batch, with what the merge did. An operation that the replica has already stands once, and one
    /// that knows of an operation which is not there waits. Each row is joined with the clocks of its member's operations, and
    /// the sender's row with the header too, once all operations of the sender that the header counts are in.
    ///
    /// `NoMemory` comes where it runs out of memory; the replica and the batch are then gone.
    pub fn merge(
        self,
        alloc: Global,
        tower: &T,
        batch: Batch<T::Op>,
    ) -> Result<(Replica<T>, Merged), NoMemory>
        requires kept { IsKept (T.meaning tower.now) self }
        requires batch { IsKeptBatch (T.meaning tower.now) (members self) batch }
        ensures merged { IfOk result (λ x. IsHonest ((self.delivered ++ self.waiting) ++ batch.ops) → x.0 ≡ merged self batch) }
        ensures delivered { IfOk result (λ x. x.1.delivered ≡ length x.0.delivered - length self.delivered) }
        ensures waiting { IfOk result (λ x. x.1.waiting ≡ length x.0.waiting) }
        ensures same { IfOk result (λ x. (x.0.doc ≡ self.doc) × (x.0.me ≡ self.me) × (members x.0 ≡ members self)) }
        ensures kept { IfOk result (λ x. IsKept (T.meaning tower.now) x.0) }
        ensures up_to { (k : ℕ) → IsReplicaUpTo k self → IsBatchUpTo k batch → IfOk result (λ x. IsReplicaUpTo k x.0) }
    {
        let Replica {
            doc,
            me,
            delivered,
            waiting,
            known,
        } = self;
        let Batch {
            doc: _,
            sender,
            header,
            ops,
        } = batch;
        let before = delivered.len();
        let (delivered, waiting) = sift(alloc, known.len() as u8, delivered, waiting, ops)?;
        let did = Merged {
            delivered: delivered.len().saturating_sub(before),
            waiting: waiting.len(),
        };
        let known = rows_after(known, me, sender, &header, delivered.as_slice());
        let replica = Replica {
            doc,
            me,
            delivered,
            waiting,
            known,
        };
        Ok((replica, did))
    }
}

/// Operations on their way from one member to others.
#[derive(Drop)]
pub struct Batch<Op> {
    /// The text of the document's schema.
    pub doc: Txt,
    /// The member that sent the batch.
    pub sender: u8,
    /// What the sender had.
    pub header: Clock,
    /// Operations of any members that the sender had, by key.
    pub ops: Ops<Op>,
}

impl<Op> Model for Batch<Op> {
    ghost use Rattle.replica_model.specs.Replica.{Batch};

    ghost Value = { Batch Op };

    ghost view = { λ b. record { doc = b.doc; sender = b.sender; header = b.header; ops = b.ops } };
}

/// What a merge did.
#[derive(Clone, Copy, Debug, PartialEq, Eq)]
pub struct Merged {
    /// How many operations are in that were not before.
    pub delivered: usize,
    /// How many operations wait after it, those that waited before among them.
    pub waiting: usize,
}
