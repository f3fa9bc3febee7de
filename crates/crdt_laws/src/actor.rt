ghost use Rattle.std.specs.Prelude.{◌≡◌, ◌↔◌, Bool, IsTrue, IfOk, IsOk};
ghost use Rattle.vector_clock.specs.Stamp.{IsStamp, id_of};
ghost use Rattle.crdt_laws.specs.Tower.{Lacks};
ghost use Rattle.crdt_laws.specs.Actor.{Action, IsLawfulAction, IsActing};

use crate::small::NoMemory;
use crate::tower::Tower;
use std::alloc::Global;
use vector_clock::Stamp;

/// Operations of one further level above a tower: each changes the tower's state, and changes the tower's operations that it
/// acts on. The construction is the semidirect product of op-based CRDTs of Weidner, Miller and Meiklejohn (ICFP 2020).
pub trait Actor<A: Tower> {
    type Op: Drop;

    /// Whether the operations may stand above this tower.
    ghost fits: { Self → A → Bool };

    /// What each of the calls computes over a tower.
    ghost action: { Self → A → Action A.State A.Op Self.Op };

    /// Whether the actor's operations may stand above this tower. The calls that are given a tower need it.
    fn fits(&self, low: &A) -> bool
        ensures { result ≡ fits self.now low.now };

    /// Whether the operation may be issued at this stamp, over whichever tower.
    fn valid(&self, stamp: &Stamp, op: &Self::Op) -> bool
        requires { IsStamp stamp.now }
        ensures { (low : A) → IsTrue result ↔ (action self.now low).valid stamp.now op.now };

    /// The tower's state after an operation of the actor. The state moves in and, with `NoMemory`, is gone.
    fn apply_to(
        &self,
        alloc: Global,
        low: &A,
        state: A::State,
        stamp: &Stamp,
        op: &Self::Op,
    ) -> Result<A::State, NoMemory>
        requires fits { IsTrue (fits self.now low.now) }
        requires good { (A.meaning low.now).good stamp.now.clock.n state }
        requires issued { IsActing (action self.now low.now) stamp.now.clock.n stamp.now op.now }
        requires fresh { Lacks (A.meaning low.now) state (id_of stamp.now) }
        ensures ok { IfOk result (λ s. s ≡ (action self.now low.now).apply state stamp.now op.now) }
        ensures spares { IsTrue (action self.now low.now).sparing → IsOk result };

    /// What the tower's operation `x` becomes when the actor's `y` acts on it.
    fn act_on(&self, alloc: Global, low: &A, y: &Self::Op, x: &A::Op) -> Result<A::Op, NoMemory>
        requires fits { IsTrue (fits self.now low.now) }
        requires acting { (action self.now low.now).well_formed y.now }
        requires acted { (A.meaning low.now).well_formed x.now }
        ensures ok { IfOk result (λ o. o ≡ (action self.now low.now).act y.now x.now) }
        ensures spares { IsTrue (action self.now low.now).sparing → IsOk result };

    /// A copy of an operation of the actor.
    fn copy(&self, alloc: Global, op: &Self::Op) -> Result<Self::Op, NoMemory>
        ensures ok { IfOk result (λ o. o ≡ op.now) }
        ensures spares { (low : A) → IsTrue (action self.now low).sparing → IsOk result };

    /// Whether two operations of the actor are equal.
    fn same(&self, a: &Self::Op, b: &Self::Op) -> bool
        ensures { IsTrue result ↔ (a.now ≡ b.now) };

    ghost lawful: { (b : Self) (low : A) → IsTrue (fits b low) → IsLawfulAction (A.meaning low) (action b low) };
}

/// Every actor is lawful over each tower that it fits.
pub fn acts_lawfully<A: Tower, B: Actor<A>>(actor: &B, low: &A)
    requires { IsTrue (B.fits actor.now low.now) }
    ensures { IsLawfulAction (A.meaning low.now) (B.action actor.now low.now) }
{}
