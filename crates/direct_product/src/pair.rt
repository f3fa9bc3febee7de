ghost use Rattle.std.specs.Prelude.{◌≡◌};

use crdt_laws::{NoMemory, Tower};
use serde_json::Value;
use std::alloc::Global;
use vector_clock::{Clock, Stamp};

/// A state of each of two towers.
#[derive(Debug, PartialEq, Eq, Drop)]
pub struct Both<L, R> {
    pub left: L,
    pub right: R,
}

/// An operation of one side of a pair, of the level that it has there.
#[derive(Debug, PartialEq, Eq, Drop)]
pub enum PairOp<L, R> {
    Left(L),
    Right(R),
}

/// The direct product of two towers: a state of each, and the operations of both. Operations of different sides do not act on
/// each other. It is plain where both sides are, shows an array of the two, and is never sparing, since nothing is promised of
/// the towers' copies.
#[derive(Drop)]
pub struct Pair<A, B> {
    pub left: A,
    pub right: B,
}

impl<A, B> Pair<A, B> {
    /// The towers `left` and `right` side by side.
    pub fn of(left: A, right: B) -> Pair<A, B>
        ensures left { result.left ≡ left }
        ensures right { result.right ≡ right }
    {
        Pair { left, right }
    }
}

impl<A: Tower, B: Tower> Tower for Pair<A, B> {
    ghost use Rattle.direct_product.specs.Pair.{pair_meaning};
    ghost use Rattle.direct_product.specs.PairLaws.{pair_lawful};

    type State = Both<A::State, B::State>;

    type Op = PairOp<A::Op, B::Op>;

    ghost meaning = { λ t. pair_meaning (A.meaning t.left) (B.meaning t.right) };

    fn top(&self) -> u8 {
        self.left.top().max(self.right.top())
    }

    fn level(&self, op: &PairOp<A::Op, B::Op>) -> u8 {
        match op {
            PairOp::Left(x) => self.left.level(x),
            PairOp::Right(x) => self.right.level(x),
        }
    }

    fn valid(&self, stamp: &Stamp, op: &PairOp<A::Op, B::Op>) -> bool {
        match op {
            PairOp::Left(x) => self.left.valid(stamp, x),
            PairOp::Right(x) => self.right.valid(stamp, x),
        }
    }

    fn init(&self, alloc: Global) -> Result<Both<A::State, B::State>, NoMemory> {
        let left = self.left.init(alloc)?;
        let right = self.right.init(alloc)?;
        Ok(Both { left, right })
    }

    fn apply(
        &self,
        alloc: Global,
        state: Both<A::State, B::State>,
        stamp: &Stamp,
        op: &PairOp<A::Op, B::Op>,
    ) -> Result<Both<A::State, B::State>, NoMemory> {
        let Both { left, right } = state;
        match op {
            PairOp::Left(x) => {
                let left = self.left.apply(alloc, left, stamp, x)?;
                Ok(Both { left, right })
            }
            PairOp::Right(x) => {
                let right = self.right.apply(alloc, right, stamp, x)?;
                Ok(Both { left, right })
            }
        }
    }

    fn act(
        &self,
        alloc: Global,
        y: &PairOp<A::Op, B::Op>,
        x: &PairOp<A::Op, B::Op>,
    ) -> Result<PairOp<A::Op, B::Op>, NoMemory> {
        match (y, x) {
            (PairOp::Left(v), PairOp::Left(u)) => Ok(PairOp::Left(self.left.act(alloc, v, u)?)),
            (PairOp::Right(v), PairOp::Right(u)) => Ok(PairOp::Right(self.right.act(alloc, v, u)?)),
            (_, PairOp::Left(u)) => Ok(PairOp::Left(self.left.copy_op(alloc, u)?)),
            (_, PairOp::Right(u)) => Ok(PairOp::Right(self.right.copy_op(alloc, u)?)),
        }
    }

    fn settle(
        &self,
        alloc: Global,
        state: Both<A::State, B::State>,
        k: &Clock,
    ) -> Result<Both<A::State, B::State>, NoMemory> {
        let Both { left, right } = state;
        let left = self.left.settle(alloc, left, k)?;
        let right = self.right.settle(alloc, right, k)?;
        Ok(Both { left, right })
    }

    fn copy_op(
        &self,
        alloc: Global,
        op: &PairOp<A::Op, B::Op>,
    ) -> Result<PairOp<A::Op, B::Op>, NoMemory> {
        match op {
            PairOp::Left(x) => Ok(PairOp::Left(self.left.copy_op(alloc, x)?)),
            PairOp::Right(x) => Ok(PairOp::Right(self.right.copy_op(alloc, x)?)),
        }
    }

    fn same_op(&self, a: &PairOp<A::Op, B::Op>, b: &PairOp<A::Op, B::Op>) -> bool {
        match (a, b) {
            (PairOp::Left(x), PairOp::Left(y)) => self.left.same_op(x, y),
            (PairOp::Right(x), PairOp::Right(y)) => self.right.same_op(x, y),
            _ => false,
        }
    }

    fn copy_state(
        &self,
        alloc: Global,
        state: &Both<A::State, B::State>,
    ) -> Result<Both<A::State, B::State>, NoMemory> {
        let left = self.left.copy_state(alloc, &state.left)?;
        let right = self.right.copy_state(alloc, &state.right)?;
        Ok(Both { left, right })
    }

    fn show(&self, alloc: Global, state: &Both<A::State, B::State>) -> Result<Value, NoMemory> {
        let left = self.left.show(alloc, &state.left)?;
        let right = self.right.show(alloc, &state.right)?;
        let mut parts = Vec::new(alloc);
        parts.push(left)?;
        parts.push(right)?;
        Ok(Value::Array(parts))
    }

    ghost lawful = { λ t. pair_lawful (A.meaning t.left) (A.lawful t.left) (B.meaning t.right) (B.lawful t.right) };
}
