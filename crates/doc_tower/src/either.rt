use crdt_laws::{NoMemory, Tower};
use serde_json::Value;
use std::alloc::Global;
use vector_clock::{Clock, Stamp};

/// One of two: a left one or a right one. A tower that is one of two has the states and operations of either, of which those of
/// the other arm are none of its own: such a state is not good, and such an operation is not valid at any stamp and has the level
/// 1. It has the levels of the tower that it holds, is as sparing and as plain as that, and shows what that shows.
#[derive(Debug, PartialEq, Eq, Drop)]
pub enum Either<L, R> {
    Left(L),
    Right(R),
}

use Either::{Left, Right};

impl<A: Tower, B: Tower> Tower for Either<A, B> {
    ghost use Rattle.doc_tower.specs.Either.{either_meaning};
    ghost use Rattle.doc_tower.specs.EitherLaws.{either_lawful};

    type State = Either<A::State, B::State>;

    type Op = Either<A::Op, B::Op>;

    ghost meaning = { either_meaning A.meaning B.meaning };

    fn top(&self) -> u8 {
        match self {
            Left(tower) => tower.top(),
            Right(tower) => tower.top(),
        }
    }

    fn level(&self, op: &Either<A::Op, B::Op>) -> u8 {
        match (self, op) {
            (Left(tower), Left(x)) => tower.level(x),
            (Right(tower), Right(x)) => tower.level(x),
            _ => 1,
        }
    }

    fn valid(&self, stamp: &Stamp, op: &Either<A::Op, B::Op>) -> bool {
        match (self, op) {
            (Left(tower), Left(x)) => tower.valid(stamp, x),
            (Right(tower), Right(x)) => tower.valid(stamp, x),
            _ => false,
        }
    }

    fn init(&self, alloc: Global) -> Result<Either<A::State, B::State>, NoMemory> {
        match self {
            Left(tower) => Ok(Left(tower.init(alloc)?)),
            Right(tower) => Ok(Right(tower.init(alloc)?)),
        }
    }

    fn apply(
        &self,
        alloc: Global,
        state: Either<A::State, B::State>,
        stamp: &Stamp,
        op: &Either<A::Op, B::Op>,
    ) -> Result<Either<A::State, B::State>, NoMemory> {
        match (self, state, op) {
            (Left(tower), Left(state), Left(x)) => Ok(Left(tower.apply(alloc, state, stamp, x)?)),
            (Right(tower), Right(state), Right(x)) => {
                Ok(Right(tower.apply(alloc, state, stamp, x)?))
            }
            (_, state, _) => Ok(state),
        }
    }

    fn act(
        &self,
        alloc: Global,
        y: &Either<A::Op, B::Op>,
        x: &Either<A::Op, B::Op>,
    ) -> Result<Either<A::Op, B::Op>, NoMemory> {
        match (self, y, x) {
            (Left(tower), Left(y), Left(x)) => Ok(Left(tower.act(alloc, y, x)?)),
            (Right(tower), Right(y), Right(x)) => Ok(Right(tower.act(alloc, y, x)?)),
            _ => unreachable!("both are operations of the tower"),
        }
    }

    fn settle(
        &self,
        alloc: Global,
        state: Either<A::State, B::State>,
        k: &Clock,
    ) -> Result<Either<A::State, B::State>, NoMemory> {
        match (self, state) {
            (Left(tower), Left(state)) => Ok(Left(tower.settle(alloc, state, k)?)),
            (Right(tower), Right(state)) => Ok(Right(tower.settle(alloc, state, k)?)),
            (_, state) => Ok(state),
        }
    }

    fn copy_op(
        &self,
        alloc: Global,
        op: &Either<A::Op, B::Op>,
    ) -> Result<Either<A::Op, B::Op>, NoMemory> {
        match (self, op) {
            (Left(tower), Left(x)) => Ok(Left(tower.copy_op(alloc, x)?)),
            (Right(tower), Right(x)) => Ok(Right(tower.copy_op(alloc, x)?)),
            _ => unreachable!("it is an operation of the tower"),
        }
    }

    fn same_op(&self, a: &Either<A::Op, B::Op>, b: &Either<A::Op, B::Op>) -> bool {
        match (self, a, b) {
            (Left(tower), Left(x), Left(y)) => tower.same_op(x, y),
            (Right(tower), Right(x), Right(y)) => tower.same_op(x, y),
            _ => unreachable!("both are operations of the tower"),
        }
    }

    fn copy_state(
        &self,
        alloc: Global,
        state: &Either<A::State, B::State>,
    ) -> Result<Either<A::State, B::State>, NoMemory> {
        match (self, state) {
            (Left(tower), Left(state)) => Ok(Left(tower.copy_state(alloc, state)?)),
            (Right(tower), Right(state)) => Ok(Right(tower.copy_state(alloc, state)?)),
            _ => unreachable!("it is a state of the tower"),
        }
    }

    fn show(&self, alloc: Global, state: &Either<A::State, B::State>) -> Result<Value, NoMemory> {
        match (self, state) {
            (Left(tower), Left(state)) => tower.show(alloc, state),
            (Right(tower), Right(state)) => tower.show(alloc, state),
            _ => unreachable!("it is a state of the tower"),
        }
    }

    ghost lawful = { either_lawful A.meaning A.lawful B.meaning B.lawful };
}
