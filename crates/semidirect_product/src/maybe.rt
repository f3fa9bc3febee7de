ghost use Rattle.std.specs.Prelude.{◌≡◌};

use crdt_laws::{NoMemory, Tower, is_within};
use serde_json::Value;
use std::alloc::Global;
use vector_clock::{Clock, Stamp};

/// An operation of a tower, or nothing in the place of one.
#[derive(Debug, PartialEq, Eq, Drop)]
pub enum MaybeOp<Op> {
    /// An operation of the tower.
    Real(Op),
    /// Nothing, of this level: from 1 to the tower's top. It changes neither a state nor an operation, and no operation
    /// changes it.
    Nothing(u8),
}

/// A tower with operations that do nothing beside its own. It is plain where the tower is, and shows what the tower shows. It
/// is never sparing, since nothing is promised of the tower's copies.
#[derive(Drop)]
pub struct Maybe<T> {
    pub part: T,
}

impl<T> Maybe<T> {
    /// The tower `part` with operations that do nothing.
    pub fn of(part: T) -> Maybe<T>
        ensures { result.part ≡ part }
    {
        Maybe { part }
    }
}

impl<T: Tower> Tower for Maybe<T> {
    ghost use Rattle.semidirect_product.specs.Maybe.{maybe_meaning};
    ghost use Rattle.semidirect_product.specs.MaybeLaws.{maybe_lawful};

    type State = T::State;

    type Op = MaybeOp<T::Op>;

    ghost meaning = { λ t. maybe_meaning (T.meaning t.part) };

    fn top(&self) -> u8 {
        self.part.top()
    }

    fn level(&self, op: &MaybeOp<T::Op>) -> u8 {
        match op {
            MaybeOp::Real(x) => self.part.level(x),
            MaybeOp::Nothing(level) => *level,
        }
    }

    fn valid(&self, stamp: &Stamp, op: &MaybeOp<T::Op>) -> bool {
        match op {
            MaybeOp::Real(x) => self.part.valid(stamp, x),
            MaybeOp::Nothing(level) => {
                is_within(stamp) && 1 <= *level && *level <= self.part.top()
            }
        }
    }

    fn init(&self, alloc: Global) -> Result<T::State, NoMemory> {
        self.part.init(alloc)
    }

    fn apply(
        &self,
        alloc: Global,
        state: T::State,
        stamp: &Stamp,
        op: &MaybeOp<T::Op>,
    ) -> Result<T::State, NoMemory> {
        match op {
            MaybeOp::Real(x) => self.part.apply(alloc, state, stamp, x),
            MaybeOp::Nothing(_) => Ok(state),
        }
    }

    fn act(
        &self,
        alloc: Global,
        y: &MaybeOp<T::Op>,
        x: &MaybeOp<T::Op>,
    ) -> Result<MaybeOp<T::Op>, NoMemory> {
        match (y, x) {
            (MaybeOp::Real(v), MaybeOp::Real(u)) => Ok(MaybeOp::Real(self.part.act(alloc, v, u)?)),
            (MaybeOp::Nothing(_), MaybeOp::Real(u)) => {
                Ok(MaybeOp::Real(self.part.copy_op(alloc, u)?))
            }
            (_, MaybeOp::Nothing(level)) => Ok(MaybeOp::Nothing(*level)),
        }
    }

    fn settle(&self, alloc: Global, state: T::State, k: &Clock) -> Result<T::State, NoMemory> {
        self.part.settle(alloc, state, k)
    }

    fn copy_op(&self, alloc: Global, op: &MaybeOp<T::Op>) -> Result<MaybeOp<T::Op>, NoMemory> {
        match op {
            MaybeOp::Real(x) => Ok(MaybeOp::Real(self.part.copy_op(alloc, x)?)),
            MaybeOp::Nothing(level) => Ok(MaybeOp::Nothing(*level)),
        }
    }

    fn same_op(&self, a: &MaybeOp<T::Op>, b: &MaybeOp<T::Op>) -> bool {
        match (a, b) {
            (MaybeOp::Real(x), MaybeOp::Real(y)) => self.part.same_op(x, y),
            (MaybeOp::Nothing(l), MaybeOp::Nothing(k)) => *l == *k,
            _ => false,
        }
    }

    fn copy_state(&self, alloc: Global, state: &T::State) -> Result<T::State, NoMemory> {
        self.part.copy_state(alloc, state)
    }

    fn show(&self, alloc: Global, state: &T::State) -> Result<Value, NoMemory> {
        self.part.show(alloc, state)
    }

    ghost lawful = { λ t. maybe_lawful (T.meaning t.part) (T.lawful t.part) };
}
