use Either::{Left, Right};
use crdt_laws::{NoMemory, Tower};
use doc_tower::Either;
use std::alloc::Global;
use vector_clock::Clock;
use wire_core::{ByteIn, ByteOut, Coder, WireError};

/// The coder of towers that are one of two: the bytes of the arm, without a tag.
#[derive(Clone, Copy, Debug, PartialEq, Eq)]
pub struct EitherCoder<L, R> {
    pub left: L,
    pub right: R,
}

impl<A: Tower, B: Tower, L: Coder<A>, R: Coder<B>> Coder<Either<A, B>> for EitherCoder<L, R> {
    ghost use Rattle.doc_codec.specs.Either.{at_clock, either_exact, either_fit, either_good, either_grammar, either_in_order, either_may_stand, either_states, either_steady, either_tells, either_writes};

    ghost op_grammar = { λ c. either_grammar (L.op_grammar c.left) (R.op_grammar c.right) };

    ghost may_stand = { λ c. either_may_stand (L.may_stand c.left) (R.may_stand c.right) };

    ghost state_grammar = { λ c. either_states (L.state_grammar c.left) (R.state_grammar c.right) };

    ghost state_fits = { λ c. either_fit (L.state_fits c.left) (R.state_fits c.right) };

    fn put_op(
        &self,
        tower: &Either<A, B>,
        op: &Either<A::Op, B::Op>,
        out: &mut ByteOut,
    ) -> Result<(), NoMemory> {
        match (tower, op) {
            (Left(tower), Left(x)) => self.left.put_op(tower, x, out),
            (Right(tower), Right(x)) => self.right.put_op(tower, x, out),
            _ => unreachable!("it is an operation of the tower"),
        }
    }

    fn take_op(
        &self,
        alloc: Global,
        tower: &Either<A, B>,
        from: &mut ByteIn<'_>,
    ) -> Result<Either<A::Op, B::Op>, WireError> {
        match tower {
            Left(tower) => Ok(Left(self.left.take_op(alloc, tower, from)?)),
            Right(tower) => Ok(Right(self.right.take_op(alloc, tower, from)?)),
        }
    }

    fn put_state(
        &self,
        tower: &Either<A, B>,
        state: &Either<A::State, B::State>,
        out: &mut ByteOut,
    ) -> Result<(), NoMemory> {
        match (tower, state) {
            (Left(tower), Left(state)) => self.left.put_state(tower, state, out),
            (Right(tower), Right(state)) => self.right.put_state(tower, state, out),
            _ => unreachable!("it is a state of the tower"),
        }
    }

    fn take_state(
        &self,
        alloc: Global,
        tower: &Either<A, B>,
        d: &Clock,
        from: &mut ByteIn<'_>,
    ) -> Result<Either<A::State, B::State>, WireError> {
        match tower {
            Left(tower) => Ok(Left(self.left.take_state(alloc, tower, d, from)?)),
            Right(tower) => Ok(Right(self.right.take_state(alloc, tower, d, from)?)),
        }
    }

    ghost op_exact = { λ c. either_exact (L.op_grammar c.left) (R.op_grammar c.right) (L.op_exact c.left) (R.op_exact c.right) };

    ghost op_in_order = { λ c. either_in_order (L.op_grammar c.left) (R.op_grammar c.right) (L.op_in_order c.left) (R.op_in_order c.right) };

    ghost op_writes = { λ c. either_writes A.meaning B.meaning (L.op_grammar c.left) (R.op_grammar c.right) (L.op_writes c.left) (R.op_writes c.right) };

    ghost op_tells = { λ c. either_tells A.meaning B.meaning (L.op_grammar c.left) (R.op_grammar c.right) (L.may_stand c.left) (R.may_stand c.right) (L.op_tells c.left) (R.op_tells c.right) };

    ghost state_exact = { λ c t d. either_exact (at_clock (L.state_grammar c.left) d) (at_clock (R.state_grammar c.right) d) (λ u. L.state_exact c.left u d) (λ u. R.state_exact c.right u d) t };

    ghost state_steady = { λ c t d. either_steady (at_clock (L.state_grammar c.left) d) (at_clock (R.state_grammar c.right) d) (λ u. L.state_steady c.left u d) (λ u. R.state_steady c.right u d) t };

    ghost state_good = { λ c. either_good A.meaning B.meaning (L.state_fits c.left) (R.state_fits c.right) (L.state_grammar c.left) (R.state_grammar c.right) (L.state_good c.left) (R.state_good c.right) };
}
