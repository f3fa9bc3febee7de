use crdt_laws::{NoMemory, Tower};
use direct_product::{Both, Pair, PairOp};
use std::alloc::Global;
use vector_clock::Clock;
use wire_core::{ByteIn, ByteOut, Coder, WireError};

/// The coder of pairs: a tag, and the operation of the left or the right side; and the left state before the right one.
#[derive(Clone, Copy, Debug, PartialEq, Eq)]
pub struct PairCoder<L, R> {
    pub left: L,
    pub right: R,
}

impl<A: Tower, B: Tower, L: Coder<A>, R: Coder<B>> Coder<Pair<A, B>> for PairCoder<L, R> {
    ghost use Rattle.tower_codec.specs.Pair.{both_fit, pair_good, pair_may_stand, pair_tells, pair_op_exact, pair_op_grammar, pair_op_in_order, pair_op_writes, pair_states, pair_states_exact, pair_states_steady};

    ghost op_grammar = { λ c t. pair_op_grammar (L.op_grammar c.left t.left) (R.op_grammar c.right t.right) };

    ghost may_stand = { λ c t. pair_may_stand (L.may_stand c.left t.left) (R.may_stand c.right t.right) };

    ghost state_grammar = { λ c t. pair_states (L.state_grammar c.left t.left) (R.state_grammar c.right t.right) };

    ghost state_fits = { λ c t. both_fit (L.state_fits c.left t.left) (R.state_fits c.right t.right) };

    fn put_op(
        &self,
        tower: &Pair<A, B>,
        op: &PairOp<A::Op, B::Op>,
        out: &mut ByteOut,
    ) -> Result<(), NoMemory> {
        match op {
            PairOp::Left(x) => {
                out.put_u8(0)?;
                self.left.put_op(&tower.left, x, out)
            }
            PairOp::Right(y) => {
                out.put_u8(1)?;
                self.right.put_op(&tower.right, y, out)
            }
        }
    }

    fn take_op(
        &self,
        alloc: Global,
        tower: &Pair<A, B>,
        from: &mut ByteIn<'_>,
    ) -> Result<PairOp<A::Op, B::Op>, WireError> {
        let at = from.at;
        match from.take_u8()? {
            0 => Ok(PairOp::Left(self.left.take_op(alloc, &tower.left, from)?)),
            1 => Ok(PairOp::Right(self.right.take_op(alloc, &tower.right, from)?)),
            _ => Err(WireError::Bad { at }),
        }
    }

    fn put_state(
        &self,
        tower: &Pair<A, B>,
        state: &Both<A::State, B::State>,
        out: &mut ByteOut,
    ) -> Result<(), NoMemory> {
        self.left.put_state(&tower.left, &state.left, out)?;
        self.right.put_state(&tower.right, &state.right, out)
    }

    fn take_state(
        &self,
        alloc: Global,
        tower: &Pair<A, B>,
        d: &Clock,
        from: &mut ByteIn<'_>,
    ) -> Result<Both<A::State, B::State>, WireError> {
        let left = self.left.take_state(alloc, &tower.left, d, from)?;
        let right = self.right.take_state(alloc, &tower.right, d, from)?;
        Ok(Both { left, right })
    }

    ghost op_exact = { λ c t. pair_op_exact (L.op_grammar c.left t.left) (R.op_grammar c.right t.right) (L.op_exact c.left t.left) (R.op_exact c.right t.right) };

    ghost op_in_order = { λ c t. pair_op_in_order (L.op_grammar c.left t.left) (R.op_grammar c.right t.right) (L.op_in_order c.left t.left) (R.op_in_order c.right t.right) };

    ghost op_writes = { λ c t. pair_op_writes (A.meaning t.left) (B.meaning t.right) (L.op_grammar c.left t.left) (R.op_grammar c.right t.right) (L.op_writes c.left t.left) (R.op_writes c.right t.right) };

    ghost op_tells = { λ c t. pair_tells (A.meaning t.left) (B.meaning t.right) (L.op_grammar c.left t.left) (R.op_grammar c.right t.right) (L.may_stand c.left t.left) (R.may_stand c.right t.right) (L.op_tells c.left t.left) (R.op_tells c.right t.right) };

    ghost state_exact = { λ c t d. pair_states_exact (L.state_grammar c.left t.left) (R.state_grammar c.right t.right) d (L.state_exact c.left t.left d) (R.state_exact c.right t.right d) };

    ghost state_steady = { λ c t d. pair_states_steady (L.state_grammar c.left t.left) (R.state_grammar c.right t.right) d (L.state_steady c.left t.left d) (R.state_steady c.right t.right d) };

    ghost state_good = { λ c t. pair_good (A.meaning t.left) (B.meaning t.right) (L.state_fits c.left t.left) (R.state_fits c.right t.right) (L.state_grammar c.left t.left) (R.state_grammar c.right t.right) (L.state_good c.left t.left) (R.state_good c.right t.right) };
}
