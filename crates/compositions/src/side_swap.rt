ghost use Rattle.std.specs.Prelude.{◌≡◌, ◌≢◌};

use crdt_laws::{Actor, NoMemory, Tower, is_within};
use direct_product::{Both, Pair, PairOp};
use number_crdts::{Number, NumberOp, number_mod};
use semidirect_product::Stack;
use std::alloc::Global;
use vector_clock::Stamp;

/// The actor by which two numbers of one modulus side by side change places. What is done to one of them meanwhile goes where it went.
#[derive(Clone, Copy, Debug, PartialEq, Eq)]
pub struct Swap;

impl Actor<Pair<Number, Number>> for Swap {
    ghost use Rattle.std.specs.Prelude.{◌==◌};
    ghost use Rattle.compositions.specs.Sides.{swap_action, swap_fits_lawful};

    type Op = ();

    ghost fits = { λ _ low. low.left.low.modulus == low.right.low.modulus };

    ghost action = { λ _ _. swap_action };

    fn fits(&self, low: &Pair<Number, Number>) -> bool {
        low.left.low.modulus == low.right.low.modulus
    }

    fn valid(&self, stamp: &Stamp, _op: &()) -> bool {
        is_within(stamp)
    }

    fn apply_to(
        &self,
        _alloc: Global,
        _low: &Pair<Number, Number>,
        state: Both<u64, u64>,
        _stamp: &Stamp,
        _op: &(),
    ) -> Result<Both<u64, u64>, NoMemory> {
        let Both { left, right } = state;
        Ok(Both {
            left: right,
            right: left,
        })
    }

    fn act_on(
        &self,
        alloc: Global,
        low: &Pair<Number, Number>,
        _y: &(),
        x: &PairOp<NumberOp, NumberOp>,
    ) -> Result<PairOp<NumberOp, NumberOp>, NoMemory> {
        match x {
            PairOp::Left(op) => Ok(PairOp::Right(low.left.copy_op(alloc, op)?)),
            PairOp::Right(op) => Ok(PairOp::Left(low.right.copy_op(alloc, op)?)),
        }
    }

    fn copy(&self, _alloc: Global, _op: &()) -> Result<(), NoMemory> {
        Ok(())
    }

    fn same(&self, _a: &(), _b: &()) -> bool {
        true
    }

    ghost lawful = { λ _ low fit. swap_fits_lawful low.left.low.modulus low.left.high.modulus low.right.low.modulus low.right.high.modulus low.left.fitting low.right.fitting fit };
}

/// Two numbers side by side, with additions of level 1, multiplications of level 2, and changes of places of level 3.
pub type Sides = Stack<Pair<Number, Number>, Swap>;

/// The tower of two numbers modulo `modulus` that change places, where 0 stands for 2^64, and 1 is no modulus.
pub fn sides(modulus: u64) -> Sides
    requires { modulus ≢ 1 }
    ensures left_low { result.low.left.low.modulus ≡ modulus }
    ensures left_high { result.low.left.high.modulus ≡ modulus }
    ensures right_low { result.low.right.low.modulus ≡ modulus }
    ensures right_high { result.low.right.high.modulus ≡ modulus }
{
    Stack::of(Pair::of(number_mod(modulus), number_mod(modulus)), Swap)
}
