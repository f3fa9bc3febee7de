ghost use Rattle.std.specs.Prelude.{◌≡◌, ◌≢◌};

use crdt_laws::{Actor, NoMemory, is_within};
use number_crdts::{Number, NumberOp, number_mod};
use semidirect_product::{Stack, StackOp};
use std::alloc::Global;
use vector_clock::Stamp;

/// The actor by which a number becomes 0 again. What is added meanwhile becomes an addition of 0, and a multiplication becomes one
/// by 1.
#[derive(Clone, Copy, Debug, PartialEq, Eq)]
pub struct Clear;

impl Actor<Number> for Clear {
    ghost use Rattle.std.specs.Prelude.{true};
    ghost use Rattle.compositions.specs.Clearing.{clear_action, clear_fits_lawful};

    type Op = ();

    ghost fits = { λ _ _. true };

    ghost action = { λ _ _. clear_action };

    fn fits(&self, _low: &Number) -> bool {
        true
    }

    fn valid(&self, stamp: &Stamp, _op: &()) -> bool {
        is_within(stamp)
    }

    fn apply_to(
        &self,
        _alloc: Global,
        _low: &Number,
        _state: u64,
        _stamp: &Stamp,
        _op: &(),
    ) -> Result<u64, NoMemory> {
        Ok(0)
    }

    fn act_on(
        &self,
        _alloc: Global,
        _low: &Number,
        _y: &(),
        x: &NumberOp,
    ) -> Result<NumberOp, NoMemory> {
        match x {
            StackOp::Low(_) => Ok(StackOp::Low(0)),
            StackOp::High(_) => Ok(StackOp::High(1)),
        }
    }

    fn copy(&self, _alloc: Global, _op: &()) -> Result<(), NoMemory> {
        Ok(())
    }

    fn same(&self, _a: &(), _b: &()) -> bool {
        true
    }

    ghost lawful = { λ _ low _. clear_fits_lawful low.high.modulus low.low.modulus low.fitting low.low.proper };
}

/// A number with additions of level 1, multiplications of level 2, and clearings of level 3: a stack on a stack.
pub type Clearable = Stack<Number, Clear>;

/// The tower of numbers modulo `modulus` that are cleared, where 0 stands for 2^64, and 1 is no modulus.
pub fn clearable(modulus: u64) -> Clearable
    requires { modulus ≢ 1 }
    ensures low { result.low.low.modulus ≡ modulus }
    ensures high { result.low.high.modulus ≡ modulus }
{
    Stack::of(number_mod(modulus), Clear)
}
