use crate::maybe::{Maybe, MaybeOp};
use crdt_laws::{Actor, NoMemory, Tower, is_within};
use std::alloc::Global;
use vector_clock::Stamp;

/// The resets of a tower, as one more level above it. A reset gives the tower's first state, and each operation that it acts
/// on becomes nothing: so what a reset did not know of never survives it. A reset is valid at each stamp within the limits. It
/// takes memory only for the tower's first state.
#[derive(Clone, Copy, Debug, PartialEq, Eq)]
pub struct WinReset;

impl<T: Tower> Actor<Maybe<T>> for WinReset {
    ghost use Rattle.std.specs.Prelude.{true};
    ghost use Rattle.semidirect_product.specs.Reset.{reset_action};
    ghost use Rattle.semidirect_product.specs.ResetLaws.{reset_lawful};

    type Op = ();

    ghost fits = { λ _ _. true };

    ghost action = { λ _ low. reset_action (T.meaning low.part) };

    fn fits(&self, _low: &Maybe<T>) -> bool {
        true
    }

    fn valid(&self, stamp: &Stamp, _op: &()) -> bool {
        is_within(stamp)
    }

    fn apply_to(
        &self,
        alloc: Global,
        low: &Maybe<T>,
        _state: T::State,
        _stamp: &Stamp,
        _op: &(),
    ) -> Result<T::State, NoMemory> {
        low.part.init(alloc)
    }

    fn act_on(
        &self,
        _alloc: Global,
        low: &Maybe<T>,
        _y: &(),
        x: &MaybeOp<T::Op>,
    ) -> Result<MaybeOp<T::Op>, NoMemory> {
        Ok(MaybeOp::Nothing(low.level(x)))
    }

    fn copy(&self, _alloc: Global, _op: &()) -> Result<(), NoMemory> {
        Ok(())
    }

    fn same(&self, _a: &(), _b: &()) -> bool {
        true
    }

    ghost lawful = { λ _ low _. reset_lawful (T.meaning low.part) (T.lawful low.part) };
}
