ghost use Rattle.std.specs.Prelude.{◌≡◌, ◌≤◌};
ghost use Rattle.flag_crdts.specs.Choice.{size_of};

use crdt_laws::{NoMemory, Tower};
use flag_crdts::{Choice, Ladder};
use std::alloc::Global;
use vector_clock::Clock;
use wire_core::{ByteIn, ByteOut, Coder, WireError, take_below};

/// How many values the choice has: a level for each.
fn values_of(choice: &Choice) -> u8
    ensures size { result ≡ size_of choice.now }
    ensures few { result ≤ 8 }
{
    choice.top()
}

/// The coder of choices of a known number of values: an operation and a value by their numbers, in one byte each.
#[derive(Clone, Copy, Debug, PartialEq, Eq)]
pub struct LadderCoder;

impl<const N: usize> Coder<Ladder<N>> for LadderCoder {
    ghost use Rattle.std.specs.Prelude.{◌*◌, true};
    ghost use Rattle.wire_core.specs.Small.{below};
    ghost use Rattle.wire_core.specs.SmallExact.{below_exact};
    ghost use Rattle.wire_core.specs.SmallInOrder.{below_in_order};
    ghost use Rattle.kind_codec.specs.Choices.{ladder_good, ladder_tells, ladder_writes};
    ghost use Rattle.kind_codec.specs.Tables.{below_steady};

    ghost op_grammar = { λ _ _. below (2 * N) };

    ghost may_stand = { λ _ _ _ _. true };

    ghost state_grammar = { λ _ _ _. below N };

    ghost state_fits = { λ _ _ _. Unit {0} };

    fn put_op(&self, _tower: &Ladder<N>, op: &u8, out: &mut ByteOut) -> Result<(), NoMemory> {
        out.put_u8(*op)
    }

    fn take_op(
        &self,
        _alloc: Global,
        tower: &Ladder<N>,
        from: &mut ByteIn<'_>,
    ) -> Result<u8, WireError> {
        take_below(2 * tower.top(), from)
    }

    fn put_state(&self, _tower: &Ladder<N>, state: &u8, out: &mut ByteOut) -> Result<(), NoMemory> {
        out.put_u8(*state)
    }

    fn take_state(
        &self,
        _alloc: Global,
        tower: &Ladder<N>,
        _d: &Clock,
        from: &mut ByteIn<'_>,
    ) -> Result<u8, WireError> {
        take_below(tower.top(), from)
    }

    ghost op_exact = { λ _ _. below_exact (2 * N) };

    ghost op_in_order = { λ _ _. below_in_order (2 * N) };

    ghost op_writes = { λ _ t. ladder_writes N t.size };

    ghost op_tells = { λ _ t. ladder_tells N t.size };

    ghost state_exact = { λ _ _ _. below_exact N };

    ghost state_steady = { λ _ _ _. below_steady N };

    ghost state_good = { λ _ t. ladder_good N t.size };
}

/// The coder of choices: an operation and a value by their numbers, in one byte each.
#[derive(Clone, Copy, Debug, PartialEq, Eq)]
pub struct ChoiceCoder;

impl Coder<Choice> for ChoiceCoder {
    ghost use Rattle.std.specs.Prelude.{◌*◌, true};
    ghost use Rattle.flag_crdts.specs.Choice.{size_of};
    ghost use Rattle.wire_core.specs.Small.{below};
    ghost use Rattle.wire_core.specs.SmallExact.{below_exact};
    ghost use Rattle.wire_core.specs.SmallInOrder.{below_in_order};
    ghost use Rattle.kind_codec.specs.Choices.{choice_size, ladder_good, ladder_tells, ladder_writes};
    ghost use Rattle.kind_codec.specs.Tables.{below_steady};

    ghost op_grammar = { λ _ t. below (2 * size_of t) };

    ghost may_stand = { λ _ _ _ _. true };

    ghost state_grammar = { λ _ t _. below (size_of t) };

    ghost state_fits = { λ _ _ _. Unit {0} };

    fn put_op(&self, _tower: &Choice, op: &u8, out: &mut ByteOut) -> Result<(), NoMemory> {
        out.put_u8(*op)
    }

    fn take_op(
        &self,
        _alloc: Global,
        tower: &Choice,
        from: &mut ByteIn<'_>,
    ) -> Result<u8, WireError> {
        take_below(2 * values_of(tower), from)
    }

    fn put_state(&self, _tower: &Choice, state: &u8, out: &mut ByteOut) -> Result<(), NoMemory> {
        out.put_u8(*state)
    }

    fn take_state(
        &self,
        _alloc: Global,
        tower: &Choice,
        _d: &Clock,
        from: &mut ByteIn<'_>,
    ) -> Result<u8, WireError> {
        take_below(values_of(tower), from)
    }

    ghost op_exact = { λ _ t. below_exact (2 * size_of t) };

    ghost op_in_order = { λ _ t. below_in_order (2 * size_of t) };

    ghost op_writes = { λ _ t. ladder_writes (size_of t) (choice_size t) };

    ghost op_tells = { λ _ t. ladder_tells (size_of t) (choice_size t) };

    ghost state_exact = { λ _ t _. below_exact (size_of t) };

    ghost state_steady = { λ _ t _. below_steady (size_of t) };

    ghost state_good = { λ _ t. ladder_good (size_of t) (choice_size t) };
}
