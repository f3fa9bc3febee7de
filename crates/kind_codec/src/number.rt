ghost use Rattle.std.specs.Prelude.{◌≡◌, OnOk};
ghost use Rattle.wire_core.specs.Calls.{IsInside, Takes, rules_of, wrote};
ghost use Rattle.kind_codec.specs.Number.{residue_grammar};

use crdt_laws::NoMemory;
use number_crdts::{Add, Mul};
use std::alloc::Global;
use vector_clock::Clock;
use wire_core::{ActorCoder, ByteIn, ByteOut, Coder, WireError};

/// Writes a residue as eight bytes.
fn put_residue(modulus: u64, residue: u64, out: &mut ByteOut) -> Result<(), NoMemory>
    requires { (residue_grammar modulus).allows (rules_of out.old) residue }
    ensures { OnOk result (out.new ≡ wrote out.old ((residue_grammar modulus).spell (rules_of out.old) residue)) }
{
    out.put_u64(residue)
}

/// Reads eight bytes, which have to spell a residue: where the modulus is 0, any bytes do.
fn take_residue(modulus: u64, from: &mut ByteIn<'_>) -> Result<u64, WireError>
    requires { IsInside from.old }
    ensures { Takes (residue_grammar modulus) from.old from.new result }
{
    let at = from.at;
    let residue = from.take_u64()?;
    if modulus == 0 || residue < modulus {
        Ok(residue)
    } else {
        Err(WireError::Bad { at })
    }
}

/// The coder of numbers and of additions to them: eight bytes, which spell a residue.
#[derive(Clone, Copy, Debug, PartialEq, Eq)]
pub struct AddCoder;

impl Coder<Add> for AddCoder {
    ghost use Rattle.std.specs.Prelude.{true};
    ghost use Rattle.kind_codec.specs.Number.{add_good, add_tells, add_writes, residue_exact, residue_in_order, residue_steady};

    ghost op_grammar = { λ _ t. residue_grammar t.modulus };

    ghost may_stand = { λ _ _ _ _. true };

    ghost state_grammar = { λ _ t _. residue_grammar t.modulus };

    ghost state_fits = { λ _ _ _. Unit {0} };

    fn put_op(&self, tower: &Add, op: &u64, out: &mut ByteOut) -> Result<(), NoMemory> {
        put_residue(tower.modulus, *op, out)
    }

    fn take_op(
        &self,
        _alloc: Global,
        tower: &Add,
        from: &mut ByteIn<'_>,
    ) -> Result<u64, WireError> {
        take_residue(tower.modulus, from)
    }

    fn put_state(&self, tower: &Add, state: &u64, out: &mut ByteOut) -> Result<(), NoMemory> {
        put_residue(tower.modulus, *state, out)
    }

    fn take_state(
        &self,
        _alloc: Global,
        tower: &Add,
        _d: &Clock,
        from: &mut ByteIn<'_>,
    ) -> Result<u64, WireError> {
        take_residue(tower.modulus, from)
    }

    ghost op_exact = { λ _ t. residue_exact t.modulus };

    ghost op_in_order = { λ _ t. residue_in_order t.modulus };

    ghost op_writes = { λ _ t. add_writes t.modulus };

    ghost op_tells = { λ _ t. add_tells t.modulus };

    ghost state_exact = { λ _ t _. residue_exact t.modulus };

    ghost state_steady = { λ _ t _. residue_steady t.modulus };

    ghost state_good = { λ _ t. add_good t.modulus };
}

/// The coder of multiplications: eight bytes, which spell a residue.
#[derive(Clone, Copy, Debug, PartialEq, Eq)]
pub struct MulCoder;

impl ActorCoder<Add, Mul> for MulCoder {
    ghost use Rattle.std.specs.Prelude.{true};
    ghost use Rattle.kind_codec.specs.Number.{mul_tells, mul_writes, residue_exact, residue_in_order};

    ghost acting_grammar = { λ _ b. residue_grammar b.modulus };

    ghost acting_may_stand = { λ _ _ _ _. true };

    fn put_op(&self, actor: &Mul, op: &u64, out: &mut ByteOut) -> Result<(), NoMemory> {
        put_residue(actor.modulus, *op, out)
    }

    fn take_op(
        &self,
        _alloc: Global,
        actor: &Mul,
        from: &mut ByteIn<'_>,
    ) -> Result<u64, WireError> {
        take_residue(actor.modulus, from)
    }

    ghost acting_exact = { λ _ b. residue_exact b.modulus };

    ghost acting_in_order = { λ _ b. residue_in_order b.modulus };

    ghost acting_writes = { λ _ b _. mul_writes b.modulus };

    ghost acting_tells = { λ _ b _. mul_tells b.modulus };
}
