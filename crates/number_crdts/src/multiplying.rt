ghost use Rattle.std.specs.Prelude.{◌≢◌};

use crate::adding::Add;
use crate::residues::{is_residue, product};
use crdt_laws::{Actor, NoMemory, is_within};
use std::alloc::Global;
use vector_clock::Stamp;

/// The actor of multiplications over numbers with additions modulo the same `modulus`, and over no others. A factor is a residue.
/// A multiplication also multiplies what is added meanwhile, as a product of a sum is the sum of the products.
#[derive(Debug, PartialEq, Eq, Drop)]
pub struct Mul {
    pub modulus: u64,
    ghost proper: { modulus ≢ 1 },
}

impl Actor<Add> for Mul {
    ghost use Rattle.std.specs.Prelude.{◌==◌};
    ghost use Rattle.number_crdts.specs.Number.{mul_action};
    ghost use Rattle.number_crdts.specs.NumberLaws.{mul_fits_lawful};

    type Op = u64;

    ghost fits = { λ b low. b.modulus == low.modulus };

    ghost action = { λ b _. mul_action b.modulus };

    fn fits(&self, low: &Add) -> bool {
        self.modulus == low.modulus
    }

    fn valid(&self, stamp: &Stamp, op: &u64) -> bool {
        is_within(stamp) && is_residue(self.modulus, *op)
    }

    fn apply_to(
        &self,
        _alloc: Global,
        _low: &Add,
        state: u64,
        _stamp: &Stamp,
        op: &u64,
    ) -> Result<u64, NoMemory> {
        Ok(product(self.modulus, state, *op))
    }

    fn act_on(&self, _alloc: Global, _low: &Add, y: &u64, x: &u64) -> Result<u64, NoMemory> {
        Ok(product(self.modulus, *x, *y))
    }

    fn copy(&self, _alloc: Global, op: &u64) -> Result<u64, NoMemory> {
        Ok(*op)
    }

    fn same(&self, a: &u64, b: &u64) -> bool {
        *a == *b
    }

    ghost lawful = { λ b low fit. mul_fits_lawful b.modulus low.modulus fit };
}
