ghost use Rattle.std.specs.Prelude.{◌≢◌};

use crate::residues::{is_residue, sum};
use crdt_laws::{NoMemory, Tower, is_within};
use serde_json::Value;
use std::alloc::Global;
use vector_clock::{Clock, Stamp};

/// The tower of numbers with additions alone, which are of level 1. A state and an operand are residues modulo `modulus`, where 0
/// stands for 2^64, and 1 is no modulus. A residue modulo 2^64 is shown as the signed number of 64 bits with its bits, and one of
/// another modulus as it is.
#[derive(Debug, PartialEq, Eq, Drop)]
pub struct Add {
    pub modulus: u64,
    ghost proper: { modulus ≢ 1 },
}

impl Tower for Add {
    ghost use Rattle.number_crdts.specs.Number.{add_meaning};
    ghost use Rattle.number_crdts.specs.NumberLaws.{add_lawful};

    type State = u64;

    type Op = u64;

    ghost meaning = { λ t. add_meaning t.modulus };

    fn top(&self) -> u8 {
        1
    }

    fn level(&self, _op: &u64) -> u8 {
        1
    }

    fn valid(&self, stamp: &Stamp, op: &u64) -> bool {
        is_within(stamp) && is_residue(self.modulus, *op)
    }

    fn init(&self, _alloc: Global) -> Result<u64, NoMemory> {
        Ok(0)
    }

    fn apply(&self, _alloc: Global, state: u64, _stamp: &Stamp, op: &u64) -> Result<u64, NoMemory> {
        Ok(sum(self.modulus, state, *op))
    }

    fn act(&self, _alloc: Global, _y: &u64, x: &u64) -> Result<u64, NoMemory> {
        Ok(*x)
    }

    fn settle(&self, _alloc: Global, state: u64, _k: &Clock) -> Result<u64, NoMemory> {
        Ok(state)
    }

    fn copy_op(&self, _alloc: Global, op: &u64) -> Result<u64, NoMemory> {
        Ok(*op)
    }

    fn same_op(&self, a: &u64, b: &u64) -> bool {
        *a == *b
    }

    fn copy_state(&self, _alloc: Global, state: &u64) -> Result<u64, NoMemory> {
        Ok(*state)
    }

    fn show(&self, _alloc: Global, state: &u64) -> Result<Value, NoMemory> {
        if self.modulus == 0 {
            Ok(Value::from(state.cast_signed()))
        } else {
            Ok(Value::from(*state))
        }
    }

    ghost lawful = { λ t. add_lawful t.modulus };
}
