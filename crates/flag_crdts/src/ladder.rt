ghost use Rattle.std.specs.Prelude.{◌≡◌, IfOk, IsOk};
ghost use Rattle.flag_crdts.specs.Ladder.{IsLadderSize};

use crdt_laws::{NoMemory, Tower, is_within};
use serde_json::Value;
use std::alloc::Global;
use vector_clock::{Clock, Stamp};

/// A choice of one of N values, 2 to 8, which are numbered from 0 and are at first 0. Operation number v, below N, sets the
/// value v, and operation number N + v does nothing. Of two values that members set without knowing of each other the
/// higher one stays: the setting of a value turns the setting of a lower one into nothing.
#[derive(Drop)]
pub struct Ladder<const N: usize> {
    ghost size: { IsLadderSize N },
}

impl<const N: usize> Ladder<N> {
    /// The choice of N values, which are to be 2 to 8.
    pub fn of() -> Ladder<N>
        requires { IsLadderSize N }
    {
        Ladder {}
    }
}

impl<const N: usize> Tower for Ladder<N> {
    ghost use Rattle.flag_crdts.specs.Ladder.{ladder_meaning};
    ghost use Rattle.flag_crdts.specs.LadderLaws.{ladder_lawful};

    type State = u8;

    type Op = u8;

    ghost meaning = { λ _. ladder_meaning N };

    fn top(&self) -> u8 {
        N as u8
    }

    fn level(&self, op: &u8) -> u8 {
        let count = N as u8;
        if *op < count {
            *op + 1
        } else {
            *op - count + 1
        }
    }

    fn valid(&self, stamp: &Stamp, op: &u8) -> bool {
        usize::from(*op) < 2 * N && is_within(stamp)
    }

    fn init(&self, _alloc: Global) -> Result<u8, NoMemory> {
        Ok(0)
    }

    fn apply(&self, _alloc: Global, state: u8, _stamp: &Stamp, op: &u8) -> Result<u8, NoMemory> {
        Ok(if usize::from(*op) < N { *op } else { state })
    }

    fn act(&self, _alloc: Global, y: &u8, x: &u8) -> Result<u8, NoMemory> {
        Ok(if usize::from(*y) < N && *x < *y {
            N as u8 + *x
        } else {
            *x
        })
    }

    fn settle(&self, _alloc: Global, state: u8, _k: &Clock) -> Result<u8, NoMemory> {
        Ok(state)
    }

    fn copy_op(&self, _alloc: Global, op: &u8) -> Result<u8, NoMemory>
        ensures same { IfOk result (λ copy. copy ≡ op.now) }
        ensures always { IsOk result }
    {
        Ok(*op)
    }

    fn same_op(&self, a: &u8, b: &u8) -> bool {
        *a == *b
    }

    fn copy_state(&self, _alloc: Global, state: &u8) -> Result<u8, NoMemory>
        ensures same { IfOk result (λ copy. copy ≡ state.now) }
        ensures always { IsOk result }
    {
        Ok(*state)
    }

    fn show(&self, _alloc: Global, state: &u8) -> Result<Value, NoMemory> {
        Ok(Value::from(*state))
    }

    ghost lawful = { λ t. ladder_lawful N t.size };
}
