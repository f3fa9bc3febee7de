ghost use Rattle.std.specs.Prelude.{◌≡◌, IfOk, IsOk};

use crate::lawful::LawfulTable;
use crdt_laws::{NoMemory, Tower, is_within};
use serde_json::Value;
use std::alloc::Global;
use vector_clock::{Clock, Stamp};

/// The tower of a lawful table: a state and an operation are their numbers, an operation leads to the state that the table says,
/// and what the table says of operations that act on others holds of concurrent ones. Its top is the greatest level of the
/// table, and the number of the state is shown. None of its calls but `show` takes memory.
#[derive(Debug, Drop)]
pub struct TableTower {
    pub table: LawfulTable,
}

impl TableTower {
    ghost use Rattle.std.specs.Prelude.{◌≡◌};

    /// The tower of this table.
    pub fn of(table: LawfulTable) -> TableTower
        ensures { result.table ≡ table }
    {
        TableTower { table }
    }
}

impl Tower for TableTower {
    ghost use Rattle.action_tables.specs.Table.{table_meaning};
    ghost use Rattle.action_tables.specs.TableLaws.{table_lawful};

    type State = u8;

    type Op = u8;

    ghost meaning = { λ t. table_meaning t.table.table };

    fn top(&self) -> u8 {
        self.table
            .table()
            .level
            .iter()
            .fold(0, |top, level| top.max(*level))
    }

    fn level(&self, op: &u8) -> u8 {
        self.table.table().level_of(*op)
    }

    fn valid(&self, stamp: &Stamp, op: &u8) -> bool {
        *op < self.table.table().op_count() && is_within(stamp)
    }

    fn init(&self, _alloc: Global) -> Result<u8, NoMemory> {
        Ok(self.table.table().start)
    }

    fn apply(&self, _alloc: Global, state: u8, _stamp: &Stamp, op: &u8) -> Result<u8, NoMemory> {
        Ok(self.table.table().next_of(state, *op))
    }

    fn act(&self, _alloc: Global, y: &u8, x: &u8) -> Result<u8, NoMemory> {
        Ok(self.table.table().act_of(*y, *x))
    }

    fn settle(&self, _alloc: Global, state: u8, _k: &Clock) -> Result<u8, NoMemory> {
        Ok(state)
    }

    fn copy_op(&self, _alloc: Global, op: &u8) -> Result<u8, NoMemory>
        ensures same { IfOk result (λ copy. copy ≡ op.now) }
        ensures always { IsOk result }
    {
        Ok(*op)
    }

    fn same_op(&self, a: &u8, b: &u8) -> bool {
        *a == *b
    }

    fn copy_state(&self, _alloc: Global, state: &u8) -> Result<u8, NoMemory>
        ensures same { IfOk result (λ copy. copy ≡ state.now) }
        ensures always { IsOk result }
    {
        Ok(*state)
    }

    fn show(&self, _alloc: Global, state: &u8) -> Result<Value, NoMemory> {
        Ok(Value::from(*state))
    }

    ghost lawful = { λ t. table_lawful t.table.table t.table.well_formed t.table.laws };
}
