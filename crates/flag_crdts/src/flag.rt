ghost use Rattle.std.specs.Prelude.{◌≡◌, ◌+◌, ◌*◌, ◌<◌, length, slice_index, IfOk, IsOk};
ghost use Rattle.std.specs.List.{All, flat_map};
ghost use Rattle.action_tables.specs.Table.{IsTable, KeepsLaws};
ghost use Rattle.flag_crdts.specs.Flags.{HasRows, fixed_table, off_table, on_table};

use crdt_laws::{NoMemory, Tower, is_within};
use serde_json::Value;
use std::alloc::Global;
use vector_clock::{Clock, Stamp};

/// A lawful table of S states and O operations, each of which has a level. The first state is 0.
#[derive(Drop)]
pub struct Fixed<const S: usize, const O: usize> {
    /// For each operation, the state to which it leads from each state.
    pub next: [[u8; S]; O],
    /// For each operation, what each operation becomes when it acts on it.
    pub act: [[u8; O]; O],
    /// The level of each operation.
    pub level: [u8; O],
    ghost rows: { HasRows S O next act },
    ghost table: { IsTable (fixed_table S level next act) },
    ghost lawful: { KeepsLaws (fixed_table S level next act) },
}

/// What each operation of a flag becomes when another one acts on it: operation 2 turns operation 1 into 0, which does nothing.
const ACT: [[u8; 3]; 3] = [[0, 1, 2], [0, 1, 2], [0, 0, 2]];

/// The levels of the operations of a flag.
const LEVEL: [u8; 3] = [1, 1, 2];

/// The flag that is on where members switch it on and off without knowing of each other. State 0 is off and 1 is on.
/// Operation 0 does nothing, 1 switches off and 2 switches on, which turns switching off into nothing.
pub fn on_wins() -> Fixed<2, 3>
    ensures { fixed_table 2 result.level result.next result.act ≡ on_table }
{
    Fixed {
        next: [[0, 1], [0, 0], [1, 1]],
        act: ACT,
        level: LEVEL,
    }
}

/// The flag that is off there. Operation 0 does nothing, 1 switches on and 2 switches off, which turns switching on into
/// nothing.
pub fn off_wins() -> Fixed<2, 3>
    ensures { fixed_table 2 result.level result.next result.act ≡ off_table }
{
    Fixed {
        next: [[0, 1], [1, 1], [0, 0]],
        act: ACT,
        level: LEVEL,
    }
}

/// The entry at this place of a row, out of three rows.
fn entry_of<const W: usize>(rows: &[[u8; W]; 3], row: u8, place: u8) -> u8
    requires lengths { All (λ row. length row ≡ W) rows.now }
    requires row { row < 3 }
    requires place { place < W }
    ensures { result ≡ slice_index (flat_map (λ row. row) rows.now) (row * W + place) }
{
    rows[usize::from(row)][usize::from(place)]
}

impl Tower for Fixed<2, 3> {
    ghost use Rattle.action_tables.specs.Table.{table_meaning};
    ghost use Rattle.action_tables.specs.TableLaws.{table_lawful};

    type State = u8;

    type Op = u8;

    ghost meaning = { λ t. table_meaning (fixed_table 2 t.level t.next t.act) };

    fn top(&self) -> u8 {
        let [none, low, high] = self.level;
        none.max(low.max(high))
    }

    fn level(&self, op: &u8) -> u8 {
        self.level[usize::from(*op)]
    }

    fn valid(&self, stamp: &Stamp, op: &u8) -> bool {
        *op < 3 && is_within(stamp)
    }

    fn init(&self, _alloc: Global) -> Result<u8, NoMemory> {
        Ok(0)
    }

    fn apply(&self, _alloc: Global, state: u8, _stamp: &Stamp, op: &u8) -> Result<u8, NoMemory> {
        Ok(entry_of(&self.next, *op, state))
    }

    fn act(&self, _alloc: Global, y: &u8, x: &u8) -> Result<u8, NoMemory> {
        Ok(entry_of(&self.act, *y, *x))
    }

    fn settle(&self, _alloc: Global, state: u8, _k: &Clock) -> Result<u8, NoMemory> {
        Ok(state)
    }

    fn copy_op(&self, _alloc: Global, op: &u8) -> Result<u8, NoMemory>
        ensures same { IfOk result (λ copy. copy ≡ op.now) }
        ensures always { IsOk result }
    {
        Ok(*op)
    }

    fn same_op(&self, a: &u8, b: &u8) -> bool {
        *a == *b
    }

    fn copy_state(&self, _alloc: Global, state: &u8) -> Result<u8, NoMemory>
        ensures same { IfOk result (λ copy. copy ≡ state.now) }
        ensures always { IsOk result }
    {
        Ok(*state)
    }

    fn show(&self, _alloc: Global, state: &u8) -> Result<Value, NoMemory> {
        Ok(Value::from(*state))
    }

    ghost lawful = { λ t. table_lawful (fixed_table 2 t.level t.next t.act) t.table t.lawful };
}
