ghost use Rattle.std.specs.Prelude.{◌≡◌, length};
ghost use Rattle.action_tables.specs.Table.{op_count};

use action_tables::{Table, TableTower};
use crdt_laws::NoMemory;
use flag_crdts::Fixed;
use std::alloc::Global;
use vector_clock::Clock;
use wire_core::{ByteIn, ByteOut, Coder, WireError, take_below};

/// How many operations the table has.
fn ops_of(table: &Table) -> u8
    ensures { result ≡ op_count table.now }
{
    table.level.len() as u8
}

/// How many operations a flag has.
fn flag_ops(flag: &Fixed<2, 3>) -> u8
    ensures { result ≡ length flag.now.level }
{
    let level = flag.level;
    level.len() as u8
}

/// The coder of flags: an operation and a state by their numbers, in one byte each.
#[derive(Clone, Copy, Debug, PartialEq, Eq)]
pub struct FixedCoder;

impl Coder<Fixed<2, 3>> for FixedCoder {
    ghost use Rattle.std.specs.Prelude.{true};
    ghost use Rattle.action_tables.specs.Table.{op_count};
    ghost use Rattle.flag_crdts.specs.Flags.{fixed_table};
    ghost use Rattle.wire_core.specs.Small.{below};
    ghost use Rattle.wire_core.specs.SmallExact.{below_exact};
    ghost use Rattle.wire_core.specs.SmallInOrder.{below_in_order};
    ghost use Rattle.kind_codec.specs.Tables.{below_steady, table_good, table_tells, table_writes};

    ghost op_grammar = { λ _ t. below (op_count (fixed_table 2 t.level t.next t.act)) };

    ghost may_stand = { λ _ _ _ _. true };

    ghost state_grammar = { λ _ _ _. below 2 };

    ghost state_fits = { λ _ _ _. Unit {0} };

    fn put_op(&self, _tower: &Fixed<2, 3>, op: &u8, out: &mut ByteOut) -> Result<(), NoMemory> {
        out.put_u8(*op)
    }

    fn take_op(
        &self,
        _alloc: Global,
        tower: &Fixed<2, 3>,
        from: &mut ByteIn<'_>,
    ) -> Result<u8, WireError> {
        take_below(flag_ops(tower), from)
    }

    fn put_state(
        &self,
        _tower: &Fixed<2, 3>,
        state: &u8,
        out: &mut ByteOut,
    ) -> Result<(), NoMemory> {
        out.put_u8(*state)
    }

    fn take_state(
        &self,
        _alloc: Global,
        _tower: &Fixed<2, 3>,
        _d: &Clock,
        from: &mut ByteIn<'_>,
    ) -> Result<u8, WireError> {
        take_below(2, from)
    }

    ghost op_exact = { λ _ t. below_exact (op_count (fixed_table 2 t.level t.next t.act)) };

    ghost op_in_order = { λ _ t. below_in_order (op_count (fixed_table 2 t.level t.next t.act)) };

    ghost op_writes = { λ _ t. table_writes (fixed_table 2 t.level t.next t.act) t.table };

    ghost op_tells = { λ _ t. table_tells (fixed_table 2 t.level t.next t.act) t.table };

    ghost state_exact = { λ _ _ _. below_exact 2 };

    ghost state_steady = { λ _ _ _. below_steady 2 };

    ghost state_good = { λ _ t. table_good (fixed_table 2 t.level t.next t.act) t.table };
}

/// The coder of tables: an operation and a state by their numbers, in one byte each.
#[derive(Clone, Copy, Debug, PartialEq, Eq)]
pub struct TableTowerCoder;

impl Coder<TableTower> for TableTowerCoder {
    ghost use Rattle.std.specs.Prelude.{true};
    ghost use Rattle.action_tables.specs.Table.{op_count};
    ghost use Rattle.wire_core.specs.Small.{below};
    ghost use Rattle.wire_core.specs.SmallExact.{below_exact};
    ghost use Rattle.wire_core.specs.SmallInOrder.{below_in_order};
    ghost use Rattle.kind_codec.specs.Tables.{below_steady, table_good, table_tells, table_writes};

    ghost op_grammar = { λ _ t. below (op_count t.table.table) };

    ghost may_stand = { λ _ _ _ _. true };

    ghost state_grammar = { λ _ t _. below t.table.table.states };

    ghost state_fits = { λ _ _ _. Unit {0} };

    fn put_op(&self, _tower: &TableTower, op: &u8, out: &mut ByteOut) -> Result<(), NoMemory> {
        out.put_u8(*op)
    }

    fn take_op(
        &self,
        _alloc: Global,
        tower: &TableTower,
        from: &mut ByteIn<'_>,
    ) -> Result<u8, WireError> {
        take_below(ops_of(tower.table.table()), from)
    }

    fn put_state(
        &self,
        _tower: &TableTower,
        state: &u8,
        out: &mut ByteOut,
    ) -> Result<(), NoMemory> {
        out.put_u8(*state)
    }

    fn take_state(
        &self,
        _alloc: Global,
        tower: &TableTower,
        _d: &Clock,
        from: &mut ByteIn<'_>,
    ) -> Result<u8, WireError> {
        take_below(tower.table.table().states, from)
    }

    ghost op_exact = { λ _ t. below_exact (op_count t.table.table) };

    ghost op_in_order = { λ _ t. below_in_order (op_count t.table.table) };

    ghost op_writes = { λ _ t. table_writes t.table.table t.table.well_formed };

    ghost op_tells = { λ _ t. table_tells t.table.table t.table.well_formed };

    ghost state_exact = { λ _ t _. below_exact t.table.table.states };

    ghost state_steady = { λ _ t _. below_steady t.table.table.states };

    ghost state_good = { λ _ t. table_good t.table.table t.table.well_formed };
}
