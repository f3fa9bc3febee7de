ghost use Rattle.action_tables.specs.Table.{IsTable, KeepsLaws};

use crate::table::{Table, Verdict};
use crdt_laws::NoMemory;
use std::alloc::Global;

/// A table whose verdict is `Lawful`. That it keeps the five laws, the type keeps.
#[derive(Debug, Drop)]
pub struct LawfulTable {
    table: Table,
    ghost well_formed: { IsTable table },
    ghost laws: { KeepsLaws table },
}

impl LawfulTable {
    ghost use Rattle.std.specs.Prelude.{◌≡◌, ◌≢◌, IfOk, IfErr};
    ghost use Rattle.action_tables.specs.Verdict.{IsVerdict};

    /// The lawful table, or the table again with its verdict, which is then a broken case. It takes no memory.
    pub fn of(table: Table) -> Result<LawfulTable, (Table, Verdict)>
        ensures lawful { IfOk result (λ l. (l.table ≡ table) × IsVerdict table Verdict.Lawful) }
        ensures same { IfErr result (λ e. e.0 ≡ table) }
        ensures broken { IfErr result (λ e. IsVerdict table e.1 × (e.1 ≢ Verdict.Lawful)) }
    {
        let _ = &table.states;
        match table.check() {
            Verdict::Lawful => Ok(LawfulTable { table }),
            broken => Err((table, broken)),
        }
    }

    /// Its table. It takes no memory.
    pub fn table(&self) -> &Table
        ensures { result.now ≡ self.now.table }
    {
        &self.table
    }

    /// The same lawful table again. `NoMemory` comes where it runs out of memory.
    pub fn copy(&self, alloc: Global) -> Result<LawfulTable, NoMemory>
        ensures { IfOk result (λ l. l ≡ self.now) }
    {
        let table = &self.table;
        Ok(LawfulTable {
            table: Table {
                states: table.states,
                start: table.start,
                level: Vec::from_slice(alloc, &table.level)?,
                next: Vec::from_slice(alloc, &table.next)?,
                act: Vec::from_slice(alloc, &table.act)?,
            },
        })
    }
}
