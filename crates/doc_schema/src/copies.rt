ghost use Rattle.std.specs.Prelude.{◌≡◌, ◌≢◌, IfOk};
ghost use Rattle.std.specs.List.{AllPairs};
ghost use Rattle.doc_schema.specs.Schema.{field_names};

use crate::kind::{Field, Kind};
use crate::places::Places;
use crdt_laws::{List, Names, NoMemory};
use std::alloc::Global;

/// The same names again.
fn copy_names(alloc: Global, names: &Names) -> Result<Names, NoMemory>
    ensures { IfOk result (λ copy. copy ≡ names.now) }
{
    let mut items = Vec::with_capacity(alloc, names.items.len())?;
    for name in &names.items {
        items.push(name.copy(alloc)?)?;
    }
    Ok(Names { items })
}

impl Kind {
    ghost use Rattle.std.specs.Prelude.{◌≡◌, IfOk};

    /// The same kind again. `NoMemory` comes where it runs out of memory.
    pub fn copy(&self, alloc: Global) -> Result<Kind, NoMemory>
        ensures { IfOk result (λ copy. copy ≡ self.now) }
    {
        Ok(match self {
            Kind::Number { modulus } => Kind::Number { modulus: *modulus },
            Kind::OnFlag => Kind::OnFlag,
            Kind::OffFlag => Kind::OffFlag,
            Kind::Choice { values } => Kind::Choice {
                values: copy_names(alloc, values)?,
            },
            Kind::Table { table, states, ops } => Kind::Table {
                table: table.copy(alloc)?,
                states: copy_names(alloc, states)?,
                ops: copy_names(alloc, ops)?,
            },
            Kind::Latest => Kind::Latest,
            Kind::Several => Kind::Several,
            Kind::Text => Kind::Text,
            Kind::Tally { modulus } => Kind::Tally { modulus: *modulus },
            Kind::Entries => Kind::Entries,
            Kind::Rich { marks } => Kind::Rich {
                marks: copy_names(alloc, marks)?,
            },
        })
    }
}

impl Field {
    ghost use Rattle.std.specs.Prelude.{◌≡◌, IfOk};

    /// The same field again. `NoMemory` comes where it runs out of memory.
    pub fn copy(&self, alloc: Global) -> Result<Field, NoMemory>
        ensures { IfOk result (λ copy. copy ≡ self.now) }
    {
        Ok(Field {
            name: self.name.copy(alloc)?,
            kind: self.kind.copy(alloc)?,
            reset: self.reset,
        })
    }
}

/// The same fields again.
pub fn copy_fields(alloc: Global, fields: &List<Field>) -> Result<List<Field>, NoMemory>
    ensures { IfOk result (λ copy. copy ≡ fields.now) }
{
    let mut copy = List::new(alloc);
    for field in &fields.items {
        copy.push(field.copy(alloc)?)?;
    }
    Ok(copy)
}

/// The places of the names of fields, no two of which have one name.
pub fn places_of(alloc: Global, fields: &List<Field>) -> Result<Places, NoMemory>
    requires { AllPairs (λ a b. a ≢ b) (field_names fields.now) }
    ensures { IfOk result (λ places. places ≡ field_names fields.now) }
{
    let mut places = Places::new(alloc);
    for field in &fields.items {
        places.add(alloc, &field.name)?;
    }
    Ok(places)
}
