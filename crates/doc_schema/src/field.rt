ghost use Rattle.std.specs.Prelude.{◌≡◌, ◌≢◌, ◌≤◌, [], length, map, unwrap_or, IfErr, IfOk, Ok, Err};
ghost use Rattle.std.specs.List.{All};
ghost use Rattle.serde_json.specs.View.{view};
ghost use Rattle.action_tables.specs.TableText.{HasNames, IsApart};
ghost use Rattle.doc_schema.specs.declared.written.WrittenKind.{WrittenKind};
ghost use Rattle.doc_schema.specs.Schema.{FieldResult, FieldRules, FieldsResult, KindResult, HasKindNames, IsKindApart, IsModulus, TableResult, field_names, modulus_of};
ghost use Rattle.doc_schema.specs.Sound.{AreNames, HasCounts, HasKindFault, IsKeptModulus, IsSoundField, IsSoundKind};

use crate::fault::{SchemaError, TableRefusal};
use crate::kind::{Field, Kind};
use crate::places::Places;
use crate::written::{WrittenField, WrittenKind, read_field};
use action_tables::{
    LawfulTable, NamedTable, TableFault, WrittenTable, are_apart, are_names, is_name, name_table,
};
use crdt_laws::{List, Names, NoMemory};
use serde_json::Value;
use std::alloc::Global;

/// Why a kind is refused, in the order in which it is looked at.
#[derive(Clone, Copy, Debug, PartialEq, Eq)]
pub enum KindFault {
    Modulus(u64),
    Name,
    Twice,
    Table(TableRefusal),
    NoMemory,
}

impl From<NoMemory> for KindFault {
    ghost use Rattle.std.specs.Prelude.{◌≡◌};
    ghost use Rattle.doc_schema.specs.declared.field.KindFault.TheVariants.{NoMemory};

    ghost from_gives = { λ _ fault. fault ≡ NoMemory };

    fn from(_error: NoMemory) -> KindFault {
        KindFault::NoMemory
    }
}

/// The modulus, where 0 stands for the one that is absent.
fn checked_modulus(modulus: Option<u64>) -> Result<u64, KindFault>
    ensures modulus { IfOk result (λ m. IsModulus modulus × (m ≡ unwrap_or modulus 0)) }
    ensures sound { IfOk result IsKeptModulus }
    ensures fault { IfErr result (HasKindFault (WrittenKind.Number modulus)) }
{
    match modulus {
        None => Ok(0),
        Some(got) if got < 2 => Err(KindFault::Modulus(got)),
        Some(modulus) => Ok(modulus),
    }
}

/// The names, where each is one and no two are the same.
fn checked_names(names: Names) -> Result<Names, KindFault>
    ensures same { IfOk result (λ n. n ≡ names) }
    ensures sound { IfOk result AreNames }
    ensures fault { IfErr result (HasKindFault (WrittenKind.Choice names)) }
{
    if !are_names(&names.items) {
        return Err(KindFault::Name);
    }
    if !are_apart(&names.items) {
        return Err(KindFault::Twice);
    }
    Ok(names)
}

/// The table of a field, where it is lawful.
fn make_table(alloc: Global, written: WrittenTable) -> Result<Kind, KindFault>
    requires { length written.states ≤ 255 }
    ensures names { IfOk result (λ k. HasNames written × IsApart written) }
    ensures table { IfOk result (λ k. TableResult written (Ok k)) }
    ensures sound { IfOk result IsSoundKind }
    ensures fault { IfErr result (HasKindFault (WrittenKind.Table written)) }
{
    let NamedTable { table, states, ops } = match name_table(alloc, written) {
        Ok(named) => named,
        Err(TableFault::Name) => return Err(KindFault::Name),
        Err(TableFault::Twice) => return Err(KindFault::Twice),
        Err(TableFault::Shape(shape)) => {
            return Err(KindFault::Table(TableRefusal::Shape(shape)));
        }
        Err(TableFault::NoMemory) => return Err(KindFault::NoMemory),
        Err(TableFault::NotJson | TableFault::Form) => unreachable!("the table has its form"),
    };
    match LawfulTable::of(table) {
        Ok(table) => Ok(Kind::Table { table, states, ops }),
        Err((_, verdict)) => Err(KindFault::Table(TableRefusal::Broken(verdict))),
    }
}

/// The kind, or the first thing at fault with it.
fn make_kind(alloc: Global, written: WrittenKind) -> Result<Kind, KindFault>
    requires { HasCounts written }
    ensures modulus { IfOk result (λ k. IsModulus (modulus_of written)) }
    ensures names { IfOk result (λ k. HasKindNames written × IsKindApart written) }
    ensures kind { IfOk result (λ k. KindResult written (Ok k)) }
    ensures sound { IfOk result IsSoundKind }
    ensures fault { IfErr result (HasKindFault written) }
{
    Ok(match written {
        WrittenKind::Number(modulus) => Kind::Number {
            modulus: checked_modulus(modulus)?,
        },
        WrittenKind::OnFlag => Kind::OnFlag,
        WrittenKind::OffFlag => Kind::OffFlag,
        WrittenKind::Choice(values) => Kind::Choice {
            values: checked_names(values)?,
        },
        WrittenKind::Table(table) => make_table(alloc, table)?,
        WrittenKind::Latest => Kind::Latest,
        WrittenKind::Several => Kind::Several,
        WrittenKind::Text => Kind::Text,
        WrittenKind::Tally(modulus) => Kind::Tally {
            modulus: checked_modulus(modulus)?,
        },
        WrittenKind::Entries => Kind::Entries,
        WrittenKind::Rich(marks) => Kind::Rich {
            marks: checked_names(marks)?,
        },
    })
}

/// The field with this number, where no earlier one has its name, or the first thing at fault with it.
fn make_field(
    alloc: Global,
    earlier: &Places,
    field: u8,
    written: WrittenField,
) -> Result<Field, SchemaError>
    requires number { field ≡ length earlier.now }
    requires counts { HasCounts written.kind }
    ensures field { IfOk result (λ f. FieldRules earlier.now written (Ok f)) }
    ensures sound { IfOk result IsSoundField }
    ensures fault { IfErr result (λ e. e ≢ SchemaError.NoMemory → FieldRules earlier.now written (Err e)) }
{
    let WrittenField { name, kind, reset } = written;
    match make_kind(alloc, kind) {
        Err(KindFault::NoMemory) => Err(SchemaError::NoMemory),
        Err(KindFault::Modulus(got)) => Err(SchemaError::Modulus { field, got }),
        Err(KindFault::Name) => Err(SchemaError::Name { field }),
        _ if !is_name(&name.items) => Err(SchemaError::Name { field }),
        Err(KindFault::Twice) => Err(SchemaError::Twice { field }),
        _ if earlier.place_of(&name.items).is_some() => Err(SchemaError::Twice { field }),
        Err(KindFault::Table(fault)) => Err(SchemaError::Table { field, fault }),
        Ok(kind) => Ok(Field { name, kind, reset }),
    }
}

/// The field of a value that stands after fields of these names, or the first thing at fault with it.
fn next_field(alloc: Global, earlier: &Places, value: &Value) -> Result<Field, SchemaError>
    requires { length earlier.now ≤ 255 }
    ensures field { IfOk result (λ f. FieldResult earlier.now (view value.now) (Ok f)) }
    ensures sound { IfOk result IsSoundField }
    ensures fault { IfErr result (λ e. e ≢ SchemaError.NoMemory → FieldResult earlier.now (view value.now) (Err e)) }
{
    let field = earlier.len() as u8;
    match read_field(alloc, value)? {
        Some(written) => make_field(alloc, earlier, field, written),
        None => Err(SchemaError::Shape { field }),
    }
}

/// Fields, with the places of their names.
#[derive(Drop)]
pub struct Fields {
    pub list: List<Field>,
    pub places: Places,
}

/// The fields of these values, or the first thing at fault with the first value that gives none.
pub fn read_fields(alloc: Global, values: &[Value]) -> Result<Fields, SchemaError>
    requires { length values.now ≤ 64 }
    ensures fields { IfOk result (λ f. FieldsResult [] (map view values.now) (Ok f.list)) }
    ensures places { IfOk result (λ f. f.places ≡ field_names f.list) }
    ensures sound { IfOk result (λ f. All IsSoundField f.list) }
    ensures fault { IfErr result (λ e. e ≢ SchemaError.NoMemory → FieldsResult [] (map view values.now) (Err e)) }
{
    let mut list = List::new(alloc);
    let mut places = Places::new(alloc);
    for value in values {
        let field = next_field(alloc, &places, value)?;
        places.add(alloc, &field.name)?;
        list.push(field)?;
    }
    Ok(Fields { list, places })
}
