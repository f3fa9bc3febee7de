ghost use Rattle.std.specs.Prelude.{◌≡◌, ◌<◌, IfOk, OnOk, length, map};
ghost use Rattle.std.specs.List.{All};
ghost use Rattle.serde_json.specs.Data.{array, string};
ghost use Rattle.serde_json.specs.View.{items_of, members_view, view};
ghost use Rattle.action_tables.specs.Name.{IsName};
ghost use Rattle.action_tables.specs.Table.{op_count};
ghost use Rattle.action_tables.specs.TableForm.{numbers as numbers_of, strings};
ghost use Rattle.doc_schema.specs.Canonical.{field_data, kind_members, modulus_member, op_data, ops_from, reset_members, schema_data};
ghost use Rattle.doc_schema.specs.Sound.{IsSoundField, IsSoundKind};

use crate::kind::{Field, Kind, KindName, Reset};
use action_tables::{LawfulTable, Table};
use crdt_laws::{List, Names, NoMemory, Txt};
use serde_json::{Map, Value, put};
use std::alloc::Global;

/// The string of a name.
fn name_value(alloc: Global, name: &Txt) -> Result<Value, NoMemory>
    requires { IsName name.now }
    ensures { IfOk result (λ v. view v ≡ string name.now) }
{
    Ok(Value::String(name.to_string(alloc)?))
}

/// The string of a word of this crate.
fn word_value(alloc: Global, word: &str) -> Result<Value, NoMemory>
    ensures { IfOk result (λ v. view v ≡ string word.now) }
{
    Ok(Value::String(String::from_str(alloc, word)?))
}

/// The array of names.
fn names_value(alloc: Global, names: &Names) -> Result<Value, NoMemory>
    requires { All IsName names.now }
    ensures { IfOk result (λ v. view v ≡ strings names.now) }
{
    let mut values = Vec::new(alloc);
    for name in &names.items {
        values.push(name_value(alloc, name)?)?;
    }
    Ok(Value::Array(values))
}

/// The array of numbers.
fn numbers_value(alloc: Global, numbers: &[u8]) -> Result<Value, NoMemory>
    ensures { IfOk result (λ v. view v ≡ numbers_of numbers.now) }
{
    let mut values = Vec::new(alloc);
    for number in numbers {
        values.push(Value::from(*number))?;
    }
    Ok(Value::Array(values))
}

/// An operation of a table.
fn op_value(alloc: Global, table: &Table, name: &Txt, op: usize) -> Result<Value, NoMemory>
    requires name { IsName name.now }
    requires op { op < op_count table.now }
    ensures { IfOk result (λ v. view v ≡ op_data table.now name.now op) }
{
    let states = usize::from(table.states);
    let ops = table.level.len();
    let mut object = Map::new(alloc);
    put(
        &mut object,
        alloc,
        "act",
        numbers_value(alloc, &table.act[op * ops..][..ops])?,
    )?;
    put(&mut object, alloc, "level", Value::from(table.level[op]))?;
    put(&mut object, alloc, "name", name_value(alloc, name)?)?;
    put(
        &mut object,
        alloc,
        "next",
        numbers_value(alloc, &table.next[op * states..][..states])?,
    )?;
    Ok(Value::Object(object))
}

/// The operations of a table.
fn ops_value(alloc: Global, table: &Table, ops: &Names) -> Result<Value, NoMemory>
    requires names { All IsName ops.now }
    requires count { length ops.now ≡ op_count table.now }
    ensures { IfOk result (λ v. view v ≡ array (items_of (ops_from table.now ops.now 0))) }
{
    let mut values = Vec::new(alloc);
    for (op, name) in ops.items.iter().enumerate() {
        values.push(op_value(alloc, table, name, op)?)?;
    }
    Ok(Value::Array(values))
}

/// Puts the modulus in, where there is one.
fn put_modulus(object: &mut Map<String, Value>, alloc: Global, modulus: u64) -> Result<(), NoMemory>
    ensures { OnOk result (members_view object.new.entries ≡ modulus_member modulus (members_view object.old.entries)) }
{
    if modulus != 0 {
        put(object, alloc, "modulus", Value::from(modulus))?;
    }
    Ok(())
}

/// Puts a table in.
fn put_table(
    object: &mut Map<String, Value>,
    alloc: Global,
    table: &LawfulTable,
    states: &Names,
    ops: &Names,
) -> Result<(), NoMemory>
    requires states { All IsName states.now }
    requires ops { All IsName ops.now }
    requires count { length ops.now ≡ op_count table.now.table }
    ensures { OnOk result (members_view object.new.entries ≡ kind_members (Kind.Table table.now states.now ops.now) (members_view object.old.entries)) }
{
    let table = table.table();
    put(object, alloc, "ops", ops_value(alloc, table, ops)?)?;
    put(object, alloc, "start", Value::from(table.start))?;
    put(object, alloc, "states", names_value(alloc, states)?)?;
    Ok(())
}

/// Puts the parts of a kind in.
fn put_kind(object: &mut Map<String, Value>, alloc: Global, kind: &Kind) -> Result<(), NoMemory>
    requires { IsSoundKind kind.now }
    ensures { OnOk result (members_view object.new.entries ≡ kind_members kind.now (members_view object.old.entries)) }
{
    match kind {
        Kind::Number { modulus } | Kind::Tally { modulus } => put_modulus(object, alloc, *modulus),
        Kind::Choice { values } => Ok(put(object, alloc, "values", names_value(alloc, values)?)?),
        Kind::Table { table, states, ops } => put_table(object, alloc, table, states, ops),
        Kind::Rich { marks } => Ok(put(object, alloc, "marks", names_value(alloc, marks)?)?),
        _ => Ok(()),
    }
}

/// Puts the reset in, where there is one.
fn put_reset(object: &mut Map<String, Value>, alloc: Global, reset: Reset) -> Result<(), NoMemory>
    ensures { OnOk result (members_view object.new.entries ≡ reset_members reset (members_view object.old.entries)) }
{
    let word = match reset {
        Reset::Never => return Ok(()),
        Reset::Winning => "winning",
        Reset::Observed => "observed",
    };
    Ok(put(object, alloc, "reset", word_value(alloc, word)?)?)
}

/// The object of a field.
fn field_value(alloc: Global, field: &Field) -> Result<Value, NoMemory>
    requires { IsSoundField field.now }
    ensures { IfOk result (λ v. view v ≡ field_data field.now) }
{
    let mut object = Map::new(alloc);
    put(
        &mut object,
        alloc,
        "kind",
        word_value(alloc, KindName::of(&field.kind).text())?,
    )?;
    put(&mut object, alloc, "name", name_value(alloc, &field.name)?)?;
    put_reset(&mut object, alloc, field.reset)?;
    put_kind(&mut object, alloc, &field.kind)?;
    Ok(Value::Object(object))
}

/// The array of fields.
fn fields_value(alloc: Global, fields: &List<Field>) -> Result<Value, NoMemory>
    requires { All IsSoundField fields.now }
    ensures { IfOk result (λ v. view v ≡ array (items_of (map field_data fields.now))) }
{
    let mut values = Vec::new(alloc);
    for field in &fields.items {
        values.push(field_value(alloc, field)?)?;
    }
    Ok(Value::Array(values))
}

/// The object of a schema of these parts.
pub fn schema_value(
    alloc: Global,
    doc: &Txt,
    members: u8,
    fields: &List<Field>,
) -> Result<Value, NoMemory>
    requires doc { IsName doc.now }
    requires fields { All IsSoundField fields.now }
    ensures { IfOk result (λ v. view v ≡ schema_data (record { doc = doc.now; members = members; fields = fields.now })) }
{
    let mut object = Map::new(alloc);
    put(&mut object, alloc, "doc", name_value(alloc, doc)?)?;
    put(&mut object, alloc, "fields", fields_value(alloc, fields)?)?;
    put(&mut object, alloc, "members", Value::from(members))?;
    Ok(Value::Object(object))
}
