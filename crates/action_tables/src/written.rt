ghost use Rattle.std.specs.Prelude.{◌≡◌, IfOk, map, option_map, option_and_then};
ghost use Rattle.serde_json.specs.View.{view};
ghost use Rattle.serde_json.specs.Find.{as_str};
ghost use Rattle.action_tables.specs.TableText.{byte_of, each_of, array_elements, short_elements, key_count, field_of, op_of, ops_of, bytes_of, texts_of, table_at, written_of};

use crdt_laws::{Bytes, List, Names, NoMemory, Txt};
use serde_json::Value;
use std::alloc::Global;

/// An operation as the text has it: nothing is known of its name, and the rows may have any length.
#[derive(Debug, Drop)]
pub struct WrittenOp {
    pub name: Txt,
    pub level: u8,
    pub next: Bytes,
    pub act: Bytes,
}

/// A table as the text has it.
#[derive(Debug, Drop)]
pub struct WrittenTable {
    pub states: Names,
    pub start: u8,
    pub ops: List<WrittenOp>,
}

// A whole number of 0 to 255, where the value is one.
fn read_byte(value: &Value) -> Option<u8>
    ensures { result ≡ byte_of (view value.now) }
{
    u8::try_from(value.as_u64()?).ok()
}

/// How many keys the object has, and 0 where the value is none. It takes no memory.
pub fn count_keys(value: &Value) -> usize
    ensures { result ≡ key_count (view value.now) }
{
    match value.as_object() {
        Some(members) => members.len(),
        None => 0,
    }
}

// The text of a string.
fn read_text(alloc: Global, value: &Value) -> Result<Option<Txt>, NoMemory>
    ensures { IfOk result (λ o. o ≡ as_str (view value.now)) }
{
    match value.as_str() {
        Some(text) => Ok(Some(Txt {
            items: Vec::from_slice(alloc, text.as_bytes())?,
        })),
        None => Ok(None),
    }
}

/// The elements of an array, or None where the value is none. It takes no memory.
pub fn array_elements(value: &Value) -> Option<&[Value]>
    ensures { option_map (λ v. map view v.now) result ≡ array_elements (view value.now) }
{
    let items = value.as_array()?;
    Some(items.as_slice())
}

// Those of an array of at most 255.
fn short_elements(value: &Value) -> Option<&[Value]>
    ensures { option_map (λ v. map view v.now) result ≡ short_elements (view value.now) }
{
    let items = array_elements(value)?;
    if items.len() <= 255 {
        Some(items)
    } else {
        None
    }
}

// Each of the values as a whole number of 0 to 255.
fn each_byte(alloc: Global, values: &[Value]) -> Result<Option<Bytes>, NoMemory>
    ensures { IfOk result (λ o. o ≡ each_of byte_of (map view values.now)) }
{
    let mut bytes = Vec::new(alloc);
    for value in values {
        let Some(byte) = read_byte(value) else {
            return Ok(None);
        };
        bytes.push(byte)?;
    }
    Ok(Some(Bytes { items: bytes }))
}

// Each of the values as a text.
fn each_text(alloc: Global, values: &[Value]) -> Result<Option<Names>, NoMemory>
    ensures { IfOk result (λ o. o ≡ each_of as_str (map view values.now)) }
{
    let mut texts = Vec::new(alloc);
    for value in values {
        let Some(text) = read_text(alloc, value)? else {
            return Ok(None);
        };
        texts.push(text)?;
    }
    Ok(Some(Names { items: texts }))
}

// The number at a key.
fn byte_at(object: &Value, key: &str) -> Option<u8>
    ensures { result ≡ field_of byte_of key.now (view object.now) }
{
    read_byte(object.get(key)?)
}

/// The text at a key of an object, or None where there is none. `NoMemory` comes where it runs out of memory.
pub fn text_at(alloc: Global, object: &Value, key: &str) -> Result<Option<Txt>, NoMemory>
    ensures { IfOk result (λ o. o ≡ field_of as_str key.now (view object.now)) }
{
    match object.get(key) {
        Some(value) => read_text(alloc, value),
        None => Ok(None),
    }
}

// The elements of the array at a key.
fn elements_at<'a>(object: &'a Value, key: &str) -> Option<&'a [Value]>
    ensures { option_map (λ v. map view v.now) result ≡ field_of array_elements key.now (view object.now) }
{
    array_elements(object.get(key)?)
}

// Those of an array of at most 255.
fn short_elements_at<'a>(object: &'a Value, key: &str) -> Option<&'a [Value]>
    ensures { option_map (λ v. map view v.now) result ≡ field_of short_elements key.now (view object.now) }
{
    short_elements(object.get(key)?)
}

// The numbers of the array at a key.
fn bytes_at(alloc: Global, object: &Value, key: &str) -> Result<Option<Bytes>, NoMemory>
    ensures { IfOk result (λ o. o ≡ field_of bytes_of key.now (view object.now)) }
{
    match elements_at(object, key) {
        Some(values) => each_byte(alloc, values),
        None => Ok(None),
    }
}

/// The texts of the array at a key of an object, or None where there is no array of at most 255 texts. `NoMemory` comes where it
/// runs out of memory.
pub fn texts_at(alloc: Global, object: &Value, key: &str) -> Result<Option<Names>, NoMemory>
    ensures { IfOk result (λ o. o ≡ field_of texts_of key.now (view object.now)) }
{
    match short_elements_at(object, key) {
        Some(values) => each_text(alloc, values),
        None => Ok(None),
    }
}

// The operation of an object, where it has the form of one.
fn read_op(alloc: Global, object: &Value) -> Result<Option<WrittenOp>, NoMemory>
    ensures { IfOk result (λ o. o ≡ op_of (view object.now)) }
{
    if count_keys(object) != 4 {
        return Ok(None);
    }
    let Some(name) = text_at(alloc, object, "name")? else {
        return Ok(None);
    };
    let Some(level) = byte_at(object, "level") else {
        return Ok(None);
    };
    let Some(next) = bytes_at(alloc, object, "next")? else {
        return Ok(None);
    };
    let Some(act) = bytes_at(alloc, object, "act")? else {
        return Ok(None);
    };
    Ok(Some(WrittenOp {
        name,
        level,
        next,
        act,
    }))
}

// Each of the values as an operation.
fn each_op(alloc: Global, values: &[Value]) -> Result<Option<List<WrittenOp>>, NoMemory>
    ensures { IfOk result (λ o. o ≡ each_of op_of (map view values.now)) }
{
    let mut ops = Vec::new(alloc);
    for value in values {
        let Some(op) = read_op(alloc, value)? else {
            return Ok(None);
        };
        ops.push(op)?;
    }
    Ok(Some(List { items: ops }))
}

// The operations of the array at a key.
fn ops_at(alloc: Global, object: &Value, key: &str) -> Result<Option<List<WrittenOp>>, NoMemory>
    ensures { IfOk result (λ o. o ≡ field_of ops_of key.now (view object.now)) }
{
    match short_elements_at(object, key) {
        Some(values) => each_op(alloc, values),
        None => Ok(None),
    }
}

/// The table at the keys `ops`, `start` and `states` of an object, whatever other keys it has, or None where these are not there
/// or have another form. `NoMemory` comes where it runs out of memory.
pub fn table_at(alloc: Global, object: &Value) -> Result<Option<WrittenTable>, NoMemory>
    ensures { IfOk result (λ o. o ≡ table_at (view object.now)) }
{
    let Some(states) = texts_at(alloc, object, "states")? else {
        return Ok(None);
    };
    let Some(start) = byte_at(object, "start") else {
        return Ok(None);
    };
    let Some(ops) = ops_at(alloc, object, "ops")? else {
        return Ok(None);
    };
    Ok(Some(WrittenTable { states, start, ops }))
}

// The table of an object, where it has the form of one.
pub fn read_table(alloc: Global, object: &Value) -> Result<Option<WrittenTable>, NoMemory>
    ensures { IfOk result (λ o. o ≡ written_of (view object.now)) }
{
    if count_keys(object) != 3 {
        return Ok(None);
    }
    table_at(alloc, object)
}
