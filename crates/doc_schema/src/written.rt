ghost use Rattle.std.specs.Prelude.{◌≡◌, IfOk, map, codes, option_map, option_and_then};
ghost use Rattle.serde_json.specs.Find.{get, as_str};
ghost use Rattle.serde_json.specs.View.{view};
ghost use Rattle.action_tables.specs.TableText.{field_of, texts_of};
ghost use Rattle.doc_schema.specs.Form.{whole_of, if_within, if_there, reset_of, kind_of, kind_keys, field_keys, field_at, field_form, fields_of, head_form};
ghost use Rattle.doc_schema.specs.Kinds.{kind_named};

use crate::kind::{KindName, Reset};
use action_tables::{WrittenTable, array_elements, count_keys, table_at, text_at, texts_at};
use crdt_laws::{Names, NoMemory, Txt};
use serde_json::Value;
use std::alloc::Global;

/// The kind of a field as the text has it: nothing is known of its names, of a modulus, and of what a table does.
#[derive(Debug, Drop)]
pub enum WrittenKind {
    Number(Option<u64>),
    OnFlag,
    OffFlag,
    Choice(Names),
    Table(WrittenTable),
    Latest,
    Several,
    Text,
    Tally(Option<u64>),
    Entries,
    Rich(Names),
}

/// A field as the text has it.
#[derive(Debug, Drop)]
pub struct WrittenField {
    pub name: Txt,
    pub kind: WrittenKind,
    pub reset: Reset,
}

/// A schema as the text has it, with the values of its fields.
#[derive(Clone, Copy)]
pub struct WrittenSchema<'a> {
    pub doc: &'a str,
    pub members: u64,
    pub fields: &'a [Value],
}

/// The whole number at `modulus`, where the key is there. The outer None says that its value is none.
fn modulus_at(object: &Value) -> Option<Option<u64>>
    ensures { result ≡ if_there whole_of (get (codes "modulus") (view object.now)) }
{
    match object.get("modulus") {
        Some(value) => value.as_u64().map(Some),
        None => Some(None),
    }
}

/// The low to high texts of the array at a key.
fn names_at(
    alloc: Global,
    object: &Value,
    key: &str,
    low: usize,
    high: usize,
) -> Result<Option<Names>, NoMemory>
    ensures { IfOk result (λ o. o ≡ option_and_then (if_within low high) (field_of texts_of key.now (view object.now))) }
{
    match texts_at(alloc, object, key)? {
        Some(names) if (low..=high).contains(&names.items.len()) => Ok(Some(names)),
        _ => Ok(None),
    }
}

/// The reset at `reset`, which is `Never` where the key is absent.
fn reset_at(object: &Value) -> Option<Reset>
    ensures { result ≡ reset_of (get (codes "reset") (view object.now)) }
{
    let Some(value) = object.get("reset") else {
        return Some(Reset::Never);
    };
    let text = value.as_str()?;
    if text == "winning" {
        Some(Reset::Winning)
    } else if text == "observed" {
        Some(Reset::Observed)
    } else {
        None
    }
}

/// The parts of a field of this kind.
fn kind_at(alloc: Global, kind: KindName, object: &Value) -> Result<Option<WrittenKind>, NoMemory>
    ensures { IfOk result (λ o. o ≡ kind_of kind (view object.now)) }
{
    Ok(match kind {
        KindName::Number => modulus_at(object).map(WrittenKind::Number),
        KindName::OnFlag => Some(WrittenKind::OnFlag),
        KindName::OffFlag => Some(WrittenKind::OffFlag),
        KindName::Choice => names_at(alloc, object, "values", 2, 8)?.map(WrittenKind::Choice),
        KindName::Table => table_at(alloc, object)?.map(WrittenKind::Table),
        KindName::Latest => Some(WrittenKind::Latest),
        KindName::Several => Some(WrittenKind::Several),
        KindName::Text => Some(WrittenKind::Text),
        KindName::Tally => modulus_at(object).map(WrittenKind::Tally),
        KindName::Entries => Some(WrittenKind::Entries),
        KindName::Rich => names_at(alloc, object, "marks", 1, 8)?.map(WrittenKind::Rich),
    })
}

/// The kind that a field says to have.
fn kind_name_at(object: &Value) -> Option<KindName>
    ensures { result ≡ option_and_then kind_named (field_of as_str (codes "kind") (view object.now)) }
{
    KindName::named(object.get("kind")?.as_str()?)
}

impl WrittenField {
    /// How many keys the object of such a field has.
    fn key_count(&self) -> usize
        ensures { result ≡ field_keys self.now }
    {
        let reset = usize::from(self.reset != Reset::Never);
        let parts = match &self.kind {
            WrittenKind::Number(modulus) | WrittenKind::Tally(modulus) => {
                usize::from(modulus.is_some())
            }
            WrittenKind::Choice(_) | WrittenKind::Rich(_) => 1,
            WrittenKind::Table(_) => 3,
            _ => 0,
        };
        2 + reset + parts
    }
}

/// The parts of a field, whatever other keys there are.
fn field_at(alloc: Global, object: &Value) -> Result<Option<WrittenField>, NoMemory>
    ensures { IfOk result (λ o. o ≡ field_at (view object.now)) }
{
    let Some(name) = text_at(alloc, object, "name")? else {
        return Ok(None);
    };
    let Some(reset) = reset_at(object) else {
        return Ok(None);
    };
    let Some(kind_name) = kind_name_at(object) else {
        return Ok(None);
    };
    let Some(kind) = kind_at(alloc, kind_name, object)? else {
        return Ok(None);
    };
    Ok(Some(WrittenField { name, kind, reset }))
}

/// The field of an object, where it has the form of one.
pub fn read_field(alloc: Global, object: &Value) -> Result<Option<WrittenField>, NoMemory>
    ensures { IfOk result (λ o. o ≡ field_form (view object.now)) }
{
    match field_at(alloc, object)? {
        Some(field) if count_keys(object) == field.key_count() => Ok(Some(field)),
        _ => Ok(None),
    }
}

/// The values of the 1 to 64 fields.
fn fields_at(object: &Value) -> Option<&[Value]>
    ensures { option_map (λ v. map view v.now) result ≡ field_of fields_of (codes "fields") (view object.now) }
{
    let values = array_elements(object.get("fields")?)?;
    if (1..=64).contains(&values.len()) {
        Some(values)
    } else {
        None
    }
}

/// The schema of an object, where it has the form of one.
pub fn read_schema(object: &Value) -> Option<WrittenSchema<'_>>
    ensures { option_map (λ s. record { doc = s.doc.now; members = s.members; fields = map view s.fields.now }) result
        ≡ head_form (view object.now) }
{
    if count_keys(object) != 3 {
        return None;
    }
    Some(WrittenSchema {
        doc: object.get("doc")?.as_str()?,
        members: object.get("members")?.as_u64()?,
        fields: fields_at(object)?,
    })
}
