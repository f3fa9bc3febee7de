ghost use Rattle.std.specs.Prelude.{◌≡◌, IfOk};

use crate::canonical::schema_value;
use crate::copies::{copy_fields, places_of};
use crate::fault::SchemaError;
use crate::field::{Fields, read_fields};
use crate::kind::Field;
use crate::places::Places;
use crate::written::read_schema;
use action_tables::is_name;
use crdt_laws::{List, NoMemory, Txt};
use serde_json::{Category, Value};
use std::alloc::Global;
use std::marker::Model;
use vector_clock::MAX_MEMBERS;

/// How many bytes the text of a schema may have.
const MOST_BYTES: usize = 65_536;

/// The canonical bytes of the schemas that need no file.
const PAIR: &[u8] = br#"{"doc":"pair","fields":[{"kind":"number","name":"n"}],"members":2}"#;

const TRIO: &[u8] = br#"{"doc":"trio","fields":[{"kind":"number","name":"n"}],"members":3}"#;

/// The schema of a document. The type keeps that its parts are those of a text that is accepted. Contracts see it as its name,
/// its members and its fields.
#[derive(Drop)]
pub struct Schema {
    /// 1 to 32 letters from a to z, digits and underscores, of which the first is a letter.
    pub doc: Txt,
    /// How many members a document has, 1 to 64.
    pub members: u8,
    /// Its 1 to 64 fields, no two of which have one name.
    pub fields: List<Field>,
    places: Places,
}

impl Model for Schema {
    ghost use Rattle.std.specs.Prelude.{◌≡◌};
    ghost use Rattle.doc_schema.specs.Schema.{SchemaParts, field_names};
    ghost use Rattle.doc_schema.specs.Sound.{IsSchema};

    ghost Value = { SchemaParts };

    ghost view = { λ s. record { doc = s.doc; members = s.members; fields = s.fields } };

    ghost invariant = { λ s. IsSchema (record { doc = s.doc; members = s.members; fields = s.fields }) × (s.places ≡ field_names s.fields) };
}

impl Schema {
    ghost use Rattle.std.specs.Prelude.{◌≡◌, ◌≢◌, ◌<◌, ◌^◌, length, IfErr, IfNone, IfOk, IfSome, Ok, Err, slice_get};
    ghost use Rattle.std.specs.List.{Contains};
    ghost use Rattle.serde_json.specs.View.{view};
    ghost use Rattle.doc_schema.specs.Canonical.{canonical_text};
    ghost use Rattle.doc_schema.specs.BuiltIn.{pair, trio};
    ghost use Rattle.doc_schema.specs.Schema.{HasFault, SchemaParts, Spells, ValueResult, field_names};
    ghost use Rattle.doc_schema.specs.Sound.{IsSchema};

    /// The schema that a JSON text of at most 4,294,967,295 bytes writes down: an object with exactly the keys `doc`, which is a
    /// name, `members`, a whole number of 1 to 64, and `fields`, an array of 1 to 64 fields. A field is an object with `kind`,
    /// `name` and, where it has one, `reset`, which is `winning` or `observed`. The kinds are `number`, `on_flag`, `off_flag`,
    /// `choice`, `table`, `latest`, `several`, `text`, `tally`, `entries` and `rich`. A number and a tally may have a `modulus`
    /// of at least 2; a choice has 2 to 8 `values`, rich text 1 to 8 `marks`, and a table the keys of a table's own text. There
    /// is no other key, and of a key that stands twice the last value stays. What is wrong with a text that gives no schema is
    /// looked at in the order of `SchemaError`. That each text spells a schema or has such a fault, and never both, is the law
    /// [`one_reading`](crate::one_reading); the form is [`form_of_schemas`](crate::form_of_schemas).
    pub fn from_json(alloc: Global, text: &[u8]) -> Result<Schema, SchemaError>
        requires { length text.now < 2 ^ 32 }
        ensures spells { IfOk result (Spells text.now) }
        ensures fault { IfErr result (λ e. e ≢ SchemaError.NoMemory → HasFault text.now e) }
    {
        if text.len() > MOST_BYTES {
            return Err(SchemaError::Long {
                bytes: text.len() as u32,
            });
        }
        let value = match Value::from_slice(alloc, text) {
            Ok(value) => value,
            Err(error) if error.classify() == Category::Memory => {
                return Err(SchemaError::NoMemory);
            }
            Err(_) => return Err(SchemaError::NotJson),
        };
        Schema::of_value(alloc, &value)
    }

    /// The schema of one number, called n, for two members. `NoMemory` comes where it runs out of memory.
    pub fn pair(alloc: Global) -> Result<Schema, NoMemory>
        ensures { IfOk result (λ s. s ≡ pair) }
    {
        Schema::built_in(alloc, PAIR)
    }

    /// The same for three members.
    pub fn trio(alloc: Global) -> Result<Schema, NoMemory>
        ensures { IfOk result (λ s. s ≡ trio) }
    {
        Schema::built_in(alloc, TRIO)
    }

    /// The schema of a text that spells one, and so has no fault: only memory can be wanting.
    fn built_in(alloc: Global, text: &[u8]) -> Result<Schema, NoMemory>
        requires { (s : SchemaParts) × Spells text.now s }
        ensures { IfOk result (Spells text.now) }
    {
        match Schema::from_json(alloc, text) {
            Ok(schema) => Ok(schema),
            Err(_) => Err(NoMemory),
        }
    }

    /// The schema of a JSON value, or the first thing at fault with it.
    fn of_value(alloc: Global, value: &Value) -> Result<Schema, SchemaError>
        ensures schema { IfOk result (λ s. ValueResult (view value.now) (Ok s)) }
        ensures fault { IfErr result (λ e. e ≢ SchemaError.NoMemory → ValueResult (view value.now) (Err e)) }
    {
        let Some(written) = read_schema(value) else {
            return Err(SchemaError::Shape { field: 255 });
        };
        if !(1..=MAX_MEMBERS as u64).contains(&written.members) {
            return Err(SchemaError::Members { n: written.members });
        }
        if !is_name(written.doc.as_bytes()) {
            return Err(SchemaError::Name { field: 255 });
        }
        let doc = copied(alloc, written.doc)?;
        let Fields { list, places } = read_fields(alloc, written.fields)?;
        Ok(Schema {
            doc,
            members: written.members as u8,
            fields: list,
            places,
        })
    }

    /// The same schema again. `NoMemory` comes where it runs out of memory.
    pub fn copy(&self, alloc: Global) -> Result<Schema, NoMemory>
        ensures { IfOk result (λ s. s ≡ self.now) }
    {
        Ok(Schema {
            doc: self.doc.copy(alloc)?,
            members: self.members,
            fields: copy_fields(alloc, &self.fields)?,
            places: places_of(alloc, &self.fields)?,
        })
    }

    /// How many members a document has. It takes no memory.
    pub fn members(&self) -> u8
        ensures { result ≡ self.now.members }
    {
        self.members
    }

    /// The place of the field with this name, counted from 0, or None where no field has it. It takes no memory.
    pub fn place_of(&self, name: &[u8]) -> Option<usize>
        ensures found { IfSome result (λ at. slice_get (field_names self.now.fields) at ≡ Some name.now) }
        ensures absent { IfNone result (¬ Contains (field_names self.now.fields) name.now) }
    {
        self.places.place_of(name)
    }

    /// The canonical bytes of the schema: the compact JSON text of its object, whose keys stand by the order of their bytes.
    /// `reset` and `modulus` are there only where they were given. That they are read again as this schema is the law
    /// [`canonical_form`](crate::canonical_form). `NoMemory` comes where it runs out of memory.
    pub fn canonical_bytes(&self, alloc: Global) -> Result<Txt, NoMemory>
        ensures { IfOk result (λ t. t ≡ canonical_text self.now) }
    {
        let value = schema_value(alloc, &self.doc, self.members, &self.fields)?;
        let text = value.to_string(alloc)?;
        Ok(Txt {
            items: text.into_bytes(),
        })
    }
}

/// The bytes of a text.
fn copied(alloc: Global, text: &str) -> Result<Txt, NoMemory>
    ensures { IfOk result (λ t. t ≡ text.now) }
{
    Ok(Txt {
        items: Vec::from_slice(alloc, text.as_bytes())?,
    })
}
