//! Schemas of documents: their names, how many members a document has, and what its fields are. A schema is read of a JSON text,
//! of which each fault is told, and has canonical bytes.
#![tactic(auto)]

mod canonical;
mod copies;
mod fault;
mod field;
mod kind;
mod laws;
mod places;
mod schema;
mod written;

pub use fault::{SchemaError, TableRefusal};
pub use kind::{Field, Kind, Reset};
pub use laws::{built_in_bytes, canonical_form, form_of_schemas, one_reading, one_value};
pub use schema::Schema;

#[cfg(test)]
mod tests;
