use action_tables::{Shape, Verdict};
use crdt_laws::NoMemory;
use std::fmt;
use thiserror::Error;

/// Why the table of a field is refused.
#[derive(Clone, Copy, Debug, PartialEq, Eq, Error)]
pub enum TableRefusal {
    /// The parts make no table.
    Shape(Shape),
    /// It breaks a law, and this is the first case, as the checker says.
    Broken(Verdict),
}

impl fmt::Display for TableRefusal {
    ghost use Rattle.std.specs.Prelude.{Some};
    ghost use Rattle.doc_schema.specs.FaultText.{refusal_text};

    ghost output = { λ refusal. Some (refusal_text refusal) };

    fn fmt<W: fmt::Write>(&self, f: &mut fmt::Formatter<W>) -> fmt::Result {
        match self {
            TableRefusal::Shape(shape) => write!(f, "{shape}"),
            TableRefusal::Broken(verdict) => write!(f, "{verdict}"),
        }
    }
}

/// Why a text is no schema, in the order in which it is looked at: the text, the whole value, and then each field, from its form to
/// its table, before the next one. Fields are numbered from 0.
#[derive(Clone, Copy, Debug, PartialEq, Eq, Error)]
pub enum SchemaError {
    /// The text has more than 65,536 bytes.
    Long {
        /// How many it has.
        bytes: u32,
    },
    /// The text is no JSON.
    NotJson,
    /// A value has not its form.
    Shape {
        /// The field, or 255 for the whole value.
        field: u8,
    },
    /// There are not 1 to 64 members.
    Members {
        /// How many the text says.
        n: u64,
    },
    /// The modulus of a field is 0 or 1.
    Modulus {
        /// The field.
        field: u8,
        /// Its modulus.
        got: u64,
    },
    /// A field, a value, a mark, a state or an operation has a name that is none.
    Name {
        /// The field, or 255 for the schema's own name.
        field: u8,
    },
    /// An earlier field has the name of this one, or two values, marks, states or operations of it have one name.
    Twice {
        /// The field.
        field: u8,
    },
    /// The table of a field is refused.
    Table {
        /// The field.
        field: u8,
        /// Why it is.
        fault: TableRefusal,
    },
    /// The call ran out of memory. It says nothing of the text, and may come at any point.
    NoMemory,
}

impl From<NoMemory> for SchemaError {
    ghost use Rattle.std.specs.Prelude.{◌≡◌};
    ghost use Rattle.doc_schema.specs.declared.fault.SchemaError.TheVariants.{NoMemory};

    ghost from_gives = { λ _ fault. fault ≡ NoMemory };

    fn from(_error: NoMemory) -> SchemaError {
        SchemaError::NoMemory
    }
}

impl fmt::Display for SchemaError {
    ghost use Rattle.std.specs.Prelude.{Some};
    ghost use Rattle.doc_schema.specs.FaultText.{fault_text};

    ghost output = { λ fault. Some (fault_text fault) };

    fn fmt<W: fmt::Write>(&self, f: &mut fmt::Formatter<W>) -> fmt::Result {
        match self {
            SchemaError::Long { bytes } => write!(f, "long {bytes}"),
            SchemaError::NotJson => write!(f, "not-json"),
            SchemaError::Shape { field } => write!(f, "shape {field}"),
            SchemaError::Members { n } => write!(f, "members {n}"),
            SchemaError::Modulus { field, got } => write!(f, "modulus {field} {got}"),
            SchemaError::Name { field } => write!(f, "name {field}"),
            SchemaError::Twice { field } => write!(f, "twice {field}"),
            SchemaError::Table { field, fault } => write!(f, "table {field} {fault}"),
            SchemaError::NoMemory => write!(f, "no-memory"),
        }
    }
}
