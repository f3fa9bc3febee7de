use crate::name::FileName;
use action_tables::TableFault;
use std::fmt;
use thiserror::Error;

/// Why a line is refused. It changes nothing then.
#[derive(Debug, Drop, Error)]
pub enum Refusal {
    /// It is none of the lines that are built, or it takes a batch for a replica or a replica for a batch.
    Unbuilt,
    /// A replica of this name is there already.
    Exists(FileName),
    /// There is nothing of this name.
    Missing(FileName),
    /// The file is no table. Running out of memory is no such fault, and ends the call.
    Table(TableFault),
}

impl fmt::Display for Refusal {
    ghost use Rattle.std.specs.Prelude.{Some};
    ghost use Rattle.lab_model.specs.Text.{refusal_text};

    ghost output = { λ r. Some (refusal_text r) };

    fn fmt<W: fmt::Write>(&self, f: &mut fmt::Formatter<W>) -> fmt::Result {
        match self {
            Refusal::Unbuilt => write!(f, "unbuilt"),
            Refusal::Exists(name) => write!(f, "exists {name}"),
            Refusal::Missing(name) => write!(f, "missing {name}"),
            Refusal::Table(fault) => write!(f, "table {fault}"),
        }
    }
}

#[cfg(test)]
mod tests {
    use super::*;
    use std::alloc::AllocError;

    #[test]
    fn names_what_is_missing(rt: HostRuntime) -> Result<(), AllocError> {
        let name = FileName::of(rt.alloc(), "ana.save")?;
        let again = FileName::of(rt.alloc(), "ana.save")?;
        assert!(rt; name.is(&again));
        let refusal = Refusal::Missing(name);
        let text = format!(in rt.alloc(); "{refusal}")?;
        assert_eq!(rt; text.as_str(), "missing ana.save");
        Ok(())
    }
}
