use crdt_laws::NoMemory;
use lab_model::{FileName, Refusal};
use number_crdts::{Number, NumberOp};
use replica_core::{Batch, Replica};
use std::alloc::AllocError;

/// A replica or a batch.
#[derive(Drop)]
pub(crate) enum Thing {
    Replica(Replica<Number>),
    Batch(Batch<NumberOp>),
}

/// A thing under the name of a file.
#[derive(Drop)]
pub(crate) struct Named {
    pub(crate) name: FileName,
    pub(crate) thing: Thing,
}

/// Why a line has no effect.
#[derive(Debug, Drop)]
pub(crate) enum Hindrance {
    /// It is refused.
    Refused(Refusal),
    /// It ran out of memory.
    NoMemory,
}

impl From<Refusal> for Hindrance {
    ghost use Rattle.std.specs.Prelude.{◌≡◌};
    ghost use Rattle.replica_cmd.specs.declared.things.Hindrance.TheVariants.{Refused};

    ghost from_gives = { λ cause h. h ≡ Refused cause };

    fn from(cause: Refusal) -> Hindrance {
        Hindrance::Refused(cause)
    }
}

impl From<NoMemory> for Hindrance {
    ghost use Rattle.std.specs.Prelude.{◌≡◌};
    ghost use Rattle.replica_cmd.specs.declared.things.Hindrance.TheVariants.{NoMemory};

    ghost from_gives = { λ _ h. h ≡ NoMemory };

    fn from(_error: NoMemory) -> Hindrance {
        Hindrance::NoMemory
    }
}

impl From<AllocError> for Hindrance {
    ghost use Rattle.std.specs.Prelude.{◌≡◌};
    ghost use Rattle.replica_cmd.specs.declared.things.Hindrance.TheVariants.{NoMemory};

    ghost from_gives = { λ _ h. h ≡ NoMemory };

    fn from(_error: AllocError) -> Hindrance {
        Hindrance::NoMemory
    }
}
