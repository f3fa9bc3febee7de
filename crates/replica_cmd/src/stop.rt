use crdt_laws::NoMemory;
use std::alloc::{AllocError, AllocFailed};

/// Why a call ends before the last line of its script.
#[derive(Clone, Copy, Debug, PartialEq, Eq)]
pub(crate) enum Stop {
    /// The call ran out of memory.
    NoMemory,
    /// The source failed.
    Source,
    /// The store failed.
    Store,
    /// The sink failed.
    Sink,
    /// The script, or a file, has more bytes than it may have.
    Long,
}

impl From<NoMemory> for Stop {
    ghost use Rattle.replica_cmd.specs.declared.stop.Stop.TheVariants.{NoMemory};
    ghost use Rattle.std.specs.Prelude.{◌≡◌};

    ghost from_gives = { λ _ e. e ≡ NoMemory };

    fn from(_error: NoMemory) -> Stop {
        Stop::NoMemory
    }
}

impl From<AllocError> for Stop {
    ghost use Rattle.replica_cmd.specs.declared.stop.Stop.TheVariants.{NoMemory};
    ghost use Rattle.std.specs.Prelude.{◌≡◌};

    ghost from_gives = { λ _ e. e ≡ NoMemory };

    fn from(_error: AllocError) -> Stop {
        Stop::NoMemory
    }
}
