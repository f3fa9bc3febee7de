ghost use Rattle.std.specs.Prelude.{◌≡◌, List};
ghost use Rattle.list_crdt.specs.declared.position.Step.{Step};

use crate::position::Position;

/// What stands at a position.
pub trait Placed {
    /// The steps of the position.
    ghost position: { Self → List Step };

    /// The position at which it stands.
    fn at(&self) -> &Position
        ensures { result.now ≡ position self.now };
}
