ghost use Rattle.std.specs.Prelude.{◌≡◌, IfOk, map};
ghost use Rattle.std.specs.List.{All};
ghost use Rattle.doc_schema.specs.Sound.{IsSoundField};
ghost use Rattle.doc_tower.specs.Shapes.{field_shape, field_tower_shape};

use crate::either::Either;
use crate::kinds::{KindOp, KindState, KindTower};
use crdt_laws::NoMemory;
use doc_schema::{Field, Reset};
use reset_products::{Observed, ObservedOp, ObservedState, Winning, winning};
use semidirect_product::{MaybeOp, StackOp};
use std::alloc::Global;

/// The tower of a field. Its three arms, from left to right, are a field without a reset, one whose reset wins over what it did not
/// know of, and one whose reset forgets what it knew of.
pub type FieldTower = Either<KindTower, Either<Winning<KindTower>, Observed<KindTower>>>;

/// A state of a field, in the same arm.
pub type FieldState = Either<KindState, Either<KindState, ObservedState<KindTower>>>;

/// An operation of a field, in the same arm.
pub type FieldOp = Either<KindOp, Either<StackOp<MaybeOp<KindOp>, ()>, ObservedOp<KindOp>>>;

/// The tower of a field of a schema.
fn field_tower(alloc: Global, field: &Field) -> Result<FieldTower, NoMemory>
    requires { IsSoundField field.now }
    ensures { IfOk result (λ t. field_tower_shape t ≡ field_shape field.now) }
{
    let tower = KindTower::of(alloc, &field.kind)?;
    Ok(match field.reset {
        Reset::Never => Either::Left(tower),
        Reset::Winning => Either::Right(Either::Left(winning(tower))),
        Reset::Observed => Either::Right(Either::Right(Observed::of(tower))),
    })
}

/// The towers of the fields of a schema.
pub(crate) fn field_towers(alloc: Global, fields: &[Field]) -> Result<Vec<FieldTower>, NoMemory>
    requires { All IsSoundField fields.now }
    ensures { IfOk result (λ ts. map field_tower_shape ts.items ≡ map field_shape fields.now) }
{
    let mut towers = Vec::with_capacity(alloc, fields.len())?;
    for field in fields {
        towers.push(field_tower(alloc, field)?)?;
    }
    Ok(towers)
}
