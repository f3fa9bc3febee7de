//! The tower of a document: a row of fields, each of a kind, as its schema says.
#![tactic(auto)]

mod either;
mod fields;
mod kinds;

pub use either::Either;
pub use fields::{FieldOp, FieldState, FieldTower};
pub use kinds::{
    AllKinds, AllOps, AllStates, FirstKinds, KindOp, KindState, KindTower, LastKinds, MapKinds,
};
