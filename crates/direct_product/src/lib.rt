//! Direct products: towers side by side, whose operations leave each other alone.
#![tactic(auto)]

mod pair;
mod row;
mod row_parts;

pub use pair::{Both, Pair, PairOp};
pub use row::{Row, RowOp};
