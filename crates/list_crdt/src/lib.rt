//! Texts whose characters have positions of their own, and positions between others. Members may put characters into one place
//! at once, and delete what others have put there: texts with the same operations are the same.
#![tactic(auto)]

mod cells;
mod gap;
mod laws;
mod placed;
mod position;
mod text;

pub use cells::{find, with_cell, without};
pub use gap::{ListError, between};
pub use laws::{edits_by_index, next_positions, position_order, text_is_lawful, valid_edits};
pub use placed::Placed;
pub use position::{Position, Step};
pub use text::{Cell, Text, TextOp, TextState, is_known_at, may_insert_at};

#[cfg(test)]
mod tests;
