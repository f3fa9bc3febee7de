//! Maps: towers of which each key has a state of one other tower.
#![tactic(auto)]

mod key;
mod keyed;
mod laws;

pub use keyed::{KeyMap, KeyOp, KeyState, Keyed};
pub use laws::{keyed_is_lawful, keys_stand_apart};
