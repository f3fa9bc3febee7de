//! Semidirect products: towers made of a lower tower and operations of one more level that act on it. Resets are such operations
//! above any tower.
#![tactic(auto)]

mod maybe;
mod reset;
mod stack;

pub use maybe::{Maybe, MaybeOp};
pub use reset::WinReset;
pub use stack::{Stack, StackOp};
