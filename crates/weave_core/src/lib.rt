//! What operations leave over any tower: in canonical order from any state, and in whatever order they arrive.
//!
//! The definitions, the laws of arrivals, and the running fold and weave.
#![tactic(auto)]

mod fold;
pub mod laws;
mod woven;

pub use fold::fold_plain;
pub use woven::Woven;
