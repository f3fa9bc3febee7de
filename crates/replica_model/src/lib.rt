//! The replica of a document as sets and clocks, and the laws that show what its steps keep.
#![tactic(auto)]

pub mod laws;
