//! A lab: named replicas and batches, what each line of a script does to them, and the laws of whole runs.
#![tactic(auto)]

mod command;
pub mod laws;
mod name;
mod refusal;

pub use command::{Command, Verb};
pub use name::FileName;
pub use refusal::Refusal;
