//! The commands of the program: lines of a script over named replicas and batches.
#![tactic(auto)]

mod answer;
mod call;
mod check;
mod handlers;
mod lab;
mod lines;
mod number;
mod outside;
mod parse;
mod play;
mod stop;
mod things;

pub use call::run;
pub use lab_model::{Command, FileName, Refusal, Verb};
