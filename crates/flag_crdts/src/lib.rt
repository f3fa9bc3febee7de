//! Flags and choices: kinds of documents whose tables are known when the program is built. None of their calls but `show` takes
//! memory.
#![tactic(auto)]

mod choice;
mod flag;
mod ladder;
pub mod laws;

pub use choice::Choice;
pub use flag::{Fixed, off_wins, on_wins};
pub use ladder::Ladder;
