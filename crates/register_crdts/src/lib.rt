//! Registers: towers whose operations set a text.
#![tactic(auto)]

mod latest;
mod laws;
mod several;
mod text;

pub use latest::{Latest, Set};
pub use laws::{
    latest_is_lawful, latest_shows_the_greatest, several_is_lawful, several_shows_the_unseen,
};
pub use several::{Held, Several};

#[cfg(test)]
mod tests;
